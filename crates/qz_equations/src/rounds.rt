//! Rounds unrolled: what is known of each instance after so many.

ghost use Rattle.std.specs.Prelude.{◌≡◌, ℕ, true, false, IfOk, OnOk, List, length};
ghost use Rattle.qz_values.specs.declared.Know.{Know};
ghost use Rattle.qz_values.specs.declared.Know.TheVariants as know;
ghost use Rattle.qz_values.specs.Types.{IsType};
ghost use Rattle.qz_nets.specs.Readings.{count, listed, Reading, Reads as ReadsNets};
ghost use Rattle.qz_syntax.specs.declared.places.Later.{Later};
ghost use Rattle.qz_verilog.specs.Meaning.{Nets};
ghost use Rattle.qz_system.specs.declared.valuation.Valuation.{Valuation};
ghost use Rattle.qz_system.specs.Parts.{AreParts};
ghost use Rattle.qz_system.specs.Rounds.{leaves_known, IsRound};
ghost use Rattle.qz_system.specs.Nexts.{IsNthRound};
ghost use Rattle.qz_wires.specs.WireTable.{types_in, Reads, Extends};
ghost use Rattle.qz_wires.specs.Rails.{Shows, ShowEach, IsRail};
ghost use Rattle.qz_wires.specs.NetRails.{AreNetRails};
ghost use Rattle.qz_equations.specs.Registers.{Holds, AreOver};
ghost use Rattle.qz_equations.specs.Unrolled.{AreInstanceRails};
ghost use Rattle.qz_equations.specs.Ends.{AreLast, IsShown};

use crate::ends::LastRails;
use crate::instances::type_of;
use crate::leaves::leaf_rails;
use crate::settling::settle_all;
use crate::writers::tallies;
use qz_system::SystemParts;
use qz_values::{Ty, Value};
use qz_wires::{Rail, Wires, net_rails};
use std::alloc::{AllocError, Global};

/// What is known after so many rounds: of the instances, of the nets by that, and of the delayed
/// writers.
pub fn last_rails(
    alloc: Global,
    wires: &mut Wires,
    parts: &SystemParts,
    count: u32,
) -> Result<LastRails, AllocError>
    requires parts { AreParts parts.now }
    requires over { AreOver parts.now wires.old }
    ensures extends { OnOk result (Extends wires.old wires.new) }
    ensures last { IfOk result (λ last. AreLast (types_in wires.new) parts.now last) }
    ensures means { IfOk result (λ last. (nets : Nets) → Reads nets wires.new → (v : Valuation) → Holds parts.now v nets →
        (knows : List Know) (delayed : List Later) (know : ℕ → Know) → IsNthRound parts.now v count knows delayed →
        ReadsNets (record { leaf = listed (leaves_known parts.now v knows); know = know }) parts.now.table →
        IsShown parts.now nets last knows know) }
{
    let instances = round_rails(alloc, wires, parts, count)?;
    let nets = table_rails(alloc, wires, parts, &instances)?;
    let delayed = tallies(alloc, wires, parts, &nets, true)?;
    Ok(LastRails {
        instances,
        nets,
        delayed,
    })
}

/// The rails of the instances after so many rounds.
fn round_rails(
    alloc: Global,
    wires: &mut Wires,
    parts: &SystemParts,
    count: u32,
) -> Result<Vec<Rail>, AllocError>
    requires parts { AreParts parts.now }
    requires over { AreOver parts.now wires.old }
    ensures extends { OnOk result (Extends wires.old wires.new) }
    ensures rails { IfOk result (λ rails. AreInstanceRails (types_in wires.new) parts.now rails.items) }
    ensures means { IfOk result (λ rails. (nets : Nets) → Reads nets wires.new → (v : Valuation) → Holds parts.now v nets →
        (knows : List Know) (delayed : List Later) → IsNthRound parts.now v count knows delayed → ShowEach nets rails.items (listed knows)) }
{
    let mut now = unknown_rails(alloc, wires, parts)?;
    for _round in 0..count {
        now = next_round(alloc, wires, parts, &now)?;
    }
    Ok(now)
}

/// Nothing is known of any instance.
fn unknown_rails(
    alloc: Global,
    wires: &mut Wires,
    parts: &SystemParts,
) -> Result<Vec<Rail>, AllocError>
    requires { AreParts parts.now }
    ensures extends { OnOk result (Extends wires.old wires.new) }
    ensures rails { IfOk result (λ rails. AreInstanceRails (types_in wires.new) parts.now rails.items) }
    ensures means { IfOk result (λ rails. (nets : Nets) → Reads nets wires.new → ShowEach nets rails.items (λ n. know.Unknown)) }
{
    let mut rails = Vec::new(alloc);
    for number in 0..parts.instances.len() {
        let rail = unknown_rail(wires, type_of(parts, number))?;
        rails.push(rail)?;
    }
    Ok(rails)
}

/// Nothing is known of a value of this type.
fn unknown_rail(wires: &mut Wires, ty: Ty) -> Result<Rail, AllocError>
    requires { IsType ty }
    ensures extends { OnOk result (Extends wires.old wires.new) }
    ensures rail { IfOk result (λ r. IsRail (types_in wires.new) ty r) }
    ensures means { IfOk result (λ r. (nets : Nets) → Reads nets wires.new → Shows nets r know.Unknown) }
{
    let known = wires.flag(false)?;
    let value = wires.constant(Value::zero_of(ty))?;
    Ok(Rail { known, value })
}

/// The rails of the instances in the round after one.
fn next_round(
    alloc: Global,
    wires: &mut Wires,
    parts: &SystemParts,
    now: &[Rail],
) -> Result<Vec<Rail>, AllocError>
    requires parts { AreParts parts.now }
    requires over { AreOver parts.now wires.old }
    requires now { AreInstanceRails (types_in wires.old) parts.now now.now }
    ensures extends { OnOk result (Extends wires.old wires.new) }
    ensures rails { IfOk result (λ rails. AreInstanceRails (types_in wires.new) parts.now rails.items) }
    ensures means { IfOk result (λ rails. (nets : Nets) → Reads nets wires.new → (v : Valuation) → Holds parts.now v nets →
        (before after : List Know) (delayed : List Later) → IsRound parts.now v before after delayed →
        ShowEach nets now.now (listed before) → ShowEach nets rails.items (listed after)) }
{
    let nets = table_rails(alloc, wires, parts, now)?;
    let writers = tallies(alloc, wires, parts, &nets, false)?;
    let rails = settle_all(alloc, wires, parts, &writers)?;
    Ok(rails)
}

/// The rails of the system's nets, from those of the instances.
fn table_rails(
    alloc: Global,
    wires: &mut Wires,
    parts: &SystemParts,
    now: &[Rail],
) -> Result<Vec<Rail>, AllocError>
    requires parts { AreParts parts.now }
    requires over { AreOver parts.now wires.old }
    requires now { AreInstanceRails (types_in wires.old) parts.now now.now }
    ensures extends { OnOk result (Extends wires.old wires.new) }
    ensures size { IfOk result (λ rails. length rails.items ≡ count parts.now.table) }
    ensures rails { IfOk result (λ rails. AreNetRails (types_in wires.new) parts.now.table rails.items) }
    ensures means { IfOk result (λ rails. (nets : Nets) → Reads nets wires.new → (v : Valuation) → Holds parts.now v nets →
        (before : List Know) (know : ℕ → Know) →
        ReadsNets (record { leaf = listed (leaves_known parts.now v before); know = know }) parts.now.table →
        ShowEach nets now.now (listed before) → ShowEach nets rails.items know) }
{
    let leaves = leaf_rails(alloc, wires, parts, now)?;
    let rails = net_rails(alloc, wires, &parts.table, &leaves)?;
    Ok(rails)
}
