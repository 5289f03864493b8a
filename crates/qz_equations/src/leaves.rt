//! The rails of the leaves: inputs and registers are known.

ghost use Rattle.std.specs.Prelude.{◌≡◌, ◌<◌, ℕ, true, IfOk, OnOk, Some, List, length, slice_get};
ghost use Rattle.qz_values.specs.declared.Ty.{Ty as TyOf};
ghost use Rattle.qz_values.specs.declared.Ty.TheVariants.{Bool as Truth};
ghost use Rattle.qz_values.specs.declared.Know.{Know};
ghost use Rattle.qz_values.specs.declared.Know.TheVariants as know;
ghost use Rattle.qz_nets.specs.Readings.{listed};
ghost use Rattle.qz_verilog.specs.Validity.{IsNetOf};
ghost use Rattle.qz_verilog.specs.Meaning.{Nets, value_at};
ghost use Rattle.qz_system.specs.declared.valuation.Valuation.{Valuation};
ghost use Rattle.qz_system.specs.Parts.{AreParts, is_leaf_right, leaf_stands};
ghost use Rattle.qz_system.specs.Rounds.{leaf_known, leaves_known};
ghost use Rattle.qz_wires.specs.WireTable.{types_in, Reads, Extends};
ghost use Rattle.qz_wires.specs.Rails.{Shows, ShowEach, IsRail};
ghost use Rattle.qz_equations.specs.Registers.{Holds, AreOver};
ghost use Rattle.qz_equations.specs.Unrolled.{AreInstanceRails, AreLeavesOf};

use qz_system::{SystemLeaf, SystemParts};
use qz_verilog::Ref;
use qz_wires::{Rail, Wires};
use std::alloc::{AllocError, Global};

/// The rail of each leaf, by the leaves' numbers, from those of the instances.
pub fn leaf_rails(
    alloc: Global,
    wires: &mut Wires,
    parts: &SystemParts,
    now: &[Rail],
) -> Result<Vec<Rail>, AllocError>
    requires parts { AreParts parts.now }
    requires over { AreOver parts.now wires.old }
    requires now { AreInstanceRails (types_in wires.old) parts.now now.now }
    ensures extends { OnOk result (Extends wires.old wires.new) }
    ensures size { IfOk result (λ rails. length rails.items ≡ length parts.now.leaves) }
    ensures rails { IfOk result (λ rails. AreLeavesOf (types_in wires.new) parts.now rails.items) }
    ensures means { IfOk result (λ rails. (nets : Nets) → Reads nets wires.new → (v : Valuation) → Holds parts.now v nets →
        (before : List Know) → ShowEach nets now.now (listed before) →
        ShowEach nets rails.items (listed (leaves_known parts.now v before))) }
{
    let mut rails = Vec::new(alloc);
    for leaf in parts.leaves.as_slice() {
        let rail = leaf_rail(wires, parts, now, *leaf)?;
        rails.push(rail)?;
    }
    Ok(rails)
}

/// The rail of what a leaf stands for.
fn leaf_rail(
    wires: &mut Wires,
    parts: &SystemParts,
    now: &[Rail],
    leaf: SystemLeaf,
) -> Result<Rail, AllocError>
    requires over { AreOver parts.now wires.old }
    requires parts { AreParts parts.now }
    requires leaf { is_leaf_right parts.now leaf ≡ true }
    requires now { AreInstanceRails (types_in wires.old) parts.now now.now }
    ensures extends { OnOk result (Extends wires.old wires.new) }
    ensures rail { IfOk result (λ r. (ty : TyOf) → leaf_stands parts.now leaf ≡ Some ty → IsRail (types_in wires.new) ty r) }
    ensures means { IfOk result (λ r. (nets : Nets) → Reads nets wires.new → (v : Valuation) → Holds parts.now v nets →
        (before : List Know) → ShowEach nets now.now (listed before) → Shows nets r (leaf_known parts.now v before leaf)) }
{
    match leaf {
        SystemLeaf::Input(input) => {
            let r = known(wires, Ref::Input(input as u64))?;
            Ok(r)
        }
        SystemLeaf::Now(instance) => Ok(now[instance as usize]),
        SystemLeaf::At(place) => {
            let r = known(wires, Ref::Reg(1 + place as u64))?;
            Ok(r)
        }
        SystemLeaf::Started => {
            let r = known(wires, Ref::Reg(0))?;
            Ok(r)
        }
    }
}

/// The rail of a net whose value is always known.
fn known(wires: &mut Wires, value: Ref) -> Result<Rail, AllocError>
    ensures extends { OnOk result (Extends wires.old wires.new) }
    ensures value { IfOk result (λ r. r.value ≡ value) }
    ensures known { IfOk result (λ r. IsNetOf (types_in wires.new) Truth r.known) }
    ensures means { IfOk result (λ r. (nets : Nets) → Reads nets wires.new → Shows nets r (know.Known (value_at nets value))) }
{
    let known = wires.flag(true)?;
    Ok(Rail { known, value })
}
