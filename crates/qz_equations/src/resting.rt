//! Where control rests next.

ghost use Rattle.std.specs.Prelude.{◌≡◌, ◌==◌, ◌&&◌, ◌||◌, ℕ, Bool, true, false, IfOk, OnOk, length};
ghost use Rattle.qz_values.specs.declared.Know.{Know};
ghost use Rattle.qz_values.specs.Knowledge.{knows_yes};
ghost use Rattle.qz_syntax.specs.declared.places.Later.{Later};
ghost use Rattle.qz_verilog.specs.Meaning.{Nets};
ghost use Rattle.std.specs.Prelude.{List};
ghost use Rattle.qz_system.specs.Parts.{AreParts, is_next_right};
ghost use Rattle.qz_system.specs.Nexts.{rests_next};
ghost use Rattle.qz_wires.specs.WireTable.{types_in, Reads, Extends};
ghost use Rattle.qz_equations.specs.Ends.{AreLast, Ends, AreFlags, ShowFlags};

use crate::ends::LastRails;
use qz_nets::NetId;
use qz_system::SystemParts;
use qz_verilog::Ref;
use qz_wires::Wires;
use std::alloc::{AllocError, Global};

/// For each place whether control rests there next, in one pass over the entries.
pub fn next_places(
    alloc: Global,
    wires: &mut Wires,
    parts: &SystemParts,
    last: &LastRails,
) -> Result<Vec<Ref>, AllocError>
    requires parts { AreParts parts.now }
    requires last { AreLast (types_in wires.old) parts.now last.now }
    ensures extends { OnOk result (Extends wires.old wires.new) }
    ensures size { IfOk result (λ flags. length flags.items ≡ length parts.now.places) }
    ensures typed { IfOk result (λ flags. AreFlags (types_in wires.new) flags.items) }
    ensures means { IfOk result (λ flags. (settled : Nets) → Reads settled wires.new → (knows : List Know) (laters : List Later) (know : ℕ → Know) →
        Ends parts.now settled last.now knows laters know → ShowFlags settled flags.items (λ n. rests_next parts.now know n)) }
{
    let mut flags = no_flags(alloc, wires, parts.places.len())?;
    for entry in parts.nexts.as_slice() {
        add_next(wires, parts, last, *entry, &mut flags)?;
    }
    Ok(flags)
}

/// So many flags that are never `true`.
fn no_flags(alloc: Global, wires: &mut Wires, size: usize) -> Result<Vec<Ref>, AllocError>
    ensures extends { OnOk result (Extends wires.old wires.new) }
    ensures size { IfOk result (λ flags. length flags.items ≡ size) }
    ensures typed { IfOk result (λ flags. AreFlags (types_in wires.new) flags.items) }
    ensures means { IfOk result (λ flags. (settled : Nets) → Reads settled wires.new → ShowFlags settled flags.items (λ n. false)) }
{
    let never = wires.flag(false)?;
    let flags = vec![in alloc; never; size]?;
    Ok(flags)
}

/// One entry more.
fn add_next(
    wires: &mut Wires,
    parts: &SystemParts,
    last: &LastRails,
    entry: (u32, NetId),
    flags: &mut Vec<Ref>,
) -> Result<(), AllocError>
    requires last { AreLast (types_in wires.old) parts.now last.now }
    requires entry { is_next_right parts.now entry ≡ true }
    requires size { length flags.old.items ≡ length parts.now.places }
    requires flags { AreFlags (types_in wires.old) flags.old.items }
    ensures extends { OnOk result (Extends wires.old wires.new) }
    ensures size { OnOk result (length flags.new.items ≡ length parts.now.places) }
    ensures typed { OnOk result (AreFlags (types_in wires.new) flags.new.items) }
    ensures means { OnOk result ((settled : Nets) → Reads settled wires.new → (knows : List Know) (laters : List Later) (know : ℕ → Know) →
        Ends parts.now settled last.now knows laters know → (bits : ℕ → Bool) → ShowFlags settled flags.old.items bits →
        ShowFlags settled flags.new.items (λ n. bits n || ((entry.0 == n) && knows_yes (know entry.1.0)))) }
{
    let (place, when) = entry;
    let number = place as usize;
    let holds = last.nets[when.0 as usize].value;
    let flag = wires.or(flags[number], holds)?;
    flags[number] = flag;
    Ok(())
}
