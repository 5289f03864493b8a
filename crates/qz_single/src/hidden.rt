//! Writes of a start, which don't happen where the module is resumed.

ghost use Rattle.std.specs.Prelude.{◌≡◌, ◌++◌, ◌∷◌, [], map, IfOk, OnOk};
ghost use Rattle.qz_values.specs.declared.Know.TheVariants.{Known};
ghost use Rattle.qz_values.specs.Values.{no};
ghost use Rattle.qz_control.specs.Circuits.{View, Views, known, Means, Grows, IsBool};
ghost use Rattle.qz_control.specs.Shown.{hide};
ghost use Rattle.qz_surface.specs.Written.{read_write, read_writes, IsWrite, AreWrites};

use qz_control::Circuit;
use qz_nets::NetId;
use qz_surface::NetWrite;
use qz_syntax::Module;
use std::alloc::{AllocError, Global};

/// Each write happens only where it is live: elsewhere its guard is known to be false, whatever is known
/// of the conditions that it comes from. `never` is false.
pub(crate) fn hide_all(
    alloc: Global,
    circuit: &mut Circuit,
    owner: &Module,
    live: NetId,
    never: NetId,
    writes: &[NetWrite],
) -> Result<Vec<NetWrite>, AllocError>
    requires live { IsBool circuit.old live }
    requires never { IsBool circuit.old never }
    requires is_false { Means circuit.old never (λ v. Known no) }
    requires typed { AreWrites owner.now circuit.old writes.now }
    ensures grows { OnOk result (Grows circuit.old circuit.new) }
    ensures typed { IfOk result (λ hidden. AreWrites owner.now circuit.new hidden.items) }
    ensures hidden { IfOk result (λ hidden. (v : View) → Views v circuit.new → read_writes v hidden.items ≡ map (hide (known v live)) (read_writes v writes.now)) }
{
    let mut hidden = Vec::new(alloc);
    for write in writes {
        let guard = circuit.choose(live, write.guard, never)?;
        hidden.push(NetWrite { guard, ..*write })?;
    }
    Ok(hidden)
}
