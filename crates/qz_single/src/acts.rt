//! The writes of a module as acts on instances with their numbers.

ghost use Rattle.std.specs.Prelude.{◌≡◌, ◌++◌, map, IfOk, OnOk};
ghost use Rattle.qz_syntax.specs.declared.modules.Module.{Module as OfTree};
ghost use Rattle.qz_single.specs.Numbering.{act_of};
ghost use Rattle.qz_single.specs.Numbered.{IsNumbering};

use crate::numbering::Numbering;
use qz_surface::NetWrite;
use qz_system::Act;
use sqlite_items::Items;
use std::alloc::{AllocError, Global};

/// The writes of a start, and then those of a resume.
#[tactic(auto, using(crate::proofs::Picked::mapped_both))]
pub(crate) fn acts_of(
    alloc: Global,
    numbering: &Numbering,
    starting: &[NetWrite],
    resuming: &[NetWrite],
) -> Result<Items<Act>, AllocError>
    ensures { IfOk result (λ acts. (m : OfTree) → IsNumbering m numbering.now → acts ≡ map (act_of m) (starting.now ++ resuming.now)) }
{
    let mut acts = Items::new(alloc);
    add_acts(&mut acts, numbering, starting)?;
    add_acts(&mut acts, numbering, resuming)?;
    Ok(acts)
}

/// Adds some writes.
fn add_acts(
    acts: &mut Items<Act>,
    numbering: &Numbering,
    writes: &[NetWrite],
) -> Result<(), AllocError>
    ensures { OnOk result ((m : OfTree) → IsNumbering m numbering.now → acts.new ≡ acts.old ++ map (act_of m) writes.now) }
{
    for write in writes {
        acts.push(act_of(numbering, *write))?;
    }
    Ok(())
}

/// A write as an act on the instance with its number.
fn act_of(numbering: &Numbering, write: NetWrite) -> Act
    ensures { (m : OfTree) → IsNumbering m numbering.now → result ≡ act_of m write }
{
    Act {
        instance: numbering.instance(write.target, write.mark),
        delayed: write.delayed,
        guard: write.guard,
        value: write.value,
    }
}
