//! What a system has of a module's nets, by numbers.

ghost use Rattle.std.specs.Prelude.{IfOk};
ghost use Rattle.qz_syntax.specs.declared.modules.Module.{Module as OfTree};
ghost use Rattle.qz_single.specs.Numbered.{IsNumbering};
ghost use Rattle.qz_single.specs.Joined.{IsWired};

use crate::acts::acts_of;
use crate::compiled::Compiled;
use crate::leaves::leaves_of;
use crate::numbering::Numbering;
use crate::spots::{carries_of, nexts_of};
use qz_nets::NetId;
use qz_system::{Act, Carry, SystemLeaf};
use sqlite_items::Items;
use std::alloc::{AllocError, Global};

/// What leaves stand for, and what goes by nets.
#[derive(Drop)]
pub(crate) struct Wired {
    pub leaves: Items<SystemLeaf>,
    pub acts: Items<Act>,
    pub nexts: Items<(u32, NetId)>,
    pub carries: Items<Carry>,
}

/// What was compiled of a module, by its numbers.
pub(crate) fn wired_of(
    alloc: Global,
    numbering: &Numbering,
    c: &Compiled,
) -> Result<Wired, AllocError>
    ensures { IfOk result (λ wired. (m : OfTree) → IsNumbering m numbering.now → IsWired m c.now wired) }
{
    let leaves = leaves_of(alloc, numbering, c.circuit.leaves.as_slice())?;
    let acts = acts_of(alloc, numbering, &c.starting, &c.resuming)?;
    let nexts = nexts_of(alloc, &c.entering, &c.moving)?;
    let carries = carries_of(alloc, numbering, &c.entering, &c.moving)?;
    Ok(Wired {
        leaves,
        acts,
        nexts,
        carries,
    })
}
