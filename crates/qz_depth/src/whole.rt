//! What a resume of a module's body does.

ghost use Rattle.std.specs.Prelude.{◌≡◌, Bool, true, IsTrue, IfOk, OnOk};
ghost use Rattle.qz_syntax.specs.declared.places.Residual.{Residual};
ghost use Rattle.qz_meaning.specs.Instances.{Instance};
ghost use Rattle.qz_meaning.specs.Scenes.{root};
ghost use Rattle.qz_meaning.specs.Calls.{Answers, open_layout};
ghost use Rattle.qz_meaning.specs.Walks.{layout};
ghost use Rattle.qz_meaning.specs.Landings.{open_walk};
ghost use Rattle.qz_meaning.specs.Verdicts.{verdict};
ghost use Rattle.qz_control.specs.Circuits.{View, Views, known, Grows, IsBool};
ghost use Rattle.qz_control.specs.Shown.{writes_in, AreFalse};
ghost use Rattle.qz_control.specs.Ready.{is_ready};
ghost use Rattle.qz_control.specs.Follows.{RestsAt};
ghost use Rattle.qz_surface.specs.Written.{read_writes, AreWrites};

use crate::resuming::depth;
use qz_control::{Circuit, Marks};
use qz_nets::NetId;
use qz_surface::NetWrite;
use qz_syntax::Module;
use std::alloc::{AllocError, Global};

/// The writes of a resume of the body with a guard. Where control rests at a place, each target's verdict is
/// that of the walk's writes, for all knowledge and whatever calls answer; where it is away, each guard is
/// known to be false.
///
/// # Errors
///
/// Want of memory alone.
pub fn writes_of_resume(
    alloc: Global,
    circuit: &mut Circuit,
    owner: &Module,
    act: NetId,
) -> Result<Vec<NetWrite>, AllocError>
    requires ready { IsTrue (is_ready owner.now owner.now.body) }
    requires act { IsBool circuit.old act }
    ensures grows { OnOk result (Grows circuit.old circuit.new) }
    ensures typed { IfOk result (λ writes. AreWrites owner.now circuit.new writes.items) }
    ensures writes { IfOk result (λ writes. (v : View) (answers : Answers) (r : Residual) → Views v circuit.new →
        RestsAt (layout open_layout owner.now.body) v.leaves.at r → (i : Instance) (delayed : Bool) →
        verdict i delayed (read_writes v writes.items)
        ≡ verdict i delayed (writes_in ((open_walk v.leaves.scene answers owner.now.body).resume root r (known v act)))) }
    ensures away { IfOk result (λ writes. (v : View) → Views v circuit.new →
        (layout open_layout owner.now.body).away v.leaves.at ≡ true → AreFalse (read_writes v writes.items)) }
{
    let mut marks = Marks::at_root(alloc);
    let mut writes = Vec::new(alloc);
    let never = circuit.truth(false)?;
    depth(
        alloc,
        circuit,
        owner,
        &mut marks,
        &mut writes,
        &owner.body,
        act,
        never,
        never,
    )?;
    Ok(writes)
}
