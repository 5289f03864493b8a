//! Where control goes in a module's body.

ghost use Rattle.std.specs.Prelude.{◌≡◌, Bool, true, false, ◌&&◌, not, [], IsTrue, IfOk, OnOk};
ghost use Rattle.qz_syntax.specs.declared.places.Residual.{Residual};
ghost use Rattle.qz_meaning.specs.Scenes.{root};
ghost use Rattle.qz_meaning.specs.Calls.{Answers, open_layout};
ghost use Rattle.qz_meaning.specs.Walks.{layout};
ghost use Rattle.qz_meaning.specs.Landings.{open_walk};
ghost use Rattle.qz_control.specs.Leaves.{known_bit};
ghost use Rattle.qz_control.specs.Circuits.{View, Views, known, Grows, IsBool};
ghost use Rattle.qz_control.specs.Guarded.{chosen, when, Way, is_stay, is_leave, by_way};
ghost use Rattle.qz_control.specs.Ready.{is_ready};
ghost use Rattle.qz_control.specs.Follows.{IsPlain, RestsAt};
ghost use Rattle.qz_moves.specs.Appended.{read_spots, AreTests};

use crate::entering::enter;
use crate::guards::neither;
use crate::moving::moves;
use crate::spots::NetSpot;
use qz_control::{Circuit, Marks, unless};
use qz_nets::NetId;
use qz_syntax::{Mark, Module};
use std::alloc::{AllocError, Global};

/// Where control rests after the body was started with a mark, and by which instances scopes are entered:
/// as the walk says, where every condition is plain. `drop` says that control isn't kept.
///
/// # Errors
///
/// Want of memory alone.
pub fn spots_of_start(
    alloc: Global,
    circuit: &mut Circuit,
    owner: &Module,
    m: Mark,
    start: NetId,
    drop: NetId,
) -> Result<Vec<NetSpot>, AllocError>
    requires ready { IsTrue (is_ready owner.now owner.now.body) }
    requires start { IsBool circuit.old start }
    requires drop { IsBool circuit.old drop }
    ensures grows { OnOk result (Grows circuit.old circuit.new) }
    ensures tests { IfOk result (λ spots. AreTests circuit.new spots.items) }
    ensures spots { IfOk result (λ spots. (v : View) (answers : Answers) (started dropped : Bool) →
        Views v circuit.new → IsPlain owner.now v.leaves.scene →
        known v start ≡ known_bit started → known v drop ≡ known_bit dropped →
        chosen (read_spots v spots.items) ≡ when (started && not dropped) ((open_walk v.leaves.scene answers owner.now.body).rest root m)) }
{
    let mut marks = Marks::at_root(alloc);
    let mut spots = Vec::new(alloc);
    let kept = unless(circuit, drop, start)?;
    enter(
        alloc,
        circuit,
        owner,
        &mut marks,
        &mut spots,
        &owner.body,
        m,
        kept,
    )?;
    Ok(spots)
}

/// Where control rests after the body was resumed, and by which instances scopes are kept or entered: as
/// the walk says, where every condition is plain, whether control stays where it is, leaves, or goes on; and
/// nowhere where it was away.
///
/// # Errors
///
/// Want of memory alone.
pub fn spots_of_resume(
    alloc: Global,
    circuit: &mut Circuit,
    owner: &Module,
    stay: NetId,
    leave: NetId,
) -> Result<Vec<NetSpot>, AllocError>
    requires ready { IsTrue (is_ready owner.now owner.now.body) }
    requires stay { IsBool circuit.old stay }
    requires leave { IsBool circuit.old leave }
    ensures grows { OnOk result (Grows circuit.old circuit.new) }
    ensures tests { IfOk result (λ spots. AreTests circuit.new spots.items) }
    ensures spots { IfOk result (λ spots. (v : View) (answers : Answers) (r : Residual) (way : Way) →
        Views v circuit.new → IsPlain owner.now v.leaves.scene →
        RestsAt (layout open_layout owner.now.body) v.leaves.at r →
        known v stay ≡ known_bit (is_stay way) → known v leave ≡ known_bit (is_leave way) →
        chosen (read_spots v spots.items)
        ≡ by_way way ((open_walk v.leaves.scene answers owner.now.body).after root r) ((open_walk v.leaves.scene answers owner.now.body).kept r)) }
    ensures away { IfOk result (λ spots. (v : View) (stayed left : Bool) →
        Views v circuit.new → IsPlain owner.now v.leaves.scene →
        (layout open_layout owner.now.body).away v.leaves.at ≡ true →
        known v stay ≡ known_bit stayed → known v leave ≡ known_bit left →
        chosen (read_spots v spots.items) ≡ []) }
{
    let mut marks = Marks::at_root(alloc);
    let mut spots = Vec::new(alloc);
    let never = circuit.truth(false)?;
    let go = neither(circuit, stay, leave)?;
    moves(
        alloc,
        circuit,
        owner,
        &mut marks,
        &mut spots,
        &owner.body,
        stay,
        go,
        never,
    )?;
    Ok(spots)
}
