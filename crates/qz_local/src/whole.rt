//! Where control goes in a module's body, and which copies of its locals are carried.

ghost use Rattle.std.specs.Prelude.{◌≡◌, Bool, true, false, ◌&&◌, not, IsTrue, IfOk, OnOk};
ghost use Rattle.std.specs.List.{list_any};
ghost use Rattle.qz_syntax.specs.declared.places.Residual.{Residual};
ghost use Rattle.qz_meaning.specs.Scenes.{root};
ghost use Rattle.qz_meaning.specs.Calls.{Answers, open_layout};
ghost use Rattle.qz_meaning.specs.Walks.{layout};
ghost use Rattle.qz_meaning.specs.Landings.{open_walk};
ghost use Rattle.qz_control.specs.Leaves.{known_bit};
ghost use Rattle.qz_control.specs.Circuits.{View, Views, known, Grows, IsBool};
ghost use Rattle.qz_control.specs.Guarded.{when, Way, is_stay, is_leave, by_way};
ghost use Rattle.qz_control.specs.Ready.{is_ready};
ghost use Rattle.qz_control.specs.Follows.{IsPlain, RestsAt};
ghost use Rattle.qz_moves.specs.declared.spots.Rest.{Rest};
ghost use Rattle.qz_local.specs.Joined.{says};
ghost use Rattle.qz_local.specs.Nets.{next_known, HasBools};
ghost use Rattle.qz_local.specs.Plain.{LeavesAreKnown};

use crate::joining::join;
use crate::nexts::Nexts;
use qz_control::Circuit;
use qz_moves::{spots_of_resume, spots_of_start};
use qz_nets::NetId;
use qz_syntax::{Mark, Module};
use std::alloc::{AllocError, Global};

/// Where control rests after the body was started with a mark, and the copies by which its scopes are
/// entered: as the walk says, where each leaf is known. `drop` says that control isn't kept.
///
/// # Errors
///
/// Want of memory alone.
pub fn nexts_of_start(
    alloc: Global,
    circuit: &mut Circuit,
    owner: &Module,
    m: Mark,
    start: NetId,
    drop: NetId,
) -> Result<Nexts, AllocError>
    requires ready { IsTrue (is_ready owner.now owner.now.body) }
    requires start { IsBool circuit.old start }
    requires drop { IsBool circuit.old drop }
    ensures grows { OnOk result (Grows circuit.old circuit.new) }
    ensures bools { IfOk result (λ all. HasBools circuit.new all) }
    ensures nexts { IfOk result (λ all. (v : View) (answers : Answers) (started dropped : Bool) →
        Views v circuit.new → LeavesAreKnown v → IsPlain owner.now v.leaves.scene →
        known v start ≡ known_bit started → known v drop ≡ known_bit dropped → (one : Rest) →
        next_known v all one
        ≡ known_bit (list_any (says one) (when (started && not dropped) ((open_walk v.leaves.scene answers owner.now.body).rest root m)))) }
{
    let spots = spots_of_start(alloc, circuit, owner, m, start, drop)?;
    let all = join(alloc, circuit, &spots)?;
    Ok(all)
}

/// Where control rests after the body was resumed, and the copies by which its scopes are kept or entered:
/// as the walk says, where each leaf is known, whether control stays where it is, leaves, or goes on; and
/// nowhere, where it was away.
///
/// # Errors
///
/// Want of memory alone.
pub fn nexts_of_resume(
    alloc: Global,
    circuit: &mut Circuit,
    owner: &Module,
    stay: NetId,
    leave: NetId,
) -> Result<Nexts, AllocError>
    requires ready { IsTrue (is_ready owner.now owner.now.body) }
    requires stay { IsBool circuit.old stay }
    requires leave { IsBool circuit.old leave }
    ensures grows { OnOk result (Grows circuit.old circuit.new) }
    ensures bools { IfOk result (λ all. HasBools circuit.new all) }
    ensures nexts { IfOk result (λ all. (v : View) (answers : Answers) (r : Residual) (way : Way) →
        Views v circuit.new → LeavesAreKnown v → IsPlain owner.now v.leaves.scene →
        RestsAt (layout open_layout owner.now.body) v.leaves.at r →
        known v stay ≡ known_bit (is_stay way) → known v leave ≡ known_bit (is_leave way) → (one : Rest) →
        next_known v all one
        ≡ known_bit (list_any (says one) (by_way way
        ((open_walk v.leaves.scene answers owner.now.body).after root r)
        ((open_walk v.leaves.scene answers owner.now.body).kept r)))) }
    ensures away { IfOk result (λ all. (v : View) (stayed left : Bool) →
        Views v circuit.new → LeavesAreKnown v → IsPlain owner.now v.leaves.scene →
        (layout open_layout owner.now.body).away v.leaves.at ≡ true →
        known v stay ≡ known_bit stayed → known v leave ≡ known_bit left → (one : Rest) →
        next_known v all one ≡ known_bit false) }
{
    let spots = spots_of_resume(alloc, circuit, owner, stay, leave)?;
    let all = join(alloc, circuit, &spots)?;
    Ok(all)
}
