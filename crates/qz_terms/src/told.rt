//! What is told of a statement in which control may rest, and how it comes from what is told of its parts.

ghost use Rattle.std.specs.Prelude.{◌≡◌, IfOk, OnOk, if◌then◌else◌};
ghost use Rattle.qz_values.specs.declared.Know.TheVariants.{Known};
ghost use Rattle.qz_values.specs.Values.{yes, no};
ghost use Rattle.qz_values.specs.Knowledge.{both, either, opposite, choose_of};
ghost use Rattle.qz_control.specs.Leaves.{known_bit};
ghost use Rattle.qz_control.specs.Circuits.{known, Means, Grows, IsBool};
ghost use Rattle.qz_control.specs.Guarded.{where_inside};
ghost use Rattle.qz_terms.specs.Told.{AreBools};

use crate::conditional::{ends_of_abort, ends_of_choice, ends_of_suspend};
use qz_control::{Circuit, LeafKind};
use qz_nets::NetId;
use qz_syntax::Kind;
use std::alloc::AllocError;

/// Nets that tell of a statement.
#[derive(Clone, Copy, Debug, PartialEq, Eq)]
pub struct Terms {
    /// Whether control rests in it.
    pub inside: NetId,
    /// Whether control rests in it and a resume ends.
    pub ended: NetId,
    /// Whether a start with mark zero ends in the same step.
    pub ends: NetId,
}

/// The value where this is so, else false.
pub fn where_so(circuit: &mut Circuit, so: NetId, value: NetId) -> Result<NetId, AllocError>
    requires so { IsBool circuit.old so }
    requires value { IsBool circuit.old value }
    ensures grows { OnOk result (Grows circuit.old circuit.new) }
    ensures ty { IfOk result (λ id. IsBool circuit.new id) }
    ensures means { IfOk result (λ id. Means circuit.new id (λ v. where_inside (known v so) (known v value))) }
{
    let never = circuit.truth(false)?;
    let id = circuit.choose(so, value, never)?;
    Ok(id)
}

/// Of a statement in which control never rests.
pub fn passing(circuit: &mut Circuit) -> Result<Terms, AllocError>
    ensures grows { OnOk result (Grows circuit.old circuit.new) }
    ensures ty { IfOk result (λ terms. AreBools circuit.new terms) }
    ensures inside { IfOk result (λ terms. Means circuit.new terms.inside (λ v. Known no)) }
    ensures ended { IfOk result (λ terms. Means circuit.new terms.ended (λ v. Known no)) }
    ensures ends { IfOk result (λ terms. Means circuit.new terms.ends (λ v. Known yes)) }
{
    let never = circuit.truth(false)?;
    let ends = circuit.truth(true)?;
    Ok(Terms {
        inside: never,
        ended: never,
        ends,
    })
}

/// Of a pause.
pub fn of_pause(circuit: &mut Circuit, place: u32) -> Result<Terms, AllocError>
    ensures grows { OnOk result (Grows circuit.old circuit.new) }
    ensures ty { IfOk result (λ terms. AreBools circuit.new terms) }
    ensures inside { IfOk result (λ terms. Means circuit.new terms.inside (λ v. known_bit (v.leaves.at.place place))) }
    ensures ended { IfOk result (λ terms. Means circuit.new terms.ended (λ v. known_bit (v.leaves.at.place place))) }
    ensures ends { IfOk result (λ terms. Means circuit.new terms.ends (λ v. Known no)) }
{
    let inside = circuit.flag(LeafKind::At(place))?;
    let ends = circuit.truth(false)?;
    Ok(Terms {
        inside,
        ended: inside,
        ends,
    })
}

/// Of no members at all.
pub fn none_inside(circuit: &mut Circuit) -> Result<Terms, AllocError>
    ensures grows { OnOk result (Grows circuit.old circuit.new) }
    ensures ty { IfOk result (λ terms. AreBools circuit.new terms) }
    ensures inside { IfOk result (λ terms. Means circuit.new terms.inside (λ v. Known no)) }
    ensures ended { IfOk result (λ terms. Means circuit.new terms.ended (λ v. Known yes)) }
    ensures ends { IfOk result (λ terms. Means circuit.new terms.ends (λ v. Known yes)) }
{
    let inside = circuit.truth(false)?;
    let done = circuit.truth(true)?;
    Ok(Terms {
        inside,
        ended: done,
        ends: done,
    })
}

/// Of some members of a sequence and one more.
pub fn in_turn(circuit: &mut Circuit, so_far: Terms, part: Terms) -> Result<Terms, AllocError>
    requires so_far { AreBools circuit.old so_far }
    requires part { AreBools circuit.old part }
    ensures grows { OnOk result (Grows circuit.old circuit.new) }
    ensures ty { IfOk result (λ terms. AreBools circuit.new terms) }
    ensures inside { IfOk result (λ terms. Means circuit.new terms.inside (λ v. either (known v so_far.inside) (known v part.inside))) }
    ensures ended { IfOk result (λ terms. Means circuit.new terms.ended (λ v.
        choose_of (known v part.inside) (known v part.ended)
        (where_inside (known v so_far.inside) (both (known v so_far.ended) (known v part.ends))))) }
    ensures ends { IfOk result (λ terms. Means circuit.new terms.ends (λ v. both (known v so_far.ends) (known v part.ends))) }
{
    let passed = circuit.and(so_far.ended, part.ends)?;
    let before = where_so(circuit, so_far.inside, passed)?;
    let ended = circuit.choose(part.inside, part.ended, before)?;
    let inside = circuit.or(so_far.inside, part.inside)?;
    let ends = circuit.and(so_far.ends, part.ends)?;
    Ok(Terms {
        inside,
        ended,
        ends,
    })
}

/// The guard of the next member of a sequence: from this one where control rests in it, else as one more
/// that was started.
pub fn next_guard(
    circuit: &mut Circuit,
    terms: Terms,
    act: NetId,
    start: NetId,
) -> Result<NetId, AllocError>
    requires terms { AreBools circuit.old terms }
    requires act { IsBool circuit.old act }
    requires start { IsBool circuit.old start }
    ensures grows { OnOk result (Grows circuit.old circuit.new) }
    ensures ty { IfOk result (λ id. IsBool circuit.new id) }
    ensures means { IfOk result (λ id. Means circuit.new id (λ v.
        choose_of (known v terms.inside) (both (known v act) (known v terms.ended)) (both (known v start) (known v terms.ends)))) }
{
    let resumed = circuit.and(act, terms.ended)?;
    let started = circuit.and(start, terms.ends)?;
    let id = circuit.choose(terms.inside, resumed, started)?;
    Ok(id)
}

/// Of some members that go on all at once, and one more. Where control rests in none of them, they count
/// as ended.
pub fn at_once(circuit: &mut Circuit, so_far: Terms, part: Terms) -> Result<Terms, AllocError>
    requires so_far { AreBools circuit.old so_far }
    requires part { AreBools circuit.old part }
    ensures grows { OnOk result (Grows circuit.old circuit.new) }
    ensures ty { IfOk result (λ terms. AreBools circuit.new terms) }
    ensures inside { IfOk result (λ terms. Means circuit.new terms.inside (λ v. either (known v so_far.inside) (known v part.inside))) }
    ensures ended { IfOk result (λ terms. Means circuit.new terms.ended (λ v.
        choose_of (known v part.inside) (both (known v so_far.ended) (known v part.ended)) (known v so_far.ended))) }
    ensures ends { IfOk result (λ terms. Means circuit.new terms.ends (λ v. both (known v so_far.ends) (known v part.ends))) }
{
    let together = circuit.and(so_far.ended, part.ended)?;
    let ended = circuit.choose(part.inside, together, so_far.ended)?;
    let inside = circuit.or(so_far.inside, part.inside)?;
    let ends = circuit.and(so_far.ends, part.ends)?;
    Ok(Terms {
        inside,
        ended,
        ends,
    })
}

/// Of a loop, from its body.
pub fn of_loop(circuit: &mut Circuit, condition: NetId, body: Terms) -> Result<Terms, AllocError>
    requires condition { IsBool circuit.old condition }
    requires body { AreBools circuit.old body }
    ensures grows { OnOk result (Grows circuit.old circuit.new) }
    ensures ty { IfOk result (λ terms. AreBools circuit.new terms) }
    ensures inside { IfOk result (λ terms. terms.inside ≡ body.inside) }
    ensures ended { IfOk result (λ terms. Means circuit.new terms.ended (λ v.
        where_inside (known v body.inside) (both (known v body.ended) (opposite (known v condition))))) }
    ensures ends { IfOk result (λ terms. Means circuit.new terms.ends (λ v. Known no)) }
{
    let not = circuit.not(condition)?;
    let done = circuit.and(body.ended, not)?;
    let ended = where_so(circuit, body.inside, done)?;
    let ends = circuit.truth(false)?;
    Ok(Terms {
        inside: body.inside,
        ended,
        ends,
    })
}

/// Of an abort that has this kind, from its body.
pub fn of_abort(
    circuit: &mut Circuit,
    kind: Kind,
    condition: NetId,
    body: Terms,
) -> Result<Terms, AllocError>
    requires condition { IsBool circuit.old condition }
    requires body { AreBools circuit.old body }
    ensures grows { OnOk result (Grows circuit.old circuit.new) }
    ensures ty { IfOk result (λ terms. AreBools circuit.new terms) }
    ensures inside { IfOk result (λ terms. terms.inside ≡ body.inside) }
    ensures ended { IfOk result (λ terms. Means circuit.new terms.ended (λ v.
        where_inside (known v body.inside) (either (known v condition) (known v body.ended)))) }
    ensures ends { IfOk result (λ terms. Means circuit.new terms.ends (λ v.
        if kind.immediate then either (known v condition) (known v body.ends) else known v body.ends)) }
{
    let done = circuit.or(condition, body.ended)?;
    let ended = where_so(circuit, body.inside, done)?;
    let ends = ends_of_abort(circuit, kind, condition, body.ends)?;
    Ok(Terms {
        inside: body.inside,
        ended,
        ends,
    })
}

/// Of a suspend that has this kind and no hold place, from its body.
pub fn of_suspend(
    circuit: &mut Circuit,
    kind: Kind,
    condition: NetId,
    body: Terms,
) -> Result<Terms, AllocError>
    requires condition { IsBool circuit.old condition }
    requires body { AreBools circuit.old body }
    ensures grows { OnOk result (Grows circuit.old circuit.new) }
    ensures ty { IfOk result (λ terms. AreBools circuit.new terms) }
    ensures inside { IfOk result (λ terms. terms.inside ≡ body.inside) }
    ensures ended { IfOk result (λ terms. Means circuit.new terms.ended (λ v.
        where_inside (known v body.inside) (both (opposite (known v condition)) (known v body.ended)))) }
    ensures ends { IfOk result (λ terms. Means circuit.new terms.ends (λ v.
        if kind.immediate then both (opposite (known v condition)) (known v body.ends) else known v body.ends)) }
{
    let not = circuit.not(condition)?;
    let done = circuit.and(not, body.ended)?;
    let ended = where_so(circuit, body.inside, done)?;
    let ends = ends_of_suspend(circuit, kind, condition, body.ends)?;
    Ok(Terms {
        inside: body.inside,
        ended,
        ends,
    })
}

/// Of an immediate suspend that has this kind, from its body, where `held` says whether control rests at its
/// hold place.
pub fn of_held(
    circuit: &mut Circuit,
    kind: Kind,
    condition: NetId,
    held: NetId,
    body: Terms,
) -> Result<Terms, AllocError>
    requires condition { IsBool circuit.old condition }
    requires held { IsBool circuit.old held }
    requires body { AreBools circuit.old body }
    ensures grows { OnOk result (Grows circuit.old circuit.new) }
    ensures ty { IfOk result (λ terms. AreBools circuit.new terms) }
    ensures inside { IfOk result (λ terms. Means circuit.new terms.inside (λ v. either (known v held) (known v body.inside))) }
    ensures ended { IfOk result (λ terms. Means circuit.new terms.ended (λ v.
        choose_of (known v held) (both (opposite (known v condition)) (known v body.ends))
        (where_inside (known v body.inside) (both (opposite (known v condition)) (known v body.ended))))) }
    ensures ends { IfOk result (λ terms. Means circuit.new terms.ends (λ v.
        if kind.immediate then both (opposite (known v condition)) (known v body.ends) else known v body.ends)) }
{
    let suspend = of_suspend(circuit, kind, condition, body)?;
    let not = circuit.not(condition)?;
    let from_hold = circuit.and(not, body.ends)?;
    let ended = circuit.choose(held, from_hold, suspend.ended)?;
    let inside = circuit.or(held, suspend.inside)?;
    Ok(Terms {
        inside,
        ended,
        ends: suspend.ends,
    })
}

/// Of an `if`, from its sides.
pub fn of_choice(
    circuit: &mut Circuit,
    condition: NetId,
    first: Terms,
    second: Terms,
) -> Result<Terms, AllocError>
    requires condition { IsBool circuit.old condition }
    requires first { AreBools circuit.old first }
    requires second { AreBools circuit.old second }
    ensures grows { OnOk result (Grows circuit.old circuit.new) }
    ensures ty { IfOk result (λ terms. AreBools circuit.new terms) }
    ensures inside { IfOk result (λ terms. Means circuit.new terms.inside (λ v. either (known v first.inside) (known v second.inside))) }
    ensures ended { IfOk result (λ terms. Means circuit.new terms.ended (λ v.
        choose_of (known v first.inside) (known v first.ended) (known v second.ended))) }
    ensures ends { IfOk result (λ terms. Means circuit.new terms.ends (λ v.
        either (both (known v condition) (known v first.ends)) (both (opposite (known v condition)) (known v second.ends)))) }
{
    let inside = circuit.or(first.inside, second.inside)?;
    let ended = circuit.choose(first.inside, first.ended, second.ended)?;
    let ends = ends_of_choice(circuit, condition, first.ends, second.ends)?;
    Ok(Terms {
        inside,
        ended,
        ends,
    })
}
