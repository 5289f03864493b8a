//! Where control goes on a resume.

ghost use Rattle.std.specs.Prelude.{◌≡◌, ◌++◌, ◌∷◌, [], true, map, IsTrue, IfOk, OnOk, if◌then◌else◌};
ghost use Rattle.std.specs.List.{list_all};
ghost use Rattle.qz_values.specs.declared.Know.TheVariants.{Known};
ghost use Rattle.qz_values.specs.Values.{yes, no};
ghost use Rattle.qz_values.specs.Knowledge.{both, either, opposite, choose_of};
ghost use Rattle.qz_syntax.specs.declared.places.Mark.TheVariants as mark;
ghost use Rattle.qz_meaning.specs.Scenes.{with_locals};
ghost use Rattle.qz_meaning.specs.Expressions.{value_here};
ghost use Rattle.qz_meaning.specs.Sequences.{ends_of_all};
ghost use Rattle.qz_meaning.specs.Suspends.{ends_on_start};
ghost use Rattle.qz_meaning.specs.Landings.{At};
ghost use Rattle.qz_control.specs.Leaves.{known_bit};
ghost use Rattle.qz_control.specs.Circuits.{known, Means, Grows, IsBool};
ghost use Rattle.qz_control.specs.Contexts.{context_of};
ghost use Rattle.qz_control.specs.Guarded.{where_inside, goes, stays, keeps_where};
ghost use Rattle.qz_control.specs.Mirrors.{walks, any_inside};
ghost use Rattle.qz_control.specs.MemberMirrors.{ended_all, ended_each, move_all, moved_all, move_each, moved_each};
ghost use Rattle.qz_control.specs.BodyMirrors.{turns_by, kept_guard, from_hold, held_when};
ghost use Rattle.qz_control.specs.Mirror.{mirror_of};
ghost use Rattle.qz_control.specs.Ready.{is_test, is_ready};
ghost use Rattle.qz_moves.specs.Told.{AreMoved};
ghost use Rattle.qz_moves.specs.Appended.{Appends, AreTests};

use crate::entering::enter;
use crate::guards::{guards_of_held, kept_guard, turns, ways_of_suspend};
use crate::moved::{
    Moved, moved_at_once, moved_choice, moved_in_none, moved_in_turn, moved_nowhere,
};
use crate::pauses::move_pause;
use crate::spots::{NetSpot, keep, rest_at};
use qz_control::{Circuit, LeafKind, Marks, test, unless};
use qz_nets::NetId;
use qz_syntax::{Expr, Kind, Mark, Module, Stmt};
use qz_terms::{
    Terms, guards_of_sides, member, next_guard, of_abort, of_held, of_loop, of_suspend, where_so,
};
use std::alloc::{AllocError, Global};

/// Where control rests is appended: where it stays as it is, goes on, or comes in by a start with mark
/// zero. The answer is what is told of the step itself, and whether control rests anywhere after it. Locals of
/// scopes round the statement have the instances of a resume, with mark zero.
///
/// # Errors
///
/// Want of memory alone.
#[cycle(moves)]
pub fn moves(
    alloc: Global,
    circuit: &mut Circuit,
    owner: &Module,
    marks: &mut Marks,
    spots: &mut Vec<NetSpot>,
    s: &Stmt,
    stay: NetId,
    go: NetId,
    start: NetId,
) -> Result<Moved, AllocError>
    requires ready { IsTrue (is_ready owner.now s.now) }
    requires stay { IsBool circuit.old stay }
    requires go { IsBool circuit.old go }
    requires start { IsBool circuit.old start }
    ensures grows { OnOk result (Grows circuit.old circuit.new) }
    ensures marks { OnOk result (context_of marks.new ≡ context_of marks.old) }
    ensures ty { IfOk result (λ moved. AreMoved circuit.new moved) }
    ensures inside { IfOk result (λ moved. Means circuit.new moved.terms.inside
        (λ v. (mirror_of v.leaves.scene s.now).inside v.leaves.at)) }
    ensures ended { IfOk result (λ moved. Means circuit.new moved.terms.ended
        (λ v. (mirror_of v.leaves.scene s.now).ended (context_of marks.old) v.leaves.at)) }
    ensures ends { IfOk result (λ moved. Means circuit.new moved.terms.ends
        (λ v. (mirror_of v.leaves.scene s.now).walk.ends (context_of marks.old) mark.Zero)) }
    ensures rests { IfOk result (λ moved. Means circuit.new moved.rests
        (λ v. (mirror_of v.leaves.scene s.now).moved (context_of marks.old) v.leaves.at (known v stay) (known v go) (known v start))) }
    ensures spots { OnOk result (Appends circuit.new spots.old.items spots.new.items
        (λ v. (mirror_of v.leaves.scene s.now).move (context_of marks.old) v.leaves.at (known v stay) (known v go) (known v start))) }
    ensures tests { OnOk result (AreTests circuit.old spots.old.items → AreTests circuit.new spots.new.items) }
{
    match s {
        Stmt::Pause(place) => move_pause(circuit, spots, *place, stay, start),
        Stmt::Seq(parts) => move_in_turn(
            alloc,
            circuit,
            owner,
            marks,
            spots,
            parts.as_slice(),
            stay,
            go,
            start,
        ),
        Stmt::Par(parts) => move_at_once(
            alloc,
            circuit,
            owner,
            marks,
            spots,
            parts.as_slice(),
            stay,
            go,
            start,
        ),
        Stmt::If(condition, first, second) => {
            let c = test(circuit, owner, marks, condition)?;
            let sides = guards_of_sides(circuit, c, start)?;
            let one = moves(
                alloc,
                circuit,
                owner,
                marks,
                spots,
                first.get(),
                stay,
                go,
                sides.first,
            )?;
            let other = moves(
                alloc,
                circuit,
                owner,
                marks,
                spots,
                second.get(),
                stay,
                go,
                sides.second,
            )?;
            let moved = moved_choice(circuit, c, one, other)?;
            Ok(moved)
        }
        Stmt::Loop(number, body, condition) => move_loop(
            alloc,
            circuit,
            owner,
            marks,
            spots,
            *number,
            body.get(),
            condition,
            stay,
            go,
            start,
        ),
        Stmt::Abort(kind, body, condition) => move_aborted(
            alloc,
            circuit,
            owner,
            marks,
            spots,
            *kind,
            body.get(),
            condition,
            stay,
            go,
            start,
        ),
        Stmt::Suspend(kind, None, body, condition) => move_suspended(
            alloc,
            circuit,
            owner,
            marks,
            spots,
            *kind,
            body.get(),
            condition,
            stay,
            go,
            start,
        ),
        Stmt::Suspend(kind, Some(hold), body, condition) => move_held(
            alloc,
            circuit,
            owner,
            marks,
            spots,
            *kind,
            *hold,
            body.get(),
            condition,
            stay,
            go,
            start,
        ),
        Stmt::Scope(locals, body) => move_scope(
            alloc,
            circuit,
            owner,
            marks,
            spots,
            body.get(),
            locals.as_slice(),
            stay,
            go,
            start,
        ),
        Stmt::Nothing | Stmt::Assign(..) | Stmt::Delayed(..) | Stmt::Call(..) | Stmt::Bind(..) =>
            moved_nowhere(circuit),
    }
}

/// Members one after the other.
#[cycle(moves)]
fn move_in_turn(
    alloc: Global,
    circuit: &mut Circuit,
    owner: &Module,
    marks: &mut Marks,
    spots: &mut Vec<NetSpot>,
    parts: &[Stmt],
    stay: NetId,
    go: NetId,
    start: NetId,
) -> Result<Moved, AllocError>
    requires ready { IsTrue (list_all (λ part. part) (map (is_ready owner.now) parts.now)) }
    requires stay { IsBool circuit.old stay }
    requires go { IsBool circuit.old go }
    requires start { IsBool circuit.old start }
    ensures grows { OnOk result (Grows circuit.old circuit.new) }
    ensures marks { OnOk result (context_of marks.new ≡ context_of marks.old) }
    ensures ty { IfOk result (λ moved. AreMoved circuit.new moved) }
    ensures inside { IfOk result (λ moved. Means circuit.new moved.terms.inside
        (λ v. any_inside (map (mirror_of v.leaves.scene) parts.now) v.leaves.at (Known no))) }
    ensures ended { IfOk result (λ moved. Means circuit.new moved.terms.ended
        (λ v. ended_all (context_of marks.old) (map (mirror_of v.leaves.scene) parts.now) v.leaves.at (Known no) (Known no))) }
    ensures ends { IfOk result (λ moved. Means circuit.new moved.terms.ends
        (λ v. ends_of_all (context_of marks.old) (walks (map (mirror_of v.leaves.scene) parts.now)) (Known yes) mark.Zero)) }
    ensures rests { IfOk result (λ moved. Means circuit.new moved.rests
        (λ v. moved_all (context_of marks.old) (map (mirror_of v.leaves.scene) parts.now) v.leaves.at (known v stay) (known v go) (known v start) (Known no))) }
    ensures spots { OnOk result (Appends circuit.new spots.old.items spots.new.items
        (λ v. move_all (context_of marks.old) (map (mirror_of v.leaves.scene) parts.now) v.leaves.at (known v stay) (known v go) (known v start))) }
    ensures tests { OnOk result (AreTests circuit.old spots.old.items → AreTests circuit.new spots.new.items) }
{
    let mut guard = start;
    let mut so_far = moved_nowhere(circuit)?;
    for index in 0..parts.len() {
        let part = member(owner, parts, index);
        let here = moves(alloc, circuit, owner, marks, spots, part, stay, go, guard)?;
        guard = next_guard(circuit, here.terms, go, guard)?;
        so_far = moved_in_turn(circuit, so_far, here)?;
    }
    Ok(so_far)
}

/// Members all at once.
#[cycle(moves)]
fn move_at_once(
    alloc: Global,
    circuit: &mut Circuit,
    owner: &Module,
    marks: &mut Marks,
    spots: &mut Vec<NetSpot>,
    parts: &[Stmt],
    stay: NetId,
    go: NetId,
    start: NetId,
) -> Result<Moved, AllocError>
    requires ready { IsTrue (list_all (λ part. part) (map (is_ready owner.now) parts.now)) }
    requires stay { IsBool circuit.old stay }
    requires go { IsBool circuit.old go }
    requires start { IsBool circuit.old start }
    ensures grows { OnOk result (Grows circuit.old circuit.new) }
    ensures marks { OnOk result (context_of marks.new ≡ context_of marks.old) }
    ensures ty { IfOk result (λ moved. AreMoved circuit.new moved) }
    ensures inside { IfOk result (λ moved. Means circuit.new moved.terms.inside
        (λ v. any_inside (map (mirror_of v.leaves.scene) parts.now) v.leaves.at (Known no))) }
    ensures ended { IfOk result (λ moved. Means circuit.new moved.terms.ended
        (λ v. where_inside (any_inside (map (mirror_of v.leaves.scene) parts.now) v.leaves.at (Known no))
        (ended_each (context_of marks.old) (map (mirror_of v.leaves.scene) parts.now) v.leaves.at (Known yes)))) }
    ensures ends { IfOk result (λ moved. Means circuit.new moved.terms.ends
        (λ v. ends_of_all (context_of marks.old) (walks (map (mirror_of v.leaves.scene) parts.now)) (Known yes) mark.Zero)) }
    ensures rests { IfOk result (λ moved. Means circuit.new moved.rests
        (λ v. moved_each (context_of marks.old) (map (mirror_of v.leaves.scene) parts.now) v.leaves.at (known v stay) (known v go) (known v start) (Known no))) }
    ensures spots { OnOk result (Appends circuit.new spots.old.items spots.new.items
        (λ v. move_each (context_of marks.old) (map (mirror_of v.leaves.scene) parts.now) v.leaves.at (known v stay) (known v go) (known v start))) }
    ensures tests { OnOk result (AreTests circuit.old spots.old.items → AreTests circuit.new spots.new.items) }
{
    let all = move_each(alloc, circuit, owner, marks, spots, parts, stay, go, start)?;
    let ended = where_so(circuit, all.terms.inside, all.terms.ended)?;
    Ok(Moved {
        terms: Terms {
            inside: all.terms.inside,
            ended,
            ends: all.terms.ends,
        },
        rests: all.rests,
    })
}

/// Members all at once, which count as ended where control rests in none.
#[cycle(moves)]
fn move_each(
    alloc: Global,
    circuit: &mut Circuit,
    owner: &Module,
    marks: &mut Marks,
    spots: &mut Vec<NetSpot>,
    parts: &[Stmt],
    stay: NetId,
    go: NetId,
    start: NetId,
) -> Result<Moved, AllocError>
    requires ready { IsTrue (list_all (λ part. part) (map (is_ready owner.now) parts.now)) }
    requires stay { IsBool circuit.old stay }
    requires go { IsBool circuit.old go }
    requires start { IsBool circuit.old start }
    ensures grows { OnOk result (Grows circuit.old circuit.new) }
    ensures marks { OnOk result (context_of marks.new ≡ context_of marks.old) }
    ensures ty { IfOk result (λ moved. AreMoved circuit.new moved) }
    ensures inside { IfOk result (λ moved. Means circuit.new moved.terms.inside
        (λ v. any_inside (map (mirror_of v.leaves.scene) parts.now) v.leaves.at (Known no))) }
    ensures ended { IfOk result (λ moved. Means circuit.new moved.terms.ended
        (λ v. ended_each (context_of marks.old) (map (mirror_of v.leaves.scene) parts.now) v.leaves.at (Known yes))) }
    ensures ends { IfOk result (λ moved. Means circuit.new moved.terms.ends
        (λ v. ends_of_all (context_of marks.old) (walks (map (mirror_of v.leaves.scene) parts.now)) (Known yes) mark.Zero)) }
    ensures rests { IfOk result (λ moved. Means circuit.new moved.rests
        (λ v. moved_each (context_of marks.old) (map (mirror_of v.leaves.scene) parts.now) v.leaves.at (known v stay) (known v go) (known v start) (Known no))) }
    ensures spots { OnOk result (Appends circuit.new spots.old.items spots.new.items
        (λ v. move_each (context_of marks.old) (map (mirror_of v.leaves.scene) parts.now) v.leaves.at (known v stay) (known v go) (known v start))) }
    ensures tests { OnOk result (AreTests circuit.old spots.old.items → AreTests circuit.new spots.new.items) }
{
    let mut so_far = moved_in_none(circuit)?;
    for index in 0..parts.len() {
        let part = member(owner, parts, index);
        let here = moves(alloc, circuit, owner, marks, spots, part, stay, go, start)?;
        so_far = moved_at_once(circuit, so_far, here)?;
    }
    Ok(so_far)
}

/// A loop with this body, which is started with the loop's mark where it turns.
#[cycle(moves)]
fn move_loop(
    alloc: Global,
    circuit: &mut Circuit,
    owner: &Module,
    marks: &mut Marks,
    spots: &mut Vec<NetSpot>,
    number: u32,
    body: &Stmt,
    condition: &Expr,
    stay: NetId,
    go: NetId,
    start: NetId,
) -> Result<Moved, AllocError>
    requires condition { IsTrue (is_test owner.now condition.now) }
    requires ready { IsTrue (is_ready owner.now body.now) }
    requires stay { IsBool circuit.old stay }
    requires go { IsBool circuit.old go }
    requires start { IsBool circuit.old start }
    ensures grows { OnOk result (Grows circuit.old circuit.new) }
    ensures marks { OnOk result (context_of marks.new ≡ context_of marks.old) }
    ensures ty { IfOk result (λ moved. AreMoved circuit.new moved) }
    ensures inside { IfOk result (λ moved. Means circuit.new moved.terms.inside (λ v. (mirror_of v.leaves.scene body.now).inside v.leaves.at)) }
    ensures ended { IfOk result (λ moved. Means circuit.new moved.terms.ended
        (λ v. where_inside ((mirror_of v.leaves.scene body.now).inside v.leaves.at)
        (both ((mirror_of v.leaves.scene body.now).ended (context_of marks.old) v.leaves.at) (opposite (value_here v.leaves.scene (context_of marks.old) condition.now))))) }
    ensures ends { IfOk result (λ moved. Means circuit.new moved.terms.ends (λ v. Known no)) }
    ensures rests { IfOk result (λ moved. Means circuit.new moved.rests
        (λ v. either ((mirror_of v.leaves.scene body.now).moved (context_of marks.old) v.leaves.at (known v stay) (known v go) (known v start))
        ((mirror_of v.leaves.scene body.now).rests (context_of marks.old) (mark.Loop number)
        (both (known v go) (turns_by (mirror_of v.leaves.scene body.now) (value_here v.leaves.scene (context_of marks.old) condition.now) (context_of marks.old) v.leaves.at))))) }
    ensures spots { OnOk result (Appends circuit.new spots.old.items spots.new.items
        (λ v. (mirror_of v.leaves.scene body.now).move (context_of marks.old) v.leaves.at (known v stay) (known v go) (known v start)
        ++ (mirror_of v.leaves.scene body.now).enter (context_of marks.old) (mark.Loop number)
        (both (known v go) (turns_by (mirror_of v.leaves.scene body.now) (value_here v.leaves.scene (context_of marks.old) condition.now) (context_of marks.old) v.leaves.at)))) }
    ensures tests { OnOk result (AreTests circuit.old spots.old.items → AreTests circuit.new spots.new.items) }
{
    let c = test(circuit, owner, marks, condition)?;
    let inner = moves(alloc, circuit, owner, marks, spots, body, stay, go, start)?;
    let again = turns(circuit, c, inner.terms.ended, go)?;
    let entered = enter(
        alloc,
        circuit,
        owner,
        marks,
        spots,
        body,
        Mark::Loop(number),
        again,
    )?;
    let terms = of_loop(circuit, c, inner.terms)?;
    let rests = circuit.or(inner.rests, entered.rests)?;
    Ok(Moved { terms, rests })
}

/// An abort with this body.
#[cycle(moves)]
fn move_aborted(
    alloc: Global,
    circuit: &mut Circuit,
    owner: &Module,
    marks: &mut Marks,
    spots: &mut Vec<NetSpot>,
    kind: Kind,
    body: &Stmt,
    condition: &Expr,
    stay: NetId,
    go: NetId,
    start: NetId,
) -> Result<Moved, AllocError>
    requires condition { IsTrue (is_test owner.now condition.now) }
    requires ready { IsTrue (is_ready owner.now body.now) }
    requires stay { IsBool circuit.old stay }
    requires go { IsBool circuit.old go }
    requires start { IsBool circuit.old start }
    ensures grows { OnOk result (Grows circuit.old circuit.new) }
    ensures marks { OnOk result (context_of marks.new ≡ context_of marks.old) }
    ensures ty { IfOk result (λ moved. AreMoved circuit.new moved) }
    ensures inside { IfOk result (λ moved. Means circuit.new moved.terms.inside (λ v. (mirror_of v.leaves.scene body.now).inside v.leaves.at)) }
    ensures ended { IfOk result (λ moved. Means circuit.new moved.terms.ended
        (λ v. where_inside ((mirror_of v.leaves.scene body.now).inside v.leaves.at)
        (either (value_here v.leaves.scene (context_of marks.old) condition.now) ((mirror_of v.leaves.scene body.now).ended (context_of marks.old) v.leaves.at)))) }
    ensures ends { IfOk result (λ moved. Means circuit.new moved.terms.ends
        (λ v. if kind.immediate then either (value_here v.leaves.scene (context_of marks.old) condition.now)
        ((mirror_of v.leaves.scene body.now).walk.ends (context_of marks.old) mark.Zero)
        else (mirror_of v.leaves.scene body.now).walk.ends (context_of marks.old) mark.Zero)) }
    ensures rests { IfOk result (λ moved. Means circuit.new moved.rests
        (λ v. (mirror_of v.leaves.scene body.now).moved (context_of marks.old) v.leaves.at (known v stay)
        (goes (value_here v.leaves.scene (context_of marks.old) condition.now) (known v go))
        (kept_guard kind (value_here v.leaves.scene (context_of marks.old) condition.now) (known v start)))) }
    ensures spots { OnOk result (Appends circuit.new spots.old.items spots.new.items
        (λ v. (mirror_of v.leaves.scene body.now).move (context_of marks.old) v.leaves.at (known v stay)
        (goes (value_here v.leaves.scene (context_of marks.old) condition.now) (known v go))
        (kept_guard kind (value_here v.leaves.scene (context_of marks.old) condition.now) (known v start)))) }
    ensures tests { OnOk result (AreTests circuit.old spots.old.items → AreTests circuit.new spots.new.items) }
{
    let c = test(circuit, owner, marks, condition)?;
    let on = unless(circuit, c, go)?;
    let guard = kept_guard(circuit, kind, c, start)?;
    let inner = moves(alloc, circuit, owner, marks, spots, body, stay, on, guard)?;
    let terms = of_abort(circuit, kind, c, inner.terms)?;
    Ok(Moved {
        terms,
        rests: inner.rests,
    })
}

/// A suspend with this body and no hold place.
#[cycle(moves)]
fn move_suspended(
    alloc: Global,
    circuit: &mut Circuit,
    owner: &Module,
    marks: &mut Marks,
    spots: &mut Vec<NetSpot>,
    kind: Kind,
    body: &Stmt,
    condition: &Expr,
    stay: NetId,
    go: NetId,
    start: NetId,
) -> Result<Moved, AllocError>
    requires condition { IsTrue (is_test owner.now condition.now) }
    requires ready { IsTrue (is_ready owner.now body.now) }
    requires stay { IsBool circuit.old stay }
    requires go { IsBool circuit.old go }
    requires start { IsBool circuit.old start }
    ensures grows { OnOk result (Grows circuit.old circuit.new) }
    ensures marks { OnOk result (context_of marks.new ≡ context_of marks.old) }
    ensures ty { IfOk result (λ moved. AreMoved circuit.new moved) }
    ensures inside { IfOk result (λ moved. Means circuit.new moved.terms.inside (λ v. (mirror_of v.leaves.scene body.now).inside v.leaves.at)) }
    ensures ended { IfOk result (λ moved. Means circuit.new moved.terms.ended
        (λ v. where_inside ((mirror_of v.leaves.scene body.now).inside v.leaves.at)
        (both (opposite (value_here v.leaves.scene (context_of marks.old) condition.now)) ((mirror_of v.leaves.scene body.now).ended (context_of marks.old) v.leaves.at)))) }
    ensures ends { IfOk result (λ moved. Means circuit.new moved.terms.ends
        (λ v. ends_on_start v.leaves.scene kind (mirror_of v.leaves.scene body.now).walk condition.now (context_of marks.old) mark.Zero)) }
    ensures rests { IfOk result (λ moved. Means circuit.new moved.rests
        (λ v. (mirror_of v.leaves.scene body.now).moved (context_of marks.old) v.leaves.at
        (stays (value_here v.leaves.scene (context_of marks.old) condition.now) (known v stay) (known v go))
        (goes (value_here v.leaves.scene (context_of marks.old) condition.now) (known v go)) (known v start))) }
    ensures spots { OnOk result (Appends circuit.new spots.old.items spots.new.items
        (λ v. (mirror_of v.leaves.scene body.now).move (context_of marks.old) v.leaves.at
        (stays (value_here v.leaves.scene (context_of marks.old) condition.now) (known v stay) (known v go))
        (goes (value_here v.leaves.scene (context_of marks.old) condition.now) (known v go)) (known v start))) }
    ensures tests { OnOk result (AreTests circuit.old spots.old.items → AreTests circuit.new spots.new.items) }
{
    let c = test(circuit, owner, marks, condition)?;
    let ways = ways_of_suspend(circuit, c, stay, go)?;
    let inner = moves(
        alloc, circuit, owner, marks, spots, body, ways.stay, ways.go, start,
    )?;
    let terms = of_suspend(circuit, kind, c, inner.terms)?;
    Ok(Moved {
        terms,
        rests: inner.rests,
    })
}

/// An immediate suspend with this body: at its hold place, or in the body.
#[cycle(moves)]
fn move_held(
    alloc: Global,
    circuit: &mut Circuit,
    owner: &Module,
    marks: &mut Marks,
    spots: &mut Vec<NetSpot>,
    kind: Kind,
    hold: u32,
    body: &Stmt,
    condition: &Expr,
    stay: NetId,
    go: NetId,
    start: NetId,
) -> Result<Moved, AllocError>
    requires condition { IsTrue (is_test owner.now condition.now) }
    requires ready { IsTrue (is_ready owner.now body.now) }
    requires stay { IsBool circuit.old stay }
    requires go { IsBool circuit.old go }
    requires start { IsBool circuit.old start }
    ensures grows { OnOk result (Grows circuit.old circuit.new) }
    ensures marks { OnOk result (context_of marks.new ≡ context_of marks.old) }
    ensures ty { IfOk result (λ moved. AreMoved circuit.new moved) }
    ensures inside { IfOk result (λ moved. Means circuit.new moved.terms.inside
        (λ v. either (known_bit (v.leaves.at.place hold)) ((mirror_of v.leaves.scene body.now).inside v.leaves.at))) }
    ensures ended { IfOk result (λ moved. Means circuit.new moved.terms.ended
        (λ v. choose_of (known_bit (v.leaves.at.place hold))
        (both (opposite (value_here v.leaves.scene (context_of marks.old) condition.now)) ((mirror_of v.leaves.scene body.now).walk.ends (context_of marks.old) mark.Zero))
        (where_inside ((mirror_of v.leaves.scene body.now).inside v.leaves.at)
        (both (opposite (value_here v.leaves.scene (context_of marks.old) condition.now)) ((mirror_of v.leaves.scene body.now).ended (context_of marks.old) v.leaves.at))))) }
    ensures ends { IfOk result (λ moved. Means circuit.new moved.terms.ends
        (λ v. ends_on_start v.leaves.scene kind (mirror_of v.leaves.scene body.now).walk condition.now (context_of marks.old) mark.Zero)) }
    ensures rests { IfOk result (λ moved. Means circuit.new moved.rests
        (λ v. either (held_when v.leaves.at hold (value_here v.leaves.scene (context_of marks.old) condition.now) (known v stay) (known v go) (known v start))
        ((mirror_of v.leaves.scene body.now).moved (context_of marks.old) v.leaves.at
        (stays (value_here v.leaves.scene (context_of marks.old) condition.now) (known v stay) (known v go))
        (goes (value_here v.leaves.scene (context_of marks.old) condition.now) (known v go))
        (goes (value_here v.leaves.scene (context_of marks.old) condition.now) (from_hold v.leaves.at hold (known v go) (known v start)))))) }
    ensures spots { OnOk result (Appends circuit.new spots.old.items spots.new.items
        (λ v. (At hold, held_when v.leaves.at hold (value_here v.leaves.scene (context_of marks.old) condition.now) (known v stay) (known v go) (known v start))
        ∷ (mirror_of v.leaves.scene body.now).move (context_of marks.old) v.leaves.at
        (stays (value_here v.leaves.scene (context_of marks.old) condition.now) (known v stay) (known v go))
        (goes (value_here v.leaves.scene (context_of marks.old) condition.now) (known v go))
        (goes (value_here v.leaves.scene (context_of marks.old) condition.now) (from_hold v.leaves.at hold (known v go) (known v start))))) }
    ensures tests { OnOk result (AreTests circuit.old spots.old.items → AreTests circuit.new spots.new.items) }
{
    let c = test(circuit, owner, marks, condition)?;
    let held = circuit.flag(LeafKind::At(hold))?;
    let guards = guards_of_held(circuit, c, held, stay, go, start)?;
    let ways = ways_of_suspend(circuit, c, stay, go)?;
    rest_at(spots, hold, guards.here)?;
    let inner = moves(
        alloc,
        circuit,
        owner,
        marks,
        spots,
        body,
        ways.stay,
        ways.go,
        guards.body,
    )?;
    let terms = of_held(circuit, kind, c, held, inner.terms)?;
    let rests = circuit.or(guards.here, inner.rests)?;
    Ok(Moved { terms, rests })
}

/// A scope with this body, whose locals have the instances that are kept. It is kept where control rests
/// in the body.
#[cycle(moves)]
fn move_scope(
    alloc: Global,
    circuit: &mut Circuit,
    owner: &Module,
    marks: &mut Marks,
    spots: &mut Vec<NetSpot>,
    body: &Stmt,
    locals: &[u32],
    stay: NetId,
    go: NetId,
    start: NetId,
) -> Result<Moved, AllocError>
    requires ready { IsTrue (is_ready owner.now body.now) }
    requires stay { IsBool circuit.old stay }
    requires go { IsBool circuit.old go }
    requires start { IsBool circuit.old start }
    ensures grows { OnOk result (Grows circuit.old circuit.new) }
    ensures marks { OnOk result (context_of marks.new ≡ context_of marks.old) }
    ensures ty { IfOk result (λ moved. AreMoved circuit.new moved) }
    ensures inside { IfOk result (λ moved. Means circuit.new moved.terms.inside (λ v. (mirror_of v.leaves.scene body.now).inside v.leaves.at)) }
    ensures ended { IfOk result (λ moved. Means circuit.new moved.terms.ended
        (λ v. (mirror_of v.leaves.scene body.now).ended (with_locals (context_of marks.old) locals.now mark.Zero) v.leaves.at)) }
    ensures ends { IfOk result (λ moved. Means circuit.new moved.terms.ends
        (λ v. (mirror_of v.leaves.scene body.now).walk.ends (with_locals (context_of marks.old) locals.now mark.Zero) mark.Zero)) }
    ensures rests { IfOk result (λ moved. Means circuit.new moved.rests
        (λ v. (mirror_of v.leaves.scene body.now).moved (with_locals (context_of marks.old) locals.now mark.Zero) v.leaves.at (known v stay) (known v go) (known v start))) }
    ensures spots { OnOk result (Appends circuit.new spots.old.items spots.new.items
        (λ v. (mirror_of v.leaves.scene body.now).move (with_locals (context_of marks.old) locals.now mark.Zero) v.leaves.at (known v stay) (known v go) (known v start)
        ++ keeps_where locals.now mark.Zero
        ((mirror_of v.leaves.scene body.now).moved (with_locals (context_of marks.old) locals.now mark.Zero) v.leaves.at (known v stay) (known v go) (known v start)))) }
    ensures tests { OnOk result (AreTests circuit.old spots.old.items → AreTests circuit.new spots.new.items) }
{
    let covered = marks.enter(alloc, locals, Mark::Zero)?;
    let moved = moves(alloc, circuit, owner, marks, spots, body, stay, go, start)?;
    marks.leave(covered)?;
    keep(spots, locals, Mark::Zero, moved.rests)?;
    Ok(moved)
}
