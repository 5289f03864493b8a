//! What a statement does in a step in which it is resumed.

ghost use Rattle.std.specs.Prelude.{◌≡◌, ◌++◌, true, map, IsTrue, IfOk, OnOk, if◌then◌else◌};
ghost use Rattle.std.specs.List.{list_all};
ghost use Rattle.qz_values.specs.declared.Know.TheVariants.{Known};
ghost use Rattle.qz_values.specs.Values.{yes, no};
ghost use Rattle.qz_values.specs.Knowledge.{both, either, opposite, choose_of};
ghost use Rattle.qz_syntax.specs.declared.places.Mark.TheVariants as mark;
ghost use Rattle.qz_meaning.specs.Scenes.{with_locals};
ghost use Rattle.qz_meaning.specs.Expressions.{value_here};
ghost use Rattle.qz_meaning.specs.Sequences.{ends_of_all};
ghost use Rattle.qz_meaning.specs.Aborts.{body_guard, start_guard};
ghost use Rattle.qz_meaning.specs.Suspends.{ends_on_start};
ghost use Rattle.qz_control.specs.Leaves.{known_bit};
ghost use Rattle.qz_control.specs.Circuits.{known, Means, Grows, IsBool};
ghost use Rattle.qz_control.specs.Contexts.{context_of};
ghost use Rattle.qz_control.specs.Guarded.{where_inside, lively};
ghost use Rattle.qz_control.specs.Mirrors.{walks, any_inside};
ghost use Rattle.qz_control.specs.MemberMirrors.{ended_all, ended_each, run_all, run_each};
ghost use Rattle.qz_control.specs.BodyMirrors.{from_hold};
ghost use Rattle.qz_control.specs.Mirror.{mirror_of};
ghost use Rattle.qz_control.specs.Shown.{shown};
ghost use Rattle.qz_control.specs.Ready.{is_test, is_ready};
ghost use Rattle.qz_terms.specs.Told.{AreBools};
ghost use Rattle.qz_surface.specs.Written.{Appends, AreWrites};

use crate::assigned::resume_assignment;
use crate::guards::{guard_of_turn, guards_of_held};
use qz_control::{Circuit, LeafKind, Marks, body_guard, start_guard, test};
use qz_nets::NetId;
use qz_surface::{NetWrite, surface};
use qz_syntax::{Expr, Kind, Mark, Module, Stmt};
use qz_terms::{
    Terms, at_once, guards_of_sides, in_turn, member, next_guard, none_inside, of_abort, of_choice,
    of_held, of_loop, of_pause, of_suspend, passing, where_so,
};
use std::alloc::{AllocError, Global};

/// The writes of a resume with a guard are appended, together with those of the start with mark zero that
/// the statement round it makes, which happen only where that is live. The answer is what is told of the step.
/// Locals of scopes round the statement have the instances of a resume, with mark zero.
///
/// # Errors
///
/// Want of memory alone.
#[cycle(depth)]
pub fn depth(
    alloc: Global,
    circuit: &mut Circuit,
    owner: &Module,
    marks: &mut Marks,
    writes: &mut Vec<NetWrite>,
    s: &Stmt,
    act: NetId,
    live: NetId,
    start: NetId,
) -> Result<Terms, AllocError>
    requires ready { IsTrue (is_ready owner.now s.now) }
    requires act { IsBool circuit.old act }
    requires live { IsBool circuit.old live }
    requires start { IsBool circuit.old start }
    ensures grows { OnOk result (Grows circuit.old circuit.new) }
    ensures marks { OnOk result (context_of marks.new ≡ context_of marks.old) }
    ensures ty { IfOk result (λ terms. AreBools circuit.new terms) }
    ensures inside { IfOk result (λ terms. Means circuit.new terms.inside
        (λ v. (mirror_of v.leaves.scene s.now).inside v.leaves.at)) }
    ensures ended { IfOk result (λ terms. Means circuit.new terms.ended
        (λ v. (mirror_of v.leaves.scene s.now).ended (context_of marks.old) v.leaves.at)) }
    ensures ends { IfOk result (λ terms. Means circuit.new terms.ends
        (λ v. (mirror_of v.leaves.scene s.now).walk.ends (context_of marks.old) mark.Zero)) }
    ensures writes { OnOk result (Appends circuit.new writes.old.items writes.new.items
        (λ v. shown ((mirror_of v.leaves.scene s.now).run (context_of marks.old) v.leaves.at (known v act) (known v live) (known v start)))) }
    ensures typed { OnOk result (AreWrites owner.now circuit.old writes.old.items → AreWrites owner.now circuit.new writes.new.items) }
{
    match s {
        Stmt::Assign(target, e) => resume_assignment(
            circuit, owner, marks, writes, false, *target, e, start, live,
        ),
        Stmt::Delayed(target, e) => resume_assignment(
            circuit, owner, marks, writes, true, *target, e, start, live,
        ),
        Stmt::Pause(place) => of_pause(circuit, *place),
        Stmt::Seq(parts) => resume_in_turn(
            alloc,
            circuit,
            owner,
            marks,
            writes,
            parts.as_slice(),
            act,
            live,
            start,
        ),
        Stmt::Par(parts) => resume_at_once(
            alloc,
            circuit,
            owner,
            marks,
            writes,
            parts.as_slice(),
            act,
            live,
            start,
        ),
        Stmt::If(condition, first, second) => {
            let c = test(circuit, owner, marks, condition)?;
            let sides = guards_of_sides(circuit, c, start)?;
            let one = depth(
                alloc,
                circuit,
                owner,
                marks,
                writes,
                first.get(),
                act,
                live,
                sides.first,
            )?;
            let other = depth(
                alloc,
                circuit,
                owner,
                marks,
                writes,
                second.get(),
                act,
                live,
                sides.second,
            )?;
            let told = of_choice(circuit, c, one, other)?;
            Ok(told)
        }
        Stmt::Loop(number, body, condition) => resume_loop(
            alloc,
            circuit,
            owner,
            marks,
            writes,
            *number,
            body.get(),
            condition,
            act,
            live,
            start,
        ),
        Stmt::Abort(kind, body, condition) => resume_aborted(
            alloc,
            circuit,
            owner,
            marks,
            writes,
            *kind,
            body.get(),
            condition,
            act,
            live,
            start,
        ),
        Stmt::Suspend(kind, None, body, condition) => resume_suspended(
            alloc,
            circuit,
            owner,
            marks,
            writes,
            *kind,
            body.get(),
            condition,
            act,
            live,
            start,
        ),
        Stmt::Suspend(kind, Some(hold), body, condition) => resume_held(
            alloc,
            circuit,
            owner,
            marks,
            writes,
            *kind,
            *hold,
            body.get(),
            condition,
            act,
            live,
            start,
        ),
        Stmt::Scope(locals, body) => resume_scope(
            alloc,
            circuit,
            owner,
            marks,
            writes,
            body.get(),
            locals.as_slice(),
            act,
            live,
            start,
        ),
        Stmt::Nothing | Stmt::Call(..) | Stmt::Bind(..) => passing(circuit),
    }
}

/// Members one after the other.
#[cycle(depth)]
fn resume_in_turn(
    alloc: Global,
    circuit: &mut Circuit,
    owner: &Module,
    marks: &mut Marks,
    writes: &mut Vec<NetWrite>,
    parts: &[Stmt],
    act: NetId,
    live: NetId,
    start: NetId,
) -> Result<Terms, AllocError>
    requires ready { IsTrue (list_all (λ part. part) (map (is_ready owner.now) parts.now)) }
    requires act { IsBool circuit.old act }
    requires live { IsBool circuit.old live }
    requires start { IsBool circuit.old start }
    ensures grows { OnOk result (Grows circuit.old circuit.new) }
    ensures marks { OnOk result (context_of marks.new ≡ context_of marks.old) }
    ensures ty { IfOk result (λ terms. AreBools circuit.new terms) }
    ensures inside { IfOk result (λ terms. Means circuit.new terms.inside
        (λ v. any_inside (map (mirror_of v.leaves.scene) parts.now) v.leaves.at (Known no))) }
    ensures ended { IfOk result (λ terms. Means circuit.new terms.ended
        (λ v. ended_all (context_of marks.old) (map (mirror_of v.leaves.scene) parts.now) v.leaves.at (Known no) (Known no))) }
    ensures ends { IfOk result (λ terms. Means circuit.new terms.ends
        (λ v. ends_of_all (context_of marks.old) (walks (map (mirror_of v.leaves.scene) parts.now)) (Known yes) mark.Zero)) }
    ensures writes { OnOk result (Appends circuit.new writes.old.items writes.new.items
        (λ v. shown (run_all (context_of marks.old) (map (mirror_of v.leaves.scene) parts.now) v.leaves.at (known v act) (known v live) (known v start)))) }
    ensures typed { OnOk result (AreWrites owner.now circuit.old writes.old.items → AreWrites owner.now circuit.new writes.new.items) }
{
    let mut guard = start;
    let mut alive = live;
    let mut so_far = passing(circuit)?;
    for index in 0..parts.len() {
        let part = member(owner, parts, index);
        let here = depth(
            alloc, circuit, owner, marks, writes, part, act, alive, guard,
        )?;
        guard = next_guard(circuit, here, act, guard)?;
        alive = circuit.or(alive, here.inside)?;
        so_far = in_turn(circuit, so_far, here)?;
    }
    Ok(so_far)
}

/// Members all at once.
#[cycle(depth)]
fn resume_at_once(
    alloc: Global,
    circuit: &mut Circuit,
    owner: &Module,
    marks: &mut Marks,
    writes: &mut Vec<NetWrite>,
    parts: &[Stmt],
    act: NetId,
    live: NetId,
    start: NetId,
) -> Result<Terms, AllocError>
    requires ready { IsTrue (list_all (λ part. part) (map (is_ready owner.now) parts.now)) }
    requires act { IsBool circuit.old act }
    requires live { IsBool circuit.old live }
    requires start { IsBool circuit.old start }
    ensures grows { OnOk result (Grows circuit.old circuit.new) }
    ensures marks { OnOk result (context_of marks.new ≡ context_of marks.old) }
    ensures ty { IfOk result (λ terms. AreBools circuit.new terms) }
    ensures inside { IfOk result (λ terms. Means circuit.new terms.inside
        (λ v. any_inside (map (mirror_of v.leaves.scene) parts.now) v.leaves.at (Known no))) }
    ensures ended { IfOk result (λ terms. Means circuit.new terms.ended
        (λ v. where_inside (any_inside (map (mirror_of v.leaves.scene) parts.now) v.leaves.at (Known no))
        (ended_each (context_of marks.old) (map (mirror_of v.leaves.scene) parts.now) v.leaves.at (Known yes)))) }
    ensures ends { IfOk result (λ terms. Means circuit.new terms.ends
        (λ v. ends_of_all (context_of marks.old) (walks (map (mirror_of v.leaves.scene) parts.now)) (Known yes) mark.Zero)) }
    ensures writes { OnOk result (Appends circuit.new writes.old.items writes.new.items
        (λ v. shown (run_each (context_of marks.old) (map (mirror_of v.leaves.scene) parts.now) v.leaves.at (known v act) (known v live) (known v start)))) }
    ensures typed { OnOk result (AreWrites owner.now circuit.old writes.old.items → AreWrites owner.now circuit.new writes.new.items) }
{
    let all = resume_each(
        alloc, circuit, owner, marks, writes, parts, act, live, start,
    )?;
    let ended = where_so(circuit, all.inside, all.ended)?;
    Ok(Terms {
        inside: all.inside,
        ended,
        ends: all.ends,
    })
}

/// Members all at once, which count as ended where control rests in none.
#[cycle(depth)]
fn resume_each(
    alloc: Global,
    circuit: &mut Circuit,
    owner: &Module,
    marks: &mut Marks,
    writes: &mut Vec<NetWrite>,
    parts: &[Stmt],
    act: NetId,
    live: NetId,
    start: NetId,
) -> Result<Terms, AllocError>
    requires ready { IsTrue (list_all (λ part. part) (map (is_ready owner.now) parts.now)) }
    requires act { IsBool circuit.old act }
    requires live { IsBool circuit.old live }
    requires start { IsBool circuit.old start }
    ensures grows { OnOk result (Grows circuit.old circuit.new) }
    ensures marks { OnOk result (context_of marks.new ≡ context_of marks.old) }
    ensures ty { IfOk result (λ terms. AreBools circuit.new terms) }
    ensures inside { IfOk result (λ terms. Means circuit.new terms.inside
        (λ v. any_inside (map (mirror_of v.leaves.scene) parts.now) v.leaves.at (Known no))) }
    ensures ended { IfOk result (λ terms. Means circuit.new terms.ended
        (λ v. ended_each (context_of marks.old) (map (mirror_of v.leaves.scene) parts.now) v.leaves.at (Known yes))) }
    ensures ends { IfOk result (λ terms. Means circuit.new terms.ends
        (λ v. ends_of_all (context_of marks.old) (walks (map (mirror_of v.leaves.scene) parts.now)) (Known yes) mark.Zero)) }
    ensures writes { OnOk result (Appends circuit.new writes.old.items writes.new.items
        (λ v. shown (run_each (context_of marks.old) (map (mirror_of v.leaves.scene) parts.now) v.leaves.at (known v act) (known v live) (known v start)))) }
    ensures typed { OnOk result (AreWrites owner.now circuit.old writes.old.items → AreWrites owner.now circuit.new writes.new.items) }
{
    let mut so_far = none_inside(circuit)?;
    for index in 0..parts.len() {
        let part = member(owner, parts, index);
        let here = depth(alloc, circuit, owner, marks, writes, part, act, live, start)?;
        so_far = at_once(circuit, so_far, here)?;
    }
    Ok(so_far)
}

/// A loop with this body, which is started with the loop's mark where it turns.
#[cycle(depth)]
fn resume_loop(
    alloc: Global,
    circuit: &mut Circuit,
    owner: &Module,
    marks: &mut Marks,
    writes: &mut Vec<NetWrite>,
    number: u32,
    body: &Stmt,
    condition: &Expr,
    act: NetId,
    live: NetId,
    start: NetId,
) -> Result<Terms, AllocError>
    requires condition { IsTrue (is_test owner.now condition.now) }
    requires ready { IsTrue (is_ready owner.now body.now) }
    requires act { IsBool circuit.old act }
    requires live { IsBool circuit.old live }
    requires start { IsBool circuit.old start }
    ensures grows { OnOk result (Grows circuit.old circuit.new) }
    ensures marks { OnOk result (context_of marks.new ≡ context_of marks.old) }
    ensures ty { IfOk result (λ terms. AreBools circuit.new terms) }
    ensures inside { IfOk result (λ terms. Means circuit.new terms.inside
        (λ v. (mirror_of v.leaves.scene body.now).inside v.leaves.at)) }
    ensures ended { IfOk result (λ terms. Means circuit.new terms.ended
        (λ v. where_inside ((mirror_of v.leaves.scene body.now).inside v.leaves.at)
        (both ((mirror_of v.leaves.scene body.now).ended (context_of marks.old) v.leaves.at) (opposite (value_here v.leaves.scene (context_of marks.old) condition.now))))) }
    ensures ends { IfOk result (λ terms. Means circuit.new terms.ends (λ v. Known no)) }
    ensures writes { OnOk result (Appends circuit.new writes.old.items writes.new.items
        (λ v. shown ((mirror_of v.leaves.scene body.now).run (context_of marks.old) v.leaves.at (known v act) (known v live) (known v start)
        ++ lively ((mirror_of v.leaves.scene body.now).inside v.leaves.at)
        ((mirror_of v.leaves.scene body.now).walk.start (context_of marks.old)
        (both (both (known v act) ((mirror_of v.leaves.scene body.now).ended (context_of marks.old) v.leaves.at)) (value_here v.leaves.scene (context_of marks.old) condition.now)) (mark.Loop number))))) }
    ensures typed { OnOk result (AreWrites owner.now circuit.old writes.old.items → AreWrites owner.now circuit.new writes.new.items) }
{
    let c = test(circuit, owner, marks, condition)?;
    let inner = depth(alloc, circuit, owner, marks, writes, body, act, live, start)?;
    let again = guard_of_turn(circuit, c, inner.ended, act)?;
    surface(
        alloc,
        circuit,
        owner,
        marks,
        writes,
        body,
        Mark::Loop(number),
        again,
        inner.inside,
    )?;
    let terms = of_loop(circuit, c, inner)?;
    Ok(terms)
}

/// An abort with this body.
#[cycle(depth)]
fn resume_aborted(
    alloc: Global,
    circuit: &mut Circuit,
    owner: &Module,
    marks: &mut Marks,
    writes: &mut Vec<NetWrite>,
    kind: Kind,
    body: &Stmt,
    condition: &Expr,
    act: NetId,
    live: NetId,
    start: NetId,
) -> Result<Terms, AllocError>
    requires condition { IsTrue (is_test owner.now condition.now) }
    requires ready { IsTrue (is_ready owner.now body.now) }
    requires act { IsBool circuit.old act }
    requires live { IsBool circuit.old live }
    requires start { IsBool circuit.old start }
    ensures grows { OnOk result (Grows circuit.old circuit.new) }
    ensures marks { OnOk result (context_of marks.new ≡ context_of marks.old) }
    ensures ty { IfOk result (λ terms. AreBools circuit.new terms) }
    ensures inside { IfOk result (λ terms. Means circuit.new terms.inside
        (λ v. (mirror_of v.leaves.scene body.now).inside v.leaves.at)) }
    ensures ended { IfOk result (λ terms. Means circuit.new terms.ended
        (λ v. where_inside ((mirror_of v.leaves.scene body.now).inside v.leaves.at)
        (either (value_here v.leaves.scene (context_of marks.old) condition.now) ((mirror_of v.leaves.scene body.now).ended (context_of marks.old) v.leaves.at)))) }
    ensures ends { IfOk result (λ terms. Means circuit.new terms.ends
        (λ v. if kind.immediate then either (value_here v.leaves.scene (context_of marks.old) condition.now)
        ((mirror_of v.leaves.scene body.now).walk.ends (context_of marks.old) mark.Zero)
        else (mirror_of v.leaves.scene body.now).walk.ends (context_of marks.old) mark.Zero)) }
    ensures writes { OnOk result (Appends circuit.new writes.old.items writes.new.items
        (λ v. shown ((mirror_of v.leaves.scene body.now).run (context_of marks.old) v.leaves.at
        (body_guard kind (value_here v.leaves.scene (context_of marks.old) condition.now) (known v act)) (known v live)
        (start_guard kind (value_here v.leaves.scene (context_of marks.old) condition.now) (known v start))))) }
    ensures typed { OnOk result (AreWrites owner.now circuit.old writes.old.items → AreWrites owner.now circuit.new writes.new.items) }
{
    let c = test(circuit, owner, marks, condition)?;
    let resumed = body_guard(circuit, kind, c, act)?;
    let begun = start_guard(circuit, kind, c, start)?;
    let inner = depth(
        alloc, circuit, owner, marks, writes, body, resumed, live, begun,
    )?;
    let terms = of_abort(circuit, kind, c, inner)?;
    Ok(terms)
}

/// A suspend with this body and no hold place.
#[cycle(depth)]
fn resume_suspended(
    alloc: Global,
    circuit: &mut Circuit,
    owner: &Module,
    marks: &mut Marks,
    writes: &mut Vec<NetWrite>,
    kind: Kind,
    body: &Stmt,
    condition: &Expr,
    act: NetId,
    live: NetId,
    start: NetId,
) -> Result<Terms, AllocError>
    requires condition { IsTrue (is_test owner.now condition.now) }
    requires ready { IsTrue (is_ready owner.now body.now) }
    requires act { IsBool circuit.old act }
    requires live { IsBool circuit.old live }
    requires start { IsBool circuit.old start }
    ensures grows { OnOk result (Grows circuit.old circuit.new) }
    ensures marks { OnOk result (context_of marks.new ≡ context_of marks.old) }
    ensures ty { IfOk result (λ terms. AreBools circuit.new terms) }
    ensures inside { IfOk result (λ terms. Means circuit.new terms.inside
        (λ v. (mirror_of v.leaves.scene body.now).inside v.leaves.at)) }
    ensures ended { IfOk result (λ terms. Means circuit.new terms.ended
        (λ v. where_inside ((mirror_of v.leaves.scene body.now).inside v.leaves.at)
        (both (opposite (value_here v.leaves.scene (context_of marks.old) condition.now)) ((mirror_of v.leaves.scene body.now).ended (context_of marks.old) v.leaves.at)))) }
    ensures ends { IfOk result (λ terms. Means circuit.new terms.ends
        (λ v. ends_on_start v.leaves.scene kind (mirror_of v.leaves.scene body.now).walk condition.now (context_of marks.old) mark.Zero)) }
    ensures writes { OnOk result (Appends circuit.new writes.old.items writes.new.items
        (λ v. shown ((mirror_of v.leaves.scene body.now).run (context_of marks.old) v.leaves.at
        (body_guard kind (value_here v.leaves.scene (context_of marks.old) condition.now) (known v act)) (known v live) (known v start)))) }
    ensures typed { OnOk result (AreWrites owner.now circuit.old writes.old.items → AreWrites owner.now circuit.new writes.new.items) }
{
    let c = test(circuit, owner, marks, condition)?;
    let guard = body_guard(circuit, kind, c, act)?;
    let inner = depth(
        alloc, circuit, owner, marks, writes, body, guard, live, start,
    )?;
    let terms = of_suspend(circuit, kind, c, inner)?;
    Ok(terms)
}

/// An immediate suspend with this body: from its hold place, or in the body.
#[cycle(depth)]
fn resume_held(
    alloc: Global,
    circuit: &mut Circuit,
    owner: &Module,
    marks: &mut Marks,
    writes: &mut Vec<NetWrite>,
    kind: Kind,
    hold: u32,
    body: &Stmt,
    condition: &Expr,
    act: NetId,
    live: NetId,
    start: NetId,
) -> Result<Terms, AllocError>
    requires condition { IsTrue (is_test owner.now condition.now) }
    requires ready { IsTrue (is_ready owner.now body.now) }
    requires act { IsBool circuit.old act }
    requires live { IsBool circuit.old live }
    requires start { IsBool circuit.old start }
    ensures grows { OnOk result (Grows circuit.old circuit.new) }
    ensures marks { OnOk result (context_of marks.new ≡ context_of marks.old) }
    ensures ty { IfOk result (λ terms. AreBools circuit.new terms) }
    ensures inside { IfOk result (λ terms. Means circuit.new terms.inside
        (λ v. either (known_bit (v.leaves.at.place hold)) ((mirror_of v.leaves.scene body.now).inside v.leaves.at))) }
    ensures ended { IfOk result (λ terms. Means circuit.new terms.ended
        (λ v. choose_of (known_bit (v.leaves.at.place hold))
        (both (opposite (value_here v.leaves.scene (context_of marks.old) condition.now)) ((mirror_of v.leaves.scene body.now).walk.ends (context_of marks.old) mark.Zero))
        (where_inside ((mirror_of v.leaves.scene body.now).inside v.leaves.at)
        (both (opposite (value_here v.leaves.scene (context_of marks.old) condition.now)) ((mirror_of v.leaves.scene body.now).ended (context_of marks.old) v.leaves.at))))) }
    ensures ends { IfOk result (λ terms. Means circuit.new terms.ends
        (λ v. ends_on_start v.leaves.scene kind (mirror_of v.leaves.scene body.now).walk condition.now (context_of marks.old) mark.Zero)) }
    ensures writes { OnOk result (Appends circuit.new writes.old.items writes.new.items
        (λ v. shown ((mirror_of v.leaves.scene body.now).run (context_of marks.old) v.leaves.at
        (body_guard kind (value_here v.leaves.scene (context_of marks.old) condition.now) (known v act))
        (either (known v live) (known_bit (v.leaves.at.place hold)))
        (start_guard kind (value_here v.leaves.scene (context_of marks.old) condition.now) (from_hold v.leaves.at hold (known v act) (known v start)))))) }
    ensures typed { OnOk result (AreWrites owner.now circuit.old writes.old.items → AreWrites owner.now circuit.new writes.new.items) }
{
    let c = test(circuit, owner, marks, condition)?;
    let held = circuit.flag(LeafKind::At(hold))?;
    let guards = guards_of_held(circuit, kind, c, held, act, live, start)?;
    let inner = depth(
        alloc,
        circuit,
        owner,
        marks,
        writes,
        body,
        guards.act,
        guards.live,
        guards.start,
    )?;
    let terms = of_held(circuit, kind, c, held, inner)?;
    Ok(terms)
}

/// A scope with this body, whose locals have the instances that are kept.
#[cycle(depth)]
fn resume_scope(
    alloc: Global,
    circuit: &mut Circuit,
    owner: &Module,
    marks: &mut Marks,
    writes: &mut Vec<NetWrite>,
    body: &Stmt,
    locals: &[u32],
    act: NetId,
    live: NetId,
    start: NetId,
) -> Result<Terms, AllocError>
    requires ready { IsTrue (is_ready owner.now body.now) }
    requires act { IsBool circuit.old act }
    requires live { IsBool circuit.old live }
    requires start { IsBool circuit.old start }
    ensures grows { OnOk result (Grows circuit.old circuit.new) }
    ensures marks { OnOk result (context_of marks.new ≡ context_of marks.old) }
    ensures ty { IfOk result (λ terms. AreBools circuit.new terms) }
    ensures inside { IfOk result (λ terms. Means circuit.new terms.inside
        (λ v. (mirror_of v.leaves.scene body.now).inside v.leaves.at)) }
    ensures ended { IfOk result (λ terms. Means circuit.new terms.ended
        (λ v. (mirror_of v.leaves.scene body.now).ended (with_locals (context_of marks.old) locals.now mark.Zero) v.leaves.at)) }
    ensures ends { IfOk result (λ terms. Means circuit.new terms.ends
        (λ v. (mirror_of v.leaves.scene body.now).walk.ends (with_locals (context_of marks.old) locals.now mark.Zero) mark.Zero)) }
    ensures writes { OnOk result (Appends circuit.new writes.old.items writes.new.items
        (λ v. shown ((mirror_of v.leaves.scene body.now).run (with_locals (context_of marks.old) locals.now mark.Zero) v.leaves.at (known v act) (known v live) (known v start)))) }
    ensures typed { OnOk result (AreWrites owner.now circuit.old writes.old.items → AreWrites owner.now circuit.new writes.new.items) }
{
    let covered = marks.enter(alloc, locals, Mark::Zero)?;
    let told = depth(alloc, circuit, owner, marks, writes, body, act, live, start)?;
    marks.leave(covered)?;
    Ok(told)
}
