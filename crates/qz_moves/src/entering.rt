//! Where control rests after a start.

ghost use Rattle.std.specs.Prelude.{◌≡◌, ◌++◌, ◌∷◌, [], true, map, IsTrue, IfOk, OnOk, if◌then◌else◌};
ghost use Rattle.std.specs.List.{list_all};
ghost use Rattle.qz_values.specs.declared.Know.TheVariants.{Known};
ghost use Rattle.qz_values.specs.Values.{yes, no};
ghost use Rattle.qz_values.specs.Knowledge.{both, either};
ghost use Rattle.qz_meaning.specs.Scenes.{with_locals};
ghost use Rattle.qz_meaning.specs.Expressions.{value_here};
ghost use Rattle.qz_meaning.specs.Sequences.{ends_of_all};
ghost use Rattle.qz_meaning.specs.Suspends.{ends_on_start};
ghost use Rattle.qz_meaning.specs.Landings.{At};
ghost use Rattle.qz_control.specs.Circuits.{known, Means, Grows, IsBool};
ghost use Rattle.qz_control.specs.Contexts.{context_of};
ghost use Rattle.qz_control.specs.Guarded.{goes, keeps_where};
ghost use Rattle.qz_control.specs.Mirrors.{walks};
ghost use Rattle.qz_control.specs.MemberMirrors.{enter_all, rests_all, enter_each, rests_each};
ghost use Rattle.qz_control.specs.BodyMirrors.{kept_guard};
ghost use Rattle.qz_control.specs.Mirror.{mirror_of};
ghost use Rattle.qz_control.specs.Ready.{is_test, is_ready};
ghost use Rattle.qz_moves.specs.Told.{AreEntered};
ghost use Rattle.qz_moves.specs.Appended.{Appends, AreTests};

use crate::entered::{Entered, entered_choice, entered_more, entered_nowhere};
use crate::guards::kept_guard;
use crate::pauses::enter_pause;
use crate::spots::{NetSpot, keep, rest_at};
use qz_control::{Circuit, Marks, test, unless};
use qz_nets::NetId;
use qz_syntax::{Expr, Kind, Mark, Module, Stmt};
use qz_terms::{ends_of_abort, ends_of_suspend, guards_of_sides, member};
use std::alloc::{AllocError, Global};

/// Where control rests after a start with a mark and a guard is appended. The answer is whether the start
/// ends in the same step, and whether control rests anywhere.
///
/// # Errors
///
/// Want of memory alone.
#[cycle(enter)]
pub fn enter(
    alloc: Global,
    circuit: &mut Circuit,
    owner: &Module,
    marks: &mut Marks,
    spots: &mut Vec<NetSpot>,
    s: &Stmt,
    m: Mark,
    start: NetId,
) -> Result<Entered, AllocError>
    requires ready { IsTrue (is_ready owner.now s.now) }
    requires start { IsBool circuit.old start }
    ensures grows { OnOk result (Grows circuit.old circuit.new) }
    ensures marks { OnOk result (context_of marks.new ≡ context_of marks.old) }
    ensures ty { IfOk result (λ entered. AreEntered circuit.new entered) }
    ensures ends { IfOk result (λ entered. Means circuit.new entered.ends
        (λ v. (mirror_of v.leaves.scene s.now).walk.ends (context_of marks.old) m)) }
    ensures rests { IfOk result (λ entered. Means circuit.new entered.rests
        (λ v. (mirror_of v.leaves.scene s.now).rests (context_of marks.old) m (known v start))) }
    ensures spots { OnOk result (Appends circuit.new spots.old.items spots.new.items
        (λ v. (mirror_of v.leaves.scene s.now).enter (context_of marks.old) m (known v start))) }
    ensures tests { OnOk result (AreTests circuit.old spots.old.items → AreTests circuit.new spots.new.items) }
{
    match s {
        Stmt::Pause(place) => enter_pause(circuit, spots, *place, start),
        Stmt::Seq(parts) => enter_in_turn(
            alloc,
            circuit,
            owner,
            marks,
            spots,
            parts.as_slice(),
            m,
            start,
        ),
        Stmt::Par(parts) => enter_at_once(
            alloc,
            circuit,
            owner,
            marks,
            spots,
            parts.as_slice(),
            m,
            start,
        ),
        Stmt::If(condition, first, second) => {
            let c = test(circuit, owner, marks, condition)?;
            let sides = guards_of_sides(circuit, c, start)?;
            let one = enter(
                alloc,
                circuit,
                owner,
                marks,
                spots,
                first.get(),
                m,
                sides.first,
            )?;
            let other = enter(
                alloc,
                circuit,
                owner,
                marks,
                spots,
                second.get(),
                m,
                sides.second,
            )?;
            let entered = entered_choice(circuit, c, one, other)?;
            Ok(entered)
        }
        Stmt::Loop(_, body, _) => enter_loop(
            alloc,
            circuit,
            owner,
            marks,
            spots,
            body.get(),
            m,
            start,
        ),
        Stmt::Abort(kind, body, condition) => enter_aborted(
            alloc,
            circuit,
            owner,
            marks,
            spots,
            *kind,
            body.get(),
            condition,
            m,
            start,
        ),
        Stmt::Suspend(kind, None, body, condition) => enter_suspended(
            alloc,
            circuit,
            owner,
            marks,
            spots,
            *kind,
            body.get(),
            condition,
            m,
            start,
        ),
        Stmt::Suspend(kind, Some(hold), body, condition) => enter_held(
            alloc,
            circuit,
            owner,
            marks,
            spots,
            *kind,
            *hold,
            body.get(),
            condition,
            m,
            start,
        ),
        Stmt::Scope(locals, body) => enter_scope(
            alloc,
            circuit,
            owner,
            marks,
            spots,
            body.get(),
            locals.as_slice(),
            m,
            start,
        ),
        Stmt::Nothing | Stmt::Assign(..) | Stmt::Delayed(..) | Stmt::Call(..) | Stmt::Bind(..) =>
            entered_nowhere(circuit),
    }
}

/// Members one after the other: control rests in the first that doesn't end.
#[cycle(enter)]
fn enter_in_turn(
    alloc: Global,
    circuit: &mut Circuit,
    owner: &Module,
    marks: &mut Marks,
    spots: &mut Vec<NetSpot>,
    parts: &[Stmt],
    m: Mark,
    start: NetId,
) -> Result<Entered, AllocError>
    requires ready { IsTrue (list_all (λ part. part) (map (is_ready owner.now) parts.now)) }
    requires start { IsBool circuit.old start }
    ensures grows { OnOk result (Grows circuit.old circuit.new) }
    ensures marks { OnOk result (context_of marks.new ≡ context_of marks.old) }
    ensures ty { IfOk result (λ entered. AreEntered circuit.new entered) }
    ensures ends { IfOk result (λ entered. Means circuit.new entered.ends
        (λ v. ends_of_all (context_of marks.old) (walks (map (mirror_of v.leaves.scene) parts.now)) (Known yes) m)) }
    ensures rests { IfOk result (λ entered. Means circuit.new entered.rests
        (λ v. rests_all (context_of marks.old) (map (mirror_of v.leaves.scene) parts.now) m (known v start) (Known no))) }
    ensures spots { OnOk result (Appends circuit.new spots.old.items spots.new.items
        (λ v. enter_all (context_of marks.old) (map (mirror_of v.leaves.scene) parts.now) m (known v start))) }
    ensures tests { OnOk result (AreTests circuit.old spots.old.items → AreTests circuit.new spots.new.items) }
{
    let mut guard = start;
    let mut so_far = entered_nowhere(circuit)?;
    for index in 0..parts.len() {
        let part = member(owner, parts, index);
        let here = enter(alloc, circuit, owner, marks, spots, part, m, guard)?;
        guard = circuit.and(guard, here.ends)?;
        so_far = entered_more(circuit, so_far, here)?;
    }
    Ok(so_far)
}

/// Members all at once.
#[cycle(enter)]
fn enter_at_once(
    alloc: Global,
    circuit: &mut Circuit,
    owner: &Module,
    marks: &mut Marks,
    spots: &mut Vec<NetSpot>,
    parts: &[Stmt],
    m: Mark,
    start: NetId,
) -> Result<Entered, AllocError>
    requires ready { IsTrue (list_all (λ part. part) (map (is_ready owner.now) parts.now)) }
    requires start { IsBool circuit.old start }
    ensures grows { OnOk result (Grows circuit.old circuit.new) }
    ensures marks { OnOk result (context_of marks.new ≡ context_of marks.old) }
    ensures ty { IfOk result (λ entered. AreEntered circuit.new entered) }
    ensures ends { IfOk result (λ entered. Means circuit.new entered.ends
        (λ v. ends_of_all (context_of marks.old) (walks (map (mirror_of v.leaves.scene) parts.now)) (Known yes) m)) }
    ensures rests { IfOk result (λ entered. Means circuit.new entered.rests
        (λ v. rests_each (context_of marks.old) (map (mirror_of v.leaves.scene) parts.now) m (known v start) (Known no))) }
    ensures spots { OnOk result (Appends circuit.new spots.old.items spots.new.items
        (λ v. enter_each (context_of marks.old) (map (mirror_of v.leaves.scene) parts.now) m (known v start))) }
    ensures tests { OnOk result (AreTests circuit.old spots.old.items → AreTests circuit.new spots.new.items) }
{
    let mut so_far = entered_nowhere(circuit)?;
    for index in 0..parts.len() {
        let part = member(owner, parts, index);
        let here = enter(alloc, circuit, owner, marks, spots, part, m, start)?;
        so_far = entered_more(circuit, so_far, here)?;
    }
    Ok(so_far)
}

/// A loop with this body, which never ends at once.
#[cycle(enter)]
fn enter_loop(
    alloc: Global,
    circuit: &mut Circuit,
    owner: &Module,
    marks: &mut Marks,
    spots: &mut Vec<NetSpot>,
    body: &Stmt,
    m: Mark,
    start: NetId,
) -> Result<Entered, AllocError>
    requires ready { IsTrue (is_ready owner.now body.now) }
    requires start { IsBool circuit.old start }
    ensures grows { OnOk result (Grows circuit.old circuit.new) }
    ensures marks { OnOk result (context_of marks.new ≡ context_of marks.old) }
    ensures ty { IfOk result (λ entered. AreEntered circuit.new entered) }
    ensures ends { IfOk result (λ entered. Means circuit.new entered.ends (λ v. Known no)) }
    ensures rests { IfOk result (λ entered. Means circuit.new entered.rests
        (λ v. (mirror_of v.leaves.scene body.now).rests (context_of marks.old) m (known v start))) }
    ensures spots { OnOk result (Appends circuit.new spots.old.items spots.new.items
        (λ v. (mirror_of v.leaves.scene body.now).enter (context_of marks.old) m (known v start))) }
    ensures tests { OnOk result (AreTests circuit.old spots.old.items → AreTests circuit.new spots.new.items) }
{
    let inner = enter(alloc, circuit, owner, marks, spots, body, m, start)?;
    let ends = circuit.truth(false)?;
    Ok(Entered {
        ends,
        rests: inner.rests,
    })
}

/// An abort with this body.
#[cycle(enter)]
fn enter_aborted(
    alloc: Global,
    circuit: &mut Circuit,
    owner: &Module,
    marks: &mut Marks,
    spots: &mut Vec<NetSpot>,
    kind: Kind,
    body: &Stmt,
    condition: &Expr,
    m: Mark,
    start: NetId,
) -> Result<Entered, AllocError>
    requires condition { IsTrue (is_test owner.now condition.now) }
    requires ready { IsTrue (is_ready owner.now body.now) }
    requires start { IsBool circuit.old start }
    ensures grows { OnOk result (Grows circuit.old circuit.new) }
    ensures marks { OnOk result (context_of marks.new ≡ context_of marks.old) }
    ensures ty { IfOk result (λ entered. AreEntered circuit.new entered) }
    ensures ends { IfOk result (λ entered. Means circuit.new entered.ends (λ v.
        if kind.immediate then either (value_here v.leaves.scene (context_of marks.old) condition.now)
        ((mirror_of v.leaves.scene body.now).walk.ends (context_of marks.old) m)
        else (mirror_of v.leaves.scene body.now).walk.ends (context_of marks.old) m)) }
    ensures rests { IfOk result (λ entered. Means circuit.new entered.rests
        (λ v. (mirror_of v.leaves.scene body.now).rests (context_of marks.old) m
        (kept_guard kind (value_here v.leaves.scene (context_of marks.old) condition.now) (known v start)))) }
    ensures spots { OnOk result (Appends circuit.new spots.old.items spots.new.items
        (λ v. (mirror_of v.leaves.scene body.now).enter (context_of marks.old) m
        (kept_guard kind (value_here v.leaves.scene (context_of marks.old) condition.now) (known v start)))) }
    ensures tests { OnOk result (AreTests circuit.old spots.old.items → AreTests circuit.new spots.new.items) }
{
    let c = test(circuit, owner, marks, condition)?;
    let guard = kept_guard(circuit, kind, c, start)?;
    let inner = enter(alloc, circuit, owner, marks, spots, body, m, guard)?;
    let ends = ends_of_abort(circuit, kind, c, inner.ends)?;
    Ok(Entered {
        ends,
        rests: inner.rests,
    })
}

/// A suspend with this body and no hold place.
#[cycle(enter)]
fn enter_suspended(
    alloc: Global,
    circuit: &mut Circuit,
    owner: &Module,
    marks: &mut Marks,
    spots: &mut Vec<NetSpot>,
    kind: Kind,
    body: &Stmt,
    condition: &Expr,
    m: Mark,
    start: NetId,
) -> Result<Entered, AllocError>
    requires condition { IsTrue (is_test owner.now condition.now) }
    requires ready { IsTrue (is_ready owner.now body.now) }
    requires start { IsBool circuit.old start }
    ensures grows { OnOk result (Grows circuit.old circuit.new) }
    ensures marks { OnOk result (context_of marks.new ≡ context_of marks.old) }
    ensures ty { IfOk result (λ entered. AreEntered circuit.new entered) }
    ensures ends { IfOk result (λ entered. Means circuit.new entered.ends
        (λ v. ends_on_start v.leaves.scene kind (mirror_of v.leaves.scene body.now).walk condition.now (context_of marks.old) m)) }
    ensures rests { IfOk result (λ entered. Means circuit.new entered.rests
        (λ v. (mirror_of v.leaves.scene body.now).rests (context_of marks.old) m (known v start))) }
    ensures spots { OnOk result (Appends circuit.new spots.old.items spots.new.items
        (λ v. (mirror_of v.leaves.scene body.now).enter (context_of marks.old) m (known v start))) }
    ensures tests { OnOk result (AreTests circuit.old spots.old.items → AreTests circuit.new spots.new.items) }
{
    let c = test(circuit, owner, marks, condition)?;
    let inner = enter(alloc, circuit, owner, marks, spots, body, m, start)?;
    let ends = ends_of_suspend(circuit, kind, c, inner.ends)?;
    Ok(Entered {
        ends,
        rests: inner.rests,
    })
}

/// An immediate suspend with this body: at its hold place where the condition holds, else in the body.
#[cycle(enter)]
fn enter_held(
    alloc: Global,
    circuit: &mut Circuit,
    owner: &Module,
    marks: &mut Marks,
    spots: &mut Vec<NetSpot>,
    kind: Kind,
    hold: u32,
    body: &Stmt,
    condition: &Expr,
    m: Mark,
    start: NetId,
) -> Result<Entered, AllocError>
    requires condition { IsTrue (is_test owner.now condition.now) }
    requires ready { IsTrue (is_ready owner.now body.now) }
    requires start { IsBool circuit.old start }
    ensures grows { OnOk result (Grows circuit.old circuit.new) }
    ensures marks { OnOk result (context_of marks.new ≡ context_of marks.old) }
    ensures ty { IfOk result (λ entered. AreEntered circuit.new entered) }
    ensures ends { IfOk result (λ entered. Means circuit.new entered.ends
        (λ v. ends_on_start v.leaves.scene kind (mirror_of v.leaves.scene body.now).walk condition.now (context_of marks.old) m)) }
    ensures rests { IfOk result (λ entered. Means circuit.new entered.rests
        (λ v. either (both (known v start) (value_here v.leaves.scene (context_of marks.old) condition.now))
        ((mirror_of v.leaves.scene body.now).rests (context_of marks.old) m
        (goes (value_here v.leaves.scene (context_of marks.old) condition.now) (known v start))))) }
    ensures spots { OnOk result (Appends circuit.new spots.old.items spots.new.items
        (λ v. (At hold, both (known v start) (value_here v.leaves.scene (context_of marks.old) condition.now))
        ∷ (mirror_of v.leaves.scene body.now).enter (context_of marks.old) m
        (goes (value_here v.leaves.scene (context_of marks.old) condition.now) (known v start)))) }
    ensures tests { OnOk result (AreTests circuit.old spots.old.items → AreTests circuit.new spots.new.items) }
{
    let c = test(circuit, owner, marks, condition)?;
    let sides = guards_of_sides(circuit, c, start)?;
    rest_at(spots, hold, sides.first)?;
    let inner = enter(alloc, circuit, owner, marks, spots, body, m, sides.second)?;
    let ends = ends_of_suspend(circuit, kind, c, inner.ends)?;
    let rests = circuit.or(sides.first, inner.rests)?;
    Ok(Entered { ends, rests })
}

/// A scope with this body, whose locals have instances with the start's mark. It is entered where control
/// rests in the body.
#[cycle(enter)]
fn enter_scope(
    alloc: Global,
    circuit: &mut Circuit,
    owner: &Module,
    marks: &mut Marks,
    spots: &mut Vec<NetSpot>,
    body: &Stmt,
    locals: &[u32],
    m: Mark,
    start: NetId,
) -> Result<Entered, AllocError>
    requires ready { IsTrue (is_ready owner.now body.now) }
    requires start { IsBool circuit.old start }
    ensures grows { OnOk result (Grows circuit.old circuit.new) }
    ensures marks { OnOk result (context_of marks.new ≡ context_of marks.old) }
    ensures ty { IfOk result (λ entered. AreEntered circuit.new entered) }
    ensures ends { IfOk result (λ entered. Means circuit.new entered.ends
        (λ v. (mirror_of v.leaves.scene body.now).walk.ends (with_locals (context_of marks.old) locals.now m) m)) }
    ensures rests { IfOk result (λ entered. Means circuit.new entered.rests
        (λ v. (mirror_of v.leaves.scene body.now).rests (with_locals (context_of marks.old) locals.now m) m (known v start))) }
    ensures spots { OnOk result (Appends circuit.new spots.old.items spots.new.items
        (λ v. (mirror_of v.leaves.scene body.now).enter (with_locals (context_of marks.old) locals.now m) m (known v start)
        ++ keeps_where locals.now m
        ((mirror_of v.leaves.scene body.now).rests (with_locals (context_of marks.old) locals.now m) m (known v start)))) }
    ensures tests { OnOk result (AreTests circuit.old spots.old.items → AreTests circuit.new spots.new.items) }
{
    let covered = marks.enter(alloc, locals, m)?;
    let entered = enter(alloc, circuit, owner, marks, spots, body, m, start)?;
    marks.leave(covered)?;
    keep(spots, locals, m, entered.rests)?;
    Ok(entered)
}
