//! What a statement does in the step in which it is started.

ghost use Rattle.std.specs.Prelude.{◌≡◌, true, map, IsTrue, IfOk, OnOk, if◌then◌else◌};
ghost use Rattle.std.specs.List.{list_all};
ghost use Rattle.qz_values.specs.declared.Know.TheVariants.{Known};
ghost use Rattle.qz_values.specs.Values.{yes, no};
ghost use Rattle.qz_values.specs.Knowledge.{either};
ghost use Rattle.qz_meaning.specs.Scenes.{with_locals};
ghost use Rattle.qz_meaning.specs.Expressions.{value_here};
ghost use Rattle.qz_meaning.specs.Sequences.{start_in_turn, ends_of_all};
ghost use Rattle.qz_meaning.specs.Aborts.{start_guard};
ghost use Rattle.qz_meaning.specs.Suspends.{ends_on_start, acts_on_start};
ghost use Rattle.qz_control.specs.Circuits.{known, Means, Grows, IsBool};
ghost use Rattle.qz_control.specs.Contexts.{context_of};
ghost use Rattle.qz_control.specs.Mirrors.{walks};
ghost use Rattle.qz_control.specs.Mirror.{mirror_of};
ghost use Rattle.qz_control.specs.Ready.{is_test, is_ready};
ghost use Rattle.qz_surface.specs.Written.{Appends, AreWrites, hidden, start_at_once};

use crate::assigning::assign;
use crate::writes::NetWrite;
use qz_control::{Circuit, Marks, start_guard, test};
use qz_nets::NetId;
use qz_syntax::{Expr, Kind, Mark, Module, Stmt};
use qz_terms::{ends_of_abort, ends_of_choice, ends_of_suspend, guards_of_sides, member};
use std::alloc::{AllocError, Global};

/// The writes of a start with a mark and a guard are appended, each of which happens only where the start
/// is live. The answer is whether the start ends in the same step.
///
/// # Errors
///
/// Want of memory alone.
#[cycle(surface)]
pub fn surface(
    alloc: Global,
    circuit: &mut Circuit,
    owner: &Module,
    marks: &mut Marks,
    writes: &mut Vec<NetWrite>,
    s: &Stmt,
    m: Mark,
    start: NetId,
    live: NetId,
) -> Result<NetId, AllocError>
    requires ready { IsTrue (is_ready owner.now s.now) }
    requires start { IsBool circuit.old start }
    requires live { IsBool circuit.old live }
    ensures grows { OnOk result (Grows circuit.old circuit.new) }
    ensures marks { OnOk result (context_of marks.new ≡ context_of marks.old) }
    ensures ty { IfOk result (λ id. IsBool circuit.new id) }
    ensures ends { IfOk result (λ id. Means circuit.new id (λ v.
        (mirror_of v.leaves.scene s.now).walk.ends (context_of marks.old) m)) }
    ensures writes { OnOk result (Appends circuit.new writes.old.items writes.new.items
        (λ v. hidden (known v live) ((mirror_of v.leaves.scene s.now).walk.start (context_of marks.old) (known v start) m))) }
    ensures typed { OnOk result (AreWrites owner.now circuit.old writes.old.items → AreWrites owner.now circuit.new writes.new.items) }
{
    match s {
        Stmt::Assign(target, e) => assign(
            circuit, owner, marks, writes, false, *target, e, start, live,
        ),
        Stmt::Delayed(target, e) => assign(
            circuit, owner, marks, writes, true, *target, e, start, live,
        ),
        Stmt::Pause(_) => circuit.truth(false),
        Stmt::Seq(parts) => start_in_turn(
            alloc,
            circuit,
            owner,
            marks,
            writes,
            parts.as_slice(),
            m,
            start,
            live,
        ),
        Stmt::Par(parts) => start_at_once(
            alloc,
            circuit,
            owner,
            marks,
            writes,
            parts.as_slice(),
            m,
            start,
            live,
        ),
        Stmt::If(condition, first, second) => {
            let c = test(circuit, owner, marks, condition)?;
            let sides = guards_of_sides(circuit, c, start)?;
            let one = surface(
                alloc,
                circuit,
                owner,
                marks,
                writes,
                first.get(),
                m,
                sides.first,
                live,
            )?;
            let other = surface(
                alloc,
                circuit,
                owner,
                marks,
                writes,
                second.get(),
                m,
                sides.second,
                live,
            )?;
            let id = ends_of_choice(circuit, c, one, other)?;
            Ok(id)
        }
        Stmt::Loop(_, body, _) => start_loop(
            alloc,
            circuit,
            owner,
            marks,
            writes,
            body.get(),
            m,
            start,
            live,
        ),
        Stmt::Abort(kind, body, condition) => start_aborted(
            alloc,
            circuit,
            owner,
            marks,
            writes,
            *kind,
            body.get(),
            condition,
            m,
            start,
            live,
        ),
        Stmt::Suspend(kind, _, body, condition) => start_suspended(
            alloc,
            circuit,
            owner,
            marks,
            writes,
            *kind,
            body.get(),
            condition,
            m,
            start,
            live,
        ),
        Stmt::Scope(locals, body) => start_scope(
            alloc,
            circuit,
            owner,
            marks,
            writes,
            body.get(),
            locals.as_slice(),
            m,
            start,
            live,
        ),
        Stmt::Nothing | Stmt::Call(..) | Stmt::Bind(..) => circuit.truth(true),
    }
}

/// Members one after the other, each where all before it end at once.
#[cycle(surface)]
fn start_in_turn(
    alloc: Global,
    circuit: &mut Circuit,
    owner: &Module,
    marks: &mut Marks,
    writes: &mut Vec<NetWrite>,
    parts: &[Stmt],
    m: Mark,
    start: NetId,
    live: NetId,
) -> Result<NetId, AllocError>
    requires ready { IsTrue (list_all (λ part. part) (map (is_ready owner.now) parts.now)) }
    requires start { IsBool circuit.old start }
    requires live { IsBool circuit.old live }
    ensures grows { OnOk result (Grows circuit.old circuit.new) }
    ensures marks { OnOk result (context_of marks.new ≡ context_of marks.old) }
    ensures ty { IfOk result (λ id. IsBool circuit.new id) }
    ensures ends { IfOk result (λ id. Means circuit.new id (λ v.
        ends_of_all (context_of marks.old) (walks (map (mirror_of v.leaves.scene) parts.now)) (Known yes) m)) }
    ensures writes { OnOk result (Appends circuit.new writes.old.items writes.new.items
        (λ v. hidden (known v live) (start_in_turn (context_of marks.old) (walks (map (mirror_of v.leaves.scene) parts.now)) (known v start) m))) }
    ensures typed { OnOk result (AreWrites owner.now circuit.old writes.old.items → AreWrites owner.now circuit.new writes.new.items) }
{
    let mut guard = start;
    let mut so_far = circuit.truth(true)?;
    for index in 0..parts.len() {
        let part = member(owner, parts, index);
        let here = surface(alloc, circuit, owner, marks, writes, part, m, guard, live)?;
        guard = circuit.and(guard, here)?;
        so_far = circuit.and(so_far, here)?;
    }
    Ok(so_far)
}

/// Members all at once.
#[cycle(surface)]
fn start_at_once(
    alloc: Global,
    circuit: &mut Circuit,
    owner: &Module,
    marks: &mut Marks,
    writes: &mut Vec<NetWrite>,
    parts: &[Stmt],
    m: Mark,
    start: NetId,
    live: NetId,
) -> Result<NetId, AllocError>
    requires ready { IsTrue (list_all (λ part. part) (map (is_ready owner.now) parts.now)) }
    requires start { IsBool circuit.old start }
    requires live { IsBool circuit.old live }
    ensures grows { OnOk result (Grows circuit.old circuit.new) }
    ensures marks { OnOk result (context_of marks.new ≡ context_of marks.old) }
    ensures ty { IfOk result (λ id. IsBool circuit.new id) }
    ensures ends { IfOk result (λ id. Means circuit.new id (λ v.
        ends_of_all (context_of marks.old) (walks (map (mirror_of v.leaves.scene) parts.now)) (Known yes) m)) }
    ensures writes { OnOk result (Appends circuit.new writes.old.items writes.new.items
        (λ v. hidden (known v live) (start_at_once (context_of marks.old) (walks (map (mirror_of v.leaves.scene) parts.now)) (known v start) m))) }
    ensures typed { OnOk result (AreWrites owner.now circuit.old writes.old.items → AreWrites owner.now circuit.new writes.new.items) }
{
    let mut so_far = circuit.truth(true)?;
    for index in 0..parts.len() {
        let part = member(owner, parts, index);
        let here = surface(alloc, circuit, owner, marks, writes, part, m, start, live)?;
        so_far = circuit.and(so_far, here)?;
    }
    Ok(so_far)
}

/// A loop with this body, which never ends at once.
#[cycle(surface)]
fn start_loop(
    alloc: Global,
    circuit: &mut Circuit,
    owner: &Module,
    marks: &mut Marks,
    writes: &mut Vec<NetWrite>,
    body: &Stmt,
    m: Mark,
    start: NetId,
    live: NetId,
) -> Result<NetId, AllocError>
    requires ready { IsTrue (is_ready owner.now body.now) }
    requires start { IsBool circuit.old start }
    requires live { IsBool circuit.old live }
    ensures grows { OnOk result (Grows circuit.old circuit.new) }
    ensures marks { OnOk result (context_of marks.new ≡ context_of marks.old) }
    ensures ty { IfOk result (λ id. IsBool circuit.new id) }
    ensures ends { IfOk result (λ id. Means circuit.new id (λ v.
        Known no)) }
    ensures writes { OnOk result (Appends circuit.new writes.old.items writes.new.items
        (λ v. hidden (known v live) ((mirror_of v.leaves.scene body.now).walk.start (context_of marks.old) (known v start) m))) }
    ensures typed { OnOk result (AreWrites owner.now circuit.old writes.old.items → AreWrites owner.now circuit.new writes.new.items) }
{
    surface(alloc, circuit, owner, marks, writes, body, m, start, live)?;
    let ends = circuit.truth(false)?;
    Ok(ends)
}

/// An abort with this body.
#[cycle(surface)]
fn start_aborted(
    alloc: Global,
    circuit: &mut Circuit,
    owner: &Module,
    marks: &mut Marks,
    writes: &mut Vec<NetWrite>,
    kind: Kind,
    body: &Stmt,
    condition: &Expr,
    m: Mark,
    start: NetId,
    live: NetId,
) -> Result<NetId, AllocError>
    requires condition { IsTrue (is_test owner.now condition.now) }
    requires ready { IsTrue (is_ready owner.now body.now) }
    requires start { IsBool circuit.old start }
    requires live { IsBool circuit.old live }
    ensures grows { OnOk result (Grows circuit.old circuit.new) }
    ensures marks { OnOk result (context_of marks.new ≡ context_of marks.old) }
    ensures ty { IfOk result (λ id. IsBool circuit.new id) }
    ensures ends { IfOk result (λ id. Means circuit.new id (λ v.
        if kind.immediate then either (value_here v.leaves.scene (context_of marks.old) condition.now)
        ((mirror_of v.leaves.scene body.now).walk.ends (context_of marks.old) m)
        else (mirror_of v.leaves.scene body.now).walk.ends (context_of marks.old) m)) }
    ensures writes { OnOk result (Appends circuit.new writes.old.items writes.new.items
        (λ v. hidden (known v live) ((mirror_of v.leaves.scene body.now).walk.start (context_of marks.old)
        (start_guard kind (value_here v.leaves.scene (context_of marks.old) condition.now) (known v start)) m))) }
    ensures typed { OnOk result (AreWrites owner.now circuit.old writes.old.items → AreWrites owner.now circuit.new writes.new.items) }
{
    let c = test(circuit, owner, marks, condition)?;
    let guard = start_guard(circuit, kind, c, start)?;
    let inner = surface(alloc, circuit, owner, marks, writes, body, m, guard, live)?;
    let ends = ends_of_abort(circuit, kind, c, inner)?;
    Ok(ends)
}

/// A suspend with this body.
#[cycle(surface)]
fn start_suspended(
    alloc: Global,
    circuit: &mut Circuit,
    owner: &Module,
    marks: &mut Marks,
    writes: &mut Vec<NetWrite>,
    kind: Kind,
    body: &Stmt,
    condition: &Expr,
    m: Mark,
    start: NetId,
    live: NetId,
) -> Result<NetId, AllocError>
    requires condition { IsTrue (is_test owner.now condition.now) }
    requires ready { IsTrue (is_ready owner.now body.now) }
    requires start { IsBool circuit.old start }
    requires live { IsBool circuit.old live }
    ensures grows { OnOk result (Grows circuit.old circuit.new) }
    ensures marks { OnOk result (context_of marks.new ≡ context_of marks.old) }
    ensures ty { IfOk result (λ id. IsBool circuit.new id) }
    ensures ends { IfOk result (λ id. Means circuit.new id (λ v.
        ends_on_start v.leaves.scene kind (mirror_of v.leaves.scene body.now).walk condition.now (context_of marks.old) m)) }
    ensures writes { OnOk result (Appends circuit.new writes.old.items writes.new.items
        (λ v. hidden (known v live) (acts_on_start v.leaves.scene kind (mirror_of v.leaves.scene body.now).walk condition.now (context_of marks.old) (known v start) m))) }
    ensures typed { OnOk result (AreWrites owner.now circuit.old writes.old.items → AreWrites owner.now circuit.new writes.new.items) }
{
    let c = test(circuit, owner, marks, condition)?;
    let guard = start_guard(circuit, kind, c, start)?;
    let inner = surface(alloc, circuit, owner, marks, writes, body, m, guard, live)?;
    let ends = ends_of_suspend(circuit, kind, c, inner)?;
    Ok(ends)
}

/// A scope with this body, whose locals have instances with the start's mark.
#[cycle(surface)]
fn start_scope(
    alloc: Global,
    circuit: &mut Circuit,
    owner: &Module,
    marks: &mut Marks,
    writes: &mut Vec<NetWrite>,
    body: &Stmt,
    locals: &[u32],
    m: Mark,
    start: NetId,
    live: NetId,
) -> Result<NetId, AllocError>
    requires ready { IsTrue (is_ready owner.now body.now) }
    requires start { IsBool circuit.old start }
    requires live { IsBool circuit.old live }
    ensures grows { OnOk result (Grows circuit.old circuit.new) }
    ensures marks { OnOk result (context_of marks.new ≡ context_of marks.old) }
    ensures ty { IfOk result (λ id. IsBool circuit.new id) }
    ensures ends { IfOk result (λ id. Means circuit.new id (λ v.
        (mirror_of v.leaves.scene body.now).walk.ends (with_locals (context_of marks.old) locals.now m) m)) }
    ensures writes { OnOk result (Appends circuit.new writes.old.items writes.new.items
        (λ v. hidden (known v live) ((mirror_of v.leaves.scene body.now).walk.start (with_locals (context_of marks.old) locals.now m) (known v start) m))) }
    ensures typed { OnOk result (AreWrites owner.now circuit.old writes.old.items → AreWrites owner.now circuit.new writes.new.items) }
{
    let covered = marks.enter(alloc, locals, m)?;
    let ends = surface(alloc, circuit, owner, marks, writes, body, m, start, live)?;
    marks.leave(covered)?;
    Ok(ends)
}
