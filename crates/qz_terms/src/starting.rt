//! Whether a start ends in the same step.

ghost use Rattle.std.specs.Prelude.{◌≡◌, true, map, IsTrue, IfOk, OnOk, if◌then◌else◌};
ghost use Rattle.std.specs.List.{list_all};
ghost use Rattle.qz_values.specs.declared.Know.TheVariants.{Known};
ghost use Rattle.qz_values.specs.Values.{yes};
ghost use Rattle.qz_values.specs.Knowledge.{either};
ghost use Rattle.qz_meaning.specs.Scenes.{with_locals};
ghost use Rattle.qz_meaning.specs.Expressions.{value_here};
ghost use Rattle.qz_meaning.specs.Sequences.{ends_of_all};
ghost use Rattle.qz_meaning.specs.Suspends.{ends_on_start};
ghost use Rattle.qz_control.specs.Circuits.{Means, Grows, IsBool};
ghost use Rattle.qz_control.specs.Contexts.{context_of};
ghost use Rattle.qz_control.specs.Mirrors.{walks};
ghost use Rattle.qz_control.specs.Mirror.{mirror_of};
ghost use Rattle.qz_control.specs.Ready.{is_test, is_ready};

use crate::conditional::{ends_of_abort, ends_of_choice, ends_of_suspend};
use crate::members::member;
use qz_control::{Circuit, Marks, test};
use qz_nets::NetId;
use qz_syntax::{Expr, Kind, Mark, Module, Stmt};
use std::alloc::{AllocError, Global};

/// Whether a statement that is started with a mark ends in the same step.
///
/// # Errors
///
/// Want of memory alone.
#[cycle(ends)]
pub fn ends_at_once(
    alloc: Global,
    circuit: &mut Circuit,
    owner: &Module,
    marks: &mut Marks,
    s: &Stmt,
    m: Mark,
) -> Result<NetId, AllocError>
    requires ready { IsTrue (is_ready owner.now s.now) }
    ensures grows { OnOk result (Grows circuit.old circuit.new) }
    ensures marks { OnOk result (context_of marks.new ≡ context_of marks.old) }
    ensures ty { IfOk result (λ id. IsBool circuit.new id) }
    ensures means { IfOk result (λ id. Means circuit.new id
        (λ v. (mirror_of v.leaves.scene s.now).walk.ends (context_of marks.old) m)) }
{
    match s {
        Stmt::Pause(_) | Stmt::Loop(..) => circuit.truth(false),
        Stmt::Seq(parts) | Stmt::Par(parts) => ends_all(
            alloc,
            circuit,
            owner,
            marks,
            parts.as_slice(),
            m,
        ),
        Stmt::If(condition, first, second) => {
            let c = test(circuit, owner, marks, condition)?;
            let one = ends_at_once(alloc, circuit, owner, marks, first.get(), m)?;
            let other = ends_at_once(alloc, circuit, owner, marks, second.get(), m)?;
            let id = ends_of_choice(circuit, c, one, other)?;
            Ok(id)
        }
        Stmt::Abort(kind, body, condition) => ends_aborted(
            alloc,
            circuit,
            owner,
            marks,
            *kind,
            body.get(),
            condition,
            m,
        ),
        Stmt::Suspend(kind, _, body, condition) => ends_suspended(
            alloc,
            circuit,
            owner,
            marks,
            *kind,
            body.get(),
            condition,
            m,
        ),
        Stmt::Scope(locals, body) => ends_scope(
            alloc,
            circuit,
            owner,
            marks,
            body.get(),
            locals.as_slice(),
            m,
        ),
        Stmt::Nothing | Stmt::Assign(..) | Stmt::Delayed(..) | Stmt::Call(..) | Stmt::Bind(..) =>
            circuit.truth(true),
    }
}

/// Whether members that are started all end.
#[cycle(ends)]
fn ends_all(
    alloc: Global,
    circuit: &mut Circuit,
    owner: &Module,
    marks: &mut Marks,
    parts: &[Stmt],
    m: Mark,
) -> Result<NetId, AllocError>
    requires ready { IsTrue (list_all (λ part. part) (map (is_ready owner.now) parts.now)) }
    ensures grows { OnOk result (Grows circuit.old circuit.new) }
    ensures marks { OnOk result (context_of marks.new ≡ context_of marks.old) }
    ensures ty { IfOk result (λ id. IsBool circuit.new id) }
    ensures means { IfOk result (λ id. Means circuit.new id
        (λ v. ends_of_all (context_of marks.old) (walks (map (mirror_of v.leaves.scene) parts.now)) (Known yes) m)) }
{
    let mut so_far = circuit.truth(true)?;
    for index in 0..parts.len() {
        let part = member(owner, parts, index);
        let here = ends_at_once(alloc, circuit, owner, marks, part, m)?;
        so_far = circuit.and(so_far, here)?;
    }
    Ok(so_far)
}

/// Whether an abort ends, with this body.
#[cycle(ends)]
fn ends_aborted(
    alloc: Global,
    circuit: &mut Circuit,
    owner: &Module,
    marks: &mut Marks,
    kind: Kind,
    body: &Stmt,
    condition: &Expr,
    m: Mark,
) -> Result<NetId, AllocError>
    requires condition { IsTrue (is_test owner.now condition.now) }
    requires ready { IsTrue (is_ready owner.now body.now) }
    ensures grows { OnOk result (Grows circuit.old circuit.new) }
    ensures marks { OnOk result (context_of marks.new ≡ context_of marks.old) }
    ensures ty { IfOk result (λ id. IsBool circuit.new id) }
    ensures means { IfOk result (λ id. Means circuit.new id (λ v.
        if kind.immediate then either (value_here v.leaves.scene (context_of marks.old) condition.now)
        ((mirror_of v.leaves.scene body.now).walk.ends (context_of marks.old) m)
        else (mirror_of v.leaves.scene body.now).walk.ends (context_of marks.old) m)) }
{
    let c = test(circuit, owner, marks, condition)?;
    let ends = ends_at_once(alloc, circuit, owner, marks, body, m)?;
    let id = ends_of_abort(circuit, kind, c, ends)?;
    Ok(id)
}

/// Whether a suspend ends, with this body.
#[cycle(ends)]
fn ends_suspended(
    alloc: Global,
    circuit: &mut Circuit,
    owner: &Module,
    marks: &mut Marks,
    kind: Kind,
    body: &Stmt,
    condition: &Expr,
    m: Mark,
) -> Result<NetId, AllocError>
    requires condition { IsTrue (is_test owner.now condition.now) }
    requires ready { IsTrue (is_ready owner.now body.now) }
    ensures grows { OnOk result (Grows circuit.old circuit.new) }
    ensures marks { OnOk result (context_of marks.new ≡ context_of marks.old) }
    ensures ty { IfOk result (λ id. IsBool circuit.new id) }
    ensures means { IfOk result (λ id. Means circuit.new id
        (λ v. ends_on_start v.leaves.scene kind (mirror_of v.leaves.scene body.now).walk condition.now (context_of marks.old) m)) }
{
    let c = test(circuit, owner, marks, condition)?;
    let ends = ends_at_once(alloc, circuit, owner, marks, body, m)?;
    let id = ends_of_suspend(circuit, kind, c, ends)?;
    Ok(id)
}

/// Whether a scope ends, whose locals have instances with the start's mark.
#[cycle(ends)]
fn ends_scope(
    alloc: Global,
    circuit: &mut Circuit,
    owner: &Module,
    marks: &mut Marks,
    body: &Stmt,
    locals: &[u32],
    m: Mark,
) -> Result<NetId, AllocError>
    requires ready { IsTrue (is_ready owner.now body.now) }
    ensures grows { OnOk result (Grows circuit.old circuit.new) }
    ensures marks { OnOk result (context_of marks.new ≡ context_of marks.old) }
    ensures ty { IfOk result (λ id. IsBool circuit.new id) }
    ensures means { IfOk result (λ id. Means circuit.new id
        (λ v. (mirror_of v.leaves.scene body.now).walk.ends (with_locals (context_of marks.old) locals.now m) m)) }
{
    let covered = marks.enter(alloc, locals, m)?;
    let id = ends_at_once(alloc, circuit, owner, marks, body, m)?;
    marks.leave(covered)?;
    Ok(id)
}
