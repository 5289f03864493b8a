//! The resume walk: what a statement does when it is resumed where control rests inside.

ghost use Rattle.std.specs.Prelude.{◌≡◌, ◌++◌, ◌∷◌, [], map, Some, IfOk, OnOk, flat_map};
ghost use Rattle.qz_values.specs.Knowledge.{both, opposite};
ghost use Rattle.qz_syntax.specs.declared.places.Residual.{Residual};
ghost use Rattle.qz_meaning.specs.Behaviors.{idle};
ghost use Rattle.qz_meaning.specs.Scenes.{Passing};
ghost use Rattle.qz_meaning.specs.Sequences.{sequence, member};
ghost use Rattle.qz_meaning.specs.Parallels.{parallel, resting, ended_of_all};
ghost use Rattle.qz_meaning.specs.Loops.{loop};
ghost use Rattle.qz_meaning.specs.Aborts.{abort};
ghost use Rattle.qz_meaning.specs.Suspends.{suspend};
ghost use Rattle.qz_meaning.specs.Scopes.{scope};
ghost use Rattle.qz_meaning.specs.Calls.{bound_body};
ghost use Rattle.qz_meaning.specs.Residing.{Walk, residing, walk};
ghost use Rattle.qz_react.specs.Contexts.{context_of};
ghost use Rattle.qz_react.specs.Seeing.{Sees, named, written};

use crate::bindings::{bind, unbind};
use crate::environments::Write;
use crate::expressions::{View, value};
use crate::here::Here;
use crate::operators::{and, no, not, or, yes};
use crate::residuals::{branches, inside_of, is_at_hold, is_in_first, later, member_number};
use crate::starts::{guard_of_body, start, start_parts, start_suspend, unless};
use qz_syntax::{Binding, Expr, Kind, Mark, Residual, Stmt};
use qz_values::Know;
use sqlite_items::at;
use std::alloc::AllocError;

/// Resumes a statement with a guard: appends its writes, and answers whether it ends.
#[cycle(resumes)]
pub fn resume(
    view: &View,
    here: &mut Here,
    s: &Stmt,
    r: &Residual,
    g: Know,
    out: &mut Vec<Write>,
) -> Result<Know, AllocError>
    ensures here { OnOk result (context_of here.new ≡ context_of here.old) }
    ensures ended { IfOk result (λ k. (step : Passing) → Sees view.now.table.now view.now.env.now step
        → k ≡ (walk step s.now).ended (context_of here.old) r.now) }
    ensures writes { OnOk result ((step : Passing) → Sees view.now.table.now view.now.env.now step
        → map (written (named view.now.table.now)) out.new.items
        ≡ map (written (named view.now.table.now)) out.old.items ++ map Some ((walk step s.now).resume (context_of here.old) r.now g)) }
{
    match s {
        Stmt::Nothing | Stmt::Assign(..) | Stmt::Delayed(..) | Stmt::Call(..) => Ok(no()),
        Stmt::Pause(_) => Ok(yes()),
        Stmt::Seq(parts) => resume_sequence(view, here, parts.as_slice(), r, g, out),
        Stmt::Par(parts) => resume_parallel(view, here, parts.as_slice(), r, g, out),
        Stmt::If(_, first, second) => {
            if is_in_first(r) {
                resume(view, here, first.get(), inside_of(r), g, out)
            } else {
                resume(view, here, second.get(), inside_of(r), g, out)
            }
        }
        Stmt::Loop(number, body, condition) => resume_loop(
            view,
            here,
            body.get(),
            *number,
            condition,
            r,
            g,
            out,
        ),
        Stmt::Abort(kind, body, condition) => resume_abort(
            view,
            here,
            *kind,
            body.get(),
            condition,
            r,
            g,
            out,
        ),
        Stmt::Suspend(kind, hold, body, condition) => resume_suspend(
            view,
            here,
            *kind,
            *hold,
            body.get(),
            condition,
            r,
            g,
            out,
        ),
        Stmt::Scope(locals, body) => resume_scope(
            view,
            here,
            body.get(),
            locals.as_slice(),
            r,
            g,
            out,
        ),
        Stmt::Bind(bindings, body) => resume_bound(
            view,
            here,
            body.get(),
            bindings.as_slice(),
            r,
            g,
            out,
        ),
    }
}

/// Resumes the member inside, and starts those after it.
#[cycle(resumes)]
#[tactic(auto, using(crate::proofs::Cutting::cutting))]
fn resume_sequence(
    view: &View,
    here: &mut Here,
    parts: &[Stmt],
    r: &Residual,
    g: Know,
    out: &mut Vec<Write>,
) -> Result<Know, AllocError>
    ensures here { OnOk result (context_of here.new ≡ context_of here.old) }
    ensures ended { IfOk result (λ k. (step : Passing) → Sees view.now.table.now view.now.env.now step
        → k ≡ (sequence (residing step) (map (walk step) parts.now)).ended (context_of here.old) r.now) }
    ensures writes { OnOk result ((step : Passing) → Sees view.now.table.now view.now.env.now step
        → map (written (named view.now.table.now)) out.new.items
        ≡ map (written (named view.now.table.now)) out.old.items
        ++ map Some ((sequence (residing step) (map (walk step) parts.now)).resume (context_of here.old) r.now g)) }
{
    let member = member_number(r) as usize;
    let ended = resume_member(view, here, parts, member, inside_of(r), g, out)?;
    let guard = and(g, ended)?;
    start_parts(
        view,
        here,
        later(parts, member),
        guard,
        ended,
        Mark::Zero,
        out,
    )
}

/// Resumes one member.
#[cycle(resumes)]
#[tactic(auto, using(crate::proofs::Cutting::cutting))]
fn resume_member(
    view: &View,
    here: &mut Here,
    parts: &[Stmt],
    number: usize,
    r: &Residual,
    g: Know,
    out: &mut Vec<Write>,
) -> Result<Know, AllocError>
    ensures here { OnOk result (context_of here.new ≡ context_of here.old) }
    ensures ended { IfOk result (λ k. (step : Passing) → Sees view.now.table.now view.now.env.now step
        → k ≡ (member (idle (residing step)) (map (walk step) parts.now) number).ended (context_of here.old) r.now) }
    ensures writes { OnOk result ((step : Passing) → Sees view.now.table.now view.now.env.now step
        → map (written (named view.now.table.now)) out.new.items
        ≡ map (written (named view.now.table.now)) out.old.items
        ++ map Some ((member (idle (residing step)) (map (walk step) parts.now) number).resume (context_of here.old) r.now g)) }
{
    match at(parts, number) {
        Some(part) => resume(view, here, part, r, g, out),
        None => Err(AllocError),
    }
}

/// Resumes those members in which control rests.
#[cycle(resumes)]
fn resume_parallel(
    view: &View,
    here: &mut Here,
    parts: &[Stmt],
    r: &Residual,
    g: Know,
    out: &mut Vec<Write>,
) -> Result<Know, AllocError>
    ensures here { OnOk result (context_of here.new ≡ context_of here.old) }
    ensures ended { IfOk result (λ k. (step : Passing) → Sees view.now.table.now view.now.env.now step
        → k ≡ (parallel (residing step) (map (walk step) parts.now)).ended (context_of here.old) r.now) }
    ensures writes { OnOk result ((step : Passing) → Sees view.now.table.now view.now.env.now step
        → map (written (named view.now.table.now)) out.new.items
        ≡ map (written (named view.now.table.now)) out.old.items
        ++ map Some ((parallel (residing step) (map (walk step) parts.now)).resume (context_of here.old) r.now g)) }
{
    let mut so_far = yes();
    let mut others = branches(r);
    for part in parts {
        match others.split_first() {
            None => return Ok(so_far),
            Some((branch, rest)) => {
                so_far = resume_branch(view, here, part, branch, g, so_far, out)?;
                others = rest;
            }
        }
    }
    Ok(so_far)
}

/// Resumes a member if control rests in it.
#[cycle(resumes)]
fn resume_branch(
    view: &View,
    here: &mut Here,
    part: &Stmt,
    branch: &Option<Residual>,
    g: Know,
    so_far: Know,
    out: &mut Vec<Write>,
) -> Result<Know, AllocError>
    ensures here { OnOk result (context_of here.new ≡ context_of here.old) }
    ensures ended { IfOk result (λ k. (step : Passing) → Sees view.now.table.now view.now.env.now step
        → k ≡ ended_of_all (context_of here.old) (resting (walk step part.now ∷ []) (branch.now ∷ [])) so_far) }
    ensures writes { OnOk result ((step : Passing) → Sees view.now.table.now view.now.env.now step
        → map (written (named view.now.table.now)) out.new.items
        ≡ map (written (named view.now.table.now)) out.old.items
        ++ map Some (flat_map (λ (one : Walk × Residual). one.0.resume (context_of here.old) one.1 g) (resting (walk step part.now ∷ []) (branch.now ∷ [])))) }
{
    match branch {
        None => Ok(so_far),
        Some(r) => {
            let ended = resume(view, here, part, r, g, out)?;
            and(so_far, ended)
        }
    }
}

/// Resumes the body of a loop, and starts it where the loop turns.
#[cycle(resumes)]
fn resume_loop(
    view: &View,
    here: &mut Here,
    body: &Stmt,
    number: u32,
    condition: &Expr,
    r: &Residual,
    g: Know,
    out: &mut Vec<Write>,
) -> Result<Know, AllocError>
    ensures here { OnOk result (context_of here.new ≡ context_of here.old) }
    ensures ended { IfOk result (λ k. (step : Passing) → Sees view.now.table.now view.now.env.now step
        → k ≡ (loop step.now (residing step) number (walk step body.now) condition.now).ended (context_of here.old) r.now) }
    ensures writes { OnOk result ((step : Passing) → Sees view.now.table.now view.now.env.now step
        → map (written (named view.now.table.now)) out.new.items
        ≡ map (written (named view.now.table.now)) out.old.items
        ++ map Some ((loop step.now (residing step) number (walk step body.now) condition.now).resume (context_of here.old) r.now g)) }
{
    let ended = resume(view, here, body, inside_of(r), g, out)?;
    let c = value(view, here, condition)?;
    let guard = guard_of_turn(g, ended, c)?;
    start(view, here, body, guard, Mark::Loop(number), out)?;
    let ends = ended_unless(c, ended)?;
    Ok(ends)
}

/// The guard of a loop's turn.
fn guard_of_turn(g: Know, ended: Know, condition: Know) -> Result<Know, AllocError>
    ensures { IfOk result (λ k. k ≡ both (both g ended) condition) }
{
    let inner = and(g, ended)?;
    and(inner, condition)
}

/// Whether a loop ends: where its body does and the condition doesn't hold.
pub fn ended_unless(condition: Know, ended: Know) -> Result<Know, AllocError>
    ensures { IfOk result (λ k. k ≡ both ended (opposite condition)) }
{
    let others = not(condition)?;
    and(ended, others)
}

/// Resumes the body of an abort.
#[cycle(resumes)]
fn resume_abort(
    view: &View,
    here: &mut Here,
    kind: Kind,
    body: &Stmt,
    condition: &Expr,
    r: &Residual,
    g: Know,
    out: &mut Vec<Write>,
) -> Result<Know, AllocError>
    ensures here { OnOk result (context_of here.new ≡ context_of here.old) }
    ensures ended { IfOk result (λ k. (step : Passing) → Sees view.now.table.now view.now.env.now step
        → k ≡ (abort step.now (residing step) kind (walk step body.now) condition.now).ended (context_of here.old) r.now) }
    ensures writes { OnOk result ((step : Passing) → Sees view.now.table.now view.now.env.now step
        → map (written (named view.now.table.now)) out.new.items
        ≡ map (written (named view.now.table.now)) out.old.items
        ++ map Some ((abort step.now (residing step) kind (walk step body.now) condition.now).resume (context_of here.old) r.now g)) }
{
    let c = value(view, here, condition)?;
    let guard = guard_of_body(kind, c, g)?;
    let ended = resume(view, here, body, inside_of(r), guard, out)?;
    or(c, ended)
}

/// Resumes the body of a suspend, or starts it from the hold place.
#[cycle(resumes)]
fn resume_suspend(
    view: &View,
    here: &mut Here,
    kind: Kind,
    hold: Option<u32>,
    body: &Stmt,
    condition: &Expr,
    r: &Residual,
    g: Know,
    out: &mut Vec<Write>,
) -> Result<Know, AllocError>
    ensures here { OnOk result (context_of here.new ≡ context_of here.old) }
    ensures ended { IfOk result (λ k. (step : Passing) → Sees view.now.table.now view.now.env.now step
        → k ≡ (suspend step.now (residing step) kind hold (walk step body.now) condition.now).ended (context_of here.old) r.now) }
    ensures writes { OnOk result ((step : Passing) → Sees view.now.table.now view.now.env.now step
        → map (written (named view.now.table.now)) out.new.items
        ≡ map (written (named view.now.table.now)) out.old.items
        ++ map Some ((suspend step.now (residing step) kind hold (walk step body.now) condition.now).resume (context_of here.old) r.now g)) }
{
    if is_at_hold(r) {
        start_suspend(view, here, kind, body, condition, g, Mark::Zero, out)
    } else {
        let c = value(view, here, condition)?;
        let guard = guard_of_body(kind, c, g)?;
        let ended = resume(view, here, body, inside_of(r), guard, out)?;
        unless(c, ended)
    }
}

/// Resumes a scope, whose locals keep their instances with mark zero.
#[cycle(resumes)]
fn resume_scope(
    view: &View,
    here: &mut Here,
    body: &Stmt,
    locals: &[u32],
    r: &Residual,
    g: Know,
    out: &mut Vec<Write>,
) -> Result<Know, AllocError>
    ensures here { OnOk result (context_of here.new ≡ context_of here.old) }
    ensures ended { IfOk result (λ k. (step : Passing) → Sees view.now.table.now view.now.env.now step
        → k ≡ (scope (residing step) locals.now (walk step body.now)).ended (context_of here.old) r.now) }
    ensures writes { OnOk result ((step : Passing) → Sees view.now.table.now view.now.env.now step
        → map (written (named view.now.table.now)) out.new.items
        ≡ map (written (named view.now.table.now)) out.old.items
        ++ map Some ((scope (residing step) locals.now (walk step body.now)).resume (context_of here.old) r.now g)) }
{
    if !here.is_outside(locals) {
        return Err(AllocError);
    }
    resume(view, here, body, inside_of(r), g, out)
}

/// Resumes a callee's body, with its arguments bound.
#[cycle(resumes)]
fn resume_bound(
    view: &View,
    here: &mut Here,
    body: &Stmt,
    bindings: &[Binding],
    r: &Residual,
    g: Know,
    out: &mut Vec<Write>,
) -> Result<Know, AllocError>
    ensures here { OnOk result (context_of here.new ≡ context_of here.old) }
    ensures ended { IfOk result (λ k. (step : Passing) → Sees view.now.table.now view.now.env.now step
        → k ≡ (bound_body step.now bindings.now (walk step body.now)).ended (context_of here.old) r.now) }
    ensures writes { OnOk result ((step : Passing) → Sees view.now.table.now view.now.env.now step
        → map (written (named view.now.table.now)) out.new.items
        ≡ map (written (named view.now.table.now)) out.old.items
        ++ map Some ((bound_body step.now bindings.now (walk step body.now)).resume (context_of here.old) r.now g)) }
{
    bind(view, here, bindings)?;
    let ended = resume(view, here, body, r, g, out)?;
    unbind(here, bindings)?;
    Ok(ended)
}
