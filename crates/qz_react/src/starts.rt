//! The start walk: what a statement does when it is started.

ghost use Rattle.std.specs.Prelude.{◌≡◌, ◌++◌, map, Some, IfOk, OnOk};
ghost use Rattle.qz_values.specs.Knowledge.{both, either, opposite};
ghost use Rattle.qz_meaning.specs.Scenes.{Passing};
ghost use Rattle.qz_meaning.specs.Expressions.{value_here};
ghost use Rattle.qz_meaning.specs.Sequences.{start_in_turn, ends_of_all};
ghost use Rattle.qz_meaning.specs.Simple.{assignment};
ghost use Rattle.qz_meaning.specs.Parallels.{parallel};
ghost use Rattle.qz_meaning.specs.Aborts.{abort, body_guard};
ghost use Rattle.qz_meaning.specs.Suspends.{ends_on_start, acts_on_start};
ghost use Rattle.qz_meaning.specs.Scopes.{scope};
ghost use Rattle.qz_meaning.specs.Calls.{bound_body};
ghost use Rattle.qz_meaning.specs.Residing.{residing, walk};
ghost use Rattle.qz_syntax.specs.declared.places.Mark.TheVariants.{Zero};
ghost use Rattle.qz_values.specs.Values.{yes};
ghost use Rattle.qz_react.specs.Contexts.{context_of};
ghost use Rattle.qz_react.specs.Seeing.{Sees, named, written};

use crate::bindings::{bind, unbind};
use crate::environments::Write;
use crate::expressions::{View, number_here, value};
use crate::here::Here;
use crate::operators::{and, no, not, or, yes};
use qz_syntax::{Binding, Expr, Kind, Mark, Stmt, Var};
use qz_values::Know;
use std::alloc::AllocError;

/// Starts a statement with a guard and a mark: appends its writes, and answers whether it ends.
#[cycle(starts)]
pub fn start(
    view: &View,
    here: &mut Here,
    s: &Stmt,
    g: Know,
    m: Mark,
    out: &mut Vec<Write>,
) -> Result<Know, AllocError>
    ensures here { OnOk result (context_of here.new ≡ context_of here.old) }
    ensures ends { IfOk result (λ k. (step : Passing) → Sees view.now.table.now view.now.env.now step → k ≡ (walk step s.now).ends (context_of here.old) m) }
    ensures writes { OnOk result ((step : Passing) → Sees view.now.table.now view.now.env.now step
        → map (written (named view.now.table.now)) out.new.items
        ≡ map (written (named view.now.table.now)) out.old.items ++ map Some ((walk step s.now).start (context_of here.old) g m)) }
{
    match s {
        Stmt::Nothing | Stmt::Call(..) => Ok(yes()),
        Stmt::Assign(target, e) => assign(view, here, *target, false, e, g, out),
        Stmt::Delayed(target, e) => assign(view, here, *target, true, e, g, out),
        Stmt::Pause(_) => Ok(no()),
        Stmt::Seq(parts) => start_parts(view, here, parts.as_slice(), g, yes(), m, out),
        Stmt::Par(parts) => start_all(view, here, parts.as_slice(), g, m, out),
        Stmt::If(condition, first, second) => {
            let sides = guards_of_sides(view, here, condition, g)?;
            let first_ends = start(view, here, first.get(), sides.first, m, out)?;
            let second_ends = start(view, here, second.get(), sides.second, m, out)?;
            chosen_ends(sides.condition, first_ends, second_ends)
        }
        Stmt::Loop(_, body, _) => {
            start(view, here, body.get(), g, m, out)?;
            Ok(no())
        }
        Stmt::Abort(kind, body, condition) => start_abort(
            view,
            here,
            *kind,
            body.get(),
            condition,
            g,
            m,
            out,
        ),
        Stmt::Suspend(kind, _, body, condition) => start_suspend(
            view,
            here,
            *kind,
            body.get(),
            condition,
            g,
            m,
            out,
        ),
        Stmt::Scope(locals, body) => start_scope(
            view,
            here,
            body.get(),
            locals.as_slice(),
            g,
            m,
            out,
        ),
        Stmt::Bind(bindings, body) => start_bound(
            view,
            here,
            body.get(),
            bindings.as_slice(),
            g,
            m,
            out,
        ),
    }
}

/// Appends one write, which ends at once.
fn assign(
    view: &View,
    here: &Here,
    target: Var,
    delayed: bool,
    e: &Expr,
    g: Know,
    out: &mut Vec<Write>,
) -> Result<Know, AllocError>
    ensures ends { IfOk result (λ k. k ≡ Know.Known yes) }
    ensures writes { OnOk result ((step : Passing) → Sees view.now.table.now view.now.env.now step
        → map (written (named view.now.table.now)) out.new.items
        ≡ map (written (named view.now.table.now)) out.old.items
        ++ map Some ((assignment step.now (residing step) delayed target e.now).start (context_of here.now) g Zero)) }
{
    let value = value(view, here, e)?;
    let instance = number_here(view, here, target)?;
    out.push(Write {
        instance,
        delayed,
        guard: g,
        value,
    })?;
    Ok(yes())
}

/// Starts some members, each one with the guard and the ends of those before it.
#[cycle(starts)]
pub fn start_parts(
    view: &View,
    here: &mut Here,
    parts: &[Stmt],
    g: Know,
    so_far: Know,
    m: Mark,
    out: &mut Vec<Write>,
) -> Result<Know, AllocError>
    ensures here { OnOk result (context_of here.new ≡ context_of here.old) }
    ensures ends { IfOk result (λ k. (step : Passing) → Sees view.now.table.now view.now.env.now step
        → k ≡ ends_of_all (context_of here.old) (map (walk step) parts.now) so_far m) }
    ensures writes { OnOk result ((step : Passing) → Sees view.now.table.now view.now.env.now step
        → map (written (named view.now.table.now)) out.new.items
        ≡ map (written (named view.now.table.now)) out.old.items ++ map Some (start_in_turn (context_of here.old) (map (walk step) parts.now) g m)) }
{
    let mut guard = g;
    let mut so_far = so_far;
    for part in parts {
        let ends = start(view, here, part, guard, m, out)?;
        so_far = and(so_far, ends)?;
        guard = and(guard, ends)?;
    }
    Ok(so_far)
}

/// Starts all members with the same guard.
#[cycle(starts)]
fn start_all(
    view: &View,
    here: &mut Here,
    parts: &[Stmt],
    g: Know,
    m: Mark,
    out: &mut Vec<Write>,
) -> Result<Know, AllocError>
    ensures here { OnOk result (context_of here.new ≡ context_of here.old) }
    ensures ends { IfOk result (λ k. (step : Passing) → Sees view.now.table.now view.now.env.now step
        → k ≡ (parallel (residing step) (map (walk step) parts.now)).ends (context_of here.old) m) }
    ensures writes { OnOk result ((step : Passing) → Sees view.now.table.now view.now.env.now step
        → map (written (named view.now.table.now)) out.new.items
        ≡ map (written (named view.now.table.now)) out.old.items
        ++ map Some ((parallel (residing step) (map (walk step) parts.now)).start (context_of here.old) g m)) }
{
    let mut so_far = yes();
    for part in parts {
        let ends = start(view, here, part, g, m, out)?;
        so_far = and(so_far, ends)?;
    }
    Ok(so_far)
}

/// What is known of a condition, and the guards of what is done where it holds and where it
/// doesn't.
#[derive(Clone, Copy, Debug, PartialEq, Eq)]
pub struct Sides {
    pub condition: Know,
    pub first: Know,
    pub second: Know,
}

/// The guards of the sides of an `if`.
fn guards_of_sides(view: &View, here: &Here, condition: &Expr, g: Know) -> Result<Sides, AllocError>
    ensures { IfOk result (λ sides. (step : Passing) → Sees view.now.table.now view.now.env.now step
        → sides ≡ record {
          condition = value_here step.now (context_of here.now) condition.now;
          first = both g (value_here step.now (context_of here.now) condition.now);
          second = both g (opposite (value_here step.now (context_of here.now) condition.now));
        }) }
{
    let condition = value(view, here, condition)?;
    let first = and(g, condition)?;
    let others = not(condition)?;
    let second = and(g, others)?;
    Ok(Sides {
        condition,
        first,
        second,
    })
}

/// Whether an `if` ends, by its condition and its sides.
pub fn chosen_ends(c: Know, first: Know, second: Know) -> Result<Know, AllocError>
    ensures { IfOk result (λ k. k ≡ either (both c first) (both (opposite c) second)) }
{
    let others = not(c)?;
    let a = and(c, first)?;
    let b = and(others, second)?;
    or(a, b)
}

/// Starts the body of an abort.
#[cycle(starts)]
fn start_abort(
    view: &View,
    here: &mut Here,
    kind: Kind,
    body: &Stmt,
    condition: &Expr,
    g: Know,
    m: Mark,
    out: &mut Vec<Write>,
) -> Result<Know, AllocError>
    ensures here { OnOk result (context_of here.new ≡ context_of here.old) }
    ensures ends { IfOk result (λ k. (step : Passing) → Sees view.now.table.now view.now.env.now step
        → k ≡ (abort step.now (residing step) kind (walk step body.now) condition.now).ends (context_of here.old) m) }
    ensures writes { OnOk result ((step : Passing) → Sees view.now.table.now view.now.env.now step
        → map (written (named view.now.table.now)) out.new.items
        ≡ map (written (named view.now.table.now)) out.old.items
        ++ map Some ((abort step.now (residing step) kind (walk step body.now) condition.now).start (context_of here.old) g m)) }
{
    if kind.immediate {
        let c = value(view, here, condition)?;
        let guard = guard_of_body(kind, c, g)?;
        let ends = start(view, here, body, guard, m, out)?;
        or(c, ends)
    } else {
        start(view, here, body, g, m, out)
    }
}

/// The guard of a preempted body: a strong preemption lets it act only where the condition doesn't
/// hold.
pub fn guard_of_body(kind: Kind, condition: Know, g: Know) -> Result<Know, AllocError>
    ensures { IfOk result (λ k. k ≡ body_guard kind condition g) }
{
    if kind.weak {
        Ok(g)
    } else {
        let others = not(condition)?;
        and(g, others)
    }
}

/// Starts the body of a suspend.
#[cycle(starts)]
pub fn start_suspend(
    view: &View,
    here: &mut Here,
    kind: Kind,
    body: &Stmt,
    condition: &Expr,
    g: Know,
    m: Mark,
    out: &mut Vec<Write>,
) -> Result<Know, AllocError>
    ensures here { OnOk result (context_of here.new ≡ context_of here.old) }
    ensures ends { IfOk result (λ k. (step : Passing) → Sees view.now.table.now view.now.env.now step
        → k ≡ ends_on_start step.now kind (walk step body.now) condition.now (context_of here.old) m) }
    ensures writes { OnOk result ((step : Passing) → Sees view.now.table.now view.now.env.now step
        → map (written (named view.now.table.now)) out.new.items
        ≡ map (written (named view.now.table.now)) out.old.items
        ++ map Some (acts_on_start step.now kind (walk step body.now) condition.now (context_of here.old) g m)) }
{
    if kind.immediate {
        let c = value(view, here, condition)?;
        let guard = guard_of_body(kind, c, g)?;
        let ends = start(view, here, body, guard, m, out)?;
        unless(c, ends)
    } else {
        start(view, here, body, g, m, out)
    }
}

/// What holds where the condition doesn't.
pub fn unless(condition: Know, k: Know) -> Result<Know, AllocError>
    ensures { IfOk result (λ r. r ≡ both (opposite condition) k) }
{
    let others = not(condition)?;
    and(others, k)
}

/// Starts a scope, whose locals have new instances.
#[cycle(starts)]
#[tactic(auto, using(crate::proofs::Placing::left))]
fn start_scope(
    view: &View,
    here: &mut Here,
    body: &Stmt,
    locals: &[u32],
    g: Know,
    m: Mark,
    out: &mut Vec<Write>,
) -> Result<Know, AllocError>
    ensures here { OnOk result (context_of here.new ≡ context_of here.old) }
    ensures ends { IfOk result (λ k. (step : Passing) → Sees view.now.table.now view.now.env.now step
        → k ≡ (scope (residing step) locals.now (walk step body.now)).ends (context_of here.old) m) }
    ensures writes { OnOk result ((step : Passing) → Sees view.now.table.now view.now.env.now step
        → map (written (named view.now.table.now)) out.new.items
        ≡ map (written (named view.now.table.now)) out.old.items
        ++ map Some ((scope (residing step) locals.now (walk step body.now)).start (context_of here.old) g m)) }
{
    if !here.is_outside(locals) {
        return Err(AllocError);
    }
    here.set_marks(locals, m)?;
    let ends = start(view, here, body, g, m, out)?;
    here.set_marks(locals, Mark::Zero)?;
    Ok(ends)
}

/// Starts a callee's body, with its arguments bound.
#[cycle(starts)]
fn start_bound(
    view: &View,
    here: &mut Here,
    body: &Stmt,
    bindings: &[Binding],
    g: Know,
    m: Mark,
    out: &mut Vec<Write>,
) -> Result<Know, AllocError>
    ensures here { OnOk result (context_of here.new ≡ context_of here.old) }
    ensures ends { IfOk result (λ k. (step : Passing) → Sees view.now.table.now view.now.env.now step
        → k ≡ (bound_body step.now bindings.now (walk step body.now)).ends (context_of here.old) m) }
    ensures writes { OnOk result ((step : Passing) → Sees view.now.table.now view.now.env.now step
        → map (written (named view.now.table.now)) out.new.items
        ≡ map (written (named view.now.table.now)) out.old.items
        ++ map Some ((bound_body step.now bindings.now (walk step body.now)).start (context_of here.old) g m)) }
{
    bind(view, here, bindings)?;
    let ends = start(view, here, body, g, m, out)?;
    unbind(here, bindings)?;
    Ok(ends)
}
