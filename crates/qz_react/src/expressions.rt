//! What is known of an expression's value.

ghost use Rattle.std.specs.Prelude.{◌≡◌, Some, IfOk, IfSome, slice_get};
ghost use Rattle.qz_meaning.specs.Instances.{formal_instance};
ghost use Rattle.qz_meaning.specs.Scenes.{Passing, instance_here};
ghost use Rattle.qz_meaning.specs.Expressions.{known_here, value_here};
ghost use Rattle.qz_react.specs.Contexts.{context_of};
ghost use Rattle.qz_react.specs.Seeing.{Sees, named};

use crate::environments::Env;
use crate::here::Here;
use crate::instances::Instances;
use crate::operators::{binary, bit_in, chosen, joined, slice_in, unary};
use qz_syntax::{Expr, Later, Mark, Var};
use qz_values::Know;
use std::alloc::AllocError;

/// What a walk sees: the numbers of instances, and what is known of them.
#[derive(Clone, Copy)]
pub struct View<'a> {
    pub table: &'a Instances,
    pub env: &'a Env,
}

/// What is known here of an expression's value.
pub fn value(view: &View, here: &Here, e: &Expr) -> Result<Know, AllocError>
    ensures { IfOk result (λ k. (step : Passing) → Sees view.now.table.now view.now.env.now step → k ≡ value_here step.now (context_of here.now) e.now) }
{
    match e {
        Expr::Lit(v) => Ok(Know::Known(*v)),
        Expr::Var(variable) => known(view, here, *variable),
        Expr::Un(op, a) => {
            let a = value(view, here, a.get())?;
            unary(*op, a)
        }
        Expr::Bin(op, a, b) => {
            let a = value(view, here, a.get())?;
            let b = value(view, here, b.get())?;
            binary(*op, a, b)
        }
        Expr::Choose(c, a, b) => {
            let c = value(view, here, c.get())?;
            let a = value(view, here, a.get())?;
            let b = value(view, here, b.get())?;
            chosen(c, a, b)
        }
        Expr::Bit(a, index) => {
            let a = value(view, here, a.get())?;
            bit_in(a, *index)
        }
        Expr::Slice(a, high, low) => {
            let a = value(view, here, a.get())?;
            slice_in(a, *high, *low)
        }
        Expr::Concat(a, b) => {
            let a = value(view, here, a.get())?;
            let b = value(view, here, b.get())?;
            joined(a, b)
        }
    }
}

/// What is known here of a variable.
fn known(view: &View, here: &Here, variable: Var) -> Result<Know, AllocError>
    ensures { IfOk result (λ k. (step : Passing) → Sees view.now.table.now view.now.env.now step → k ≡ known_here step.now (context_of here.now) variable) }
{
    match variable {
        Var::Formal(n) => match input(view, n) {
            Some(k) => Ok(k),
            None => known_instance(view, variable, Mark::Zero),
        },
        Var::Local(n) => known_instance(view, variable, here.mark(n)),
        Var::Bound(n) => Ok(here.argument(n)),
    }
}

/// The value of an input.
fn input(view: &View, formal: u32) -> Option<Know>
    ensures { IfSome result (λ k. (step : Passing) → Sees view.now.table.now view.now.env.now step → k ≡ step.now (formal_instance formal)) }
{
    let place = view.table.input(formal)?;
    let v = view.env.inputs.get(place as usize).copied()?;
    Some(Know::Known(v))
}

/// What is known of an instance.
pub fn known_instance(view: &View, variable: Var, mark: Mark) -> Result<Know, AllocError>
    ensures { IfOk result (λ k. (step : Passing) → Sees view.now.table.now view.now.env.now step → k ≡ step.now (record { variable = variable; mark = mark })) }
{
    match instance(view, variable, mark) {
        Some(k) => Ok(k),
        None => Err(AllocError),
    }
}

/// What is known of an instance, if there is one.
fn instance(view: &View, variable: Var, mark: Mark) -> Option<Know>
    ensures { IfSome result (λ k. (step : Passing) → Sees view.now.table.now view.now.env.now step → k ≡ step.now (record { variable = variable; mark = mark })) }
{
    let place = view.table.number(variable, mark)?;
    let k = view.env.now.get(place as usize).copied()?;
    Some(k)
}

/// The number of the instance that a variable has here.
pub fn number_here(view: &View, here: &Here, variable: Var) -> Result<u32, AllocError>
    ensures { IfOk result (λ k. slice_get (named view.now.table.now) k ≡ Some (instance_here (context_of here.now) variable)) }
{
    let found = match variable {
        Var::Local(n) => view.table.number(variable, here.mark(n)),
        Var::Formal(_) | Var::Bound(_) => view.table.number(variable, Mark::Zero),
    };
    found.ok_or(AllocError)
}

/// What is known of the value that is delayed for an instance to the next step.
pub fn later_instance(view: &View, variable: Var, mark: Mark) -> Result<Later, AllocError>
    ensures { IfOk result (λ k. (step : Passing) → Sees view.now.table.now view.now.env.now step → k ≡ step.later (record { variable = variable; mark = mark })) }
{
    match later_of(view, variable, mark) {
        Some(k) => Ok(k),
        None => Err(AllocError),
    }
}

/// The same, if there is such an instance.
fn later_of(view: &View, variable: Var, mark: Mark) -> Option<Later>
    ensures { IfSome result (λ k. (step : Passing) → Sees view.now.table.now view.now.env.now step → k ≡ step.later (record { variable = variable; mark = mark })) }
{
    let place = view.table.number(variable, mark)?;
    let k = view.env.later.get(place as usize).copied()?;
    Some(k)
}
