//! The forms of statements in the core tree, made of what was made for their parts.

ghost use Rattle.std.specs.Prelude.{◌≡◌, ◌<◌, List, [], ◌∷◌, length, None, IfOk, OnOk, if◌then◌else◌};
ghost use Rattle.qz_syntax.specs.declared.expressions.Expr.TheVariants as expr;
ghost use Rattle.qz_syntax.specs.declared.statements.Stmt.TheVariants as core;
ghost use Rattle.qz_syntax.specs.declared.statements.Stmt.{Stmt as Tree};
ghost use Rattle.qz_values.specs.Values.{yes};
ghost use Rattle.qz_types.specs.Scopes.{meanings_of};
ghost use Rattle.qz_types.specs.CoreExpressions.{core_expression};
ghost use Rattle.qz_types.specs.Makers.{listed, with_place, with_loop};
ghost use Rattle.qz_types.specs.CoreStatements.{holds, fails, label_name, assigned, awaiting, awaiting_now, scoped, strong};

use crate::core_expressions::{expression, one, variable};
use crate::numbers::Numbers;
use crate::scope::Scope;
use qz_syntax::{Cond, Expr, FileExpr, Kind, Name, NameAt, Stmt, Target, Var};
use qz_values::{Op1, Value};
use sqlite_items::{Boxed, Items};
use std::alloc::{AllocError, Global};

/// A condition.
pub(crate) fn holds(alloc: Global, names: &Scope<Var>, cond: &Cond) -> Result<Expr, AllocError>
    ensures { IfOk result (λ e. e ≡ holds cond.now (meanings_of names.now)) }
{
    expression(alloc, names, &cond.expr)
}

/// A condition that doesn't hold.
fn fails(alloc: Global, names: &Scope<Var>, cond: &Cond) -> Result<Expr, AllocError>
    ensures { IfOk result (λ e. e ≡ fails cond.now (meanings_of names.now)) }
{
    let condition = holds(alloc, names, cond)?;
    one(alloc, Op1::Not, condition)
}

/// The condition `true`, which is also what `emit` gives.
pub(crate) fn always() -> Expr
    ensures { result ≡ expr.Lit yes }
{
    Expr::Lit(Value::truth(true))
}

/// An assignment of a value, in this step or to the next one.
pub(crate) fn assigned(names: &Scope<Var>, target: &Target, value: Expr) -> Stmt
    ensures { result ≡ assigned target.now value (meanings_of names.now) }
{
    let written = variable(names, &target.name.name);
    if target.next {
        Stmt::Delayed(written, value)
    } else {
        Stmt::Assign(written, value)
    }
}

/// An assignment.
pub(crate) fn assignment(
    alloc: Global,
    names: &Scope<Var>,
    target: &Target,
    value: &FileExpr,
) -> Result<Stmt, AllocError>
    ensures { IfOk result (λ s. s ≡ assigned target.now (core_expression (meanings_of names.now) value.now) (meanings_of names.now)) }
{
    let value = expression(alloc, names, value)?;
    Ok(assigned(names, target, value))
}

/// `l: pause;`
pub(crate) fn pausing(numbers: &mut Numbers, label: &Option<NameAt>) -> Result<Stmt, AllocError>
    ensures tree { IfOk result (λ s. s ≡ core.Pause (length numbers.old.labels)) }
    ensures next { OnOk result (numbers.new ≡ with_place numbers.old (label_name label.now)) }
{
    let label = label_name(label)?;
    let place = numbers.place(label)?;
    Ok(Stmt::Pause(place))
}

fn label_name(label: &Option<NameAt>) -> Result<Option<Name>, AllocError>
    ensures { IfOk result (λ name. name ≡ label_name label.now) }
{
    match label {
        Some(label) => Ok(Some(label.name.clone()?)),
        None => Ok(None),
    }
}

/// `do S while(e);` as the loop of a number.
pub(crate) fn repeated(
    alloc: Global,
    number: u32,
    body: Stmt,
    condition: Expr,
) -> Result<Stmt, AllocError>
    ensures { IfOk result (λ s. s ≡ core.Loop number body condition) }
{
    let body = Boxed::new(alloc, body)?;
    Ok(Stmt::Loop(number, body, condition))
}

/// `if(e) S else T`
pub(crate) fn branching(
    alloc: Global,
    names: &Scope<Var>,
    cond: &Cond,
    first: Stmt,
    second: Stmt,
) -> Result<Stmt, AllocError>
    ensures { IfOk result (λ s. s ≡ core.If (holds cond.now (meanings_of names.now)) first second) }
{
    let condition = holds(alloc, names, cond)?;
    branched(alloc, condition, first, second)
}

fn branched(alloc: Global, condition: Expr, first: Stmt, second: Stmt) -> Result<Stmt, AllocError>
    ensures { IfOk result (λ s. s ≡ core.If condition first second) }
{
    let first = Boxed::new(alloc, first)?;
    let second = Boxed::new(alloc, second)?;
    Ok(Stmt::If(condition, first, second))
}

/// `abort S when(e);`
pub(crate) fn aborted(
    alloc: Global,
    kind: Kind,
    body: Stmt,
    condition: Expr,
) -> Result<Stmt, AllocError>
    ensures { IfOk result (λ s. s ≡ core.Abort kind body condition) }
{
    let body = Boxed::new(alloc, body)?;
    Ok(Stmt::Abort(kind, body, condition))
}

/// `suspend S when(e);` with its hold place.
pub(crate) fn suspended(
    alloc: Global,
    kind: Kind,
    hold: Option<u32>,
    body: Stmt,
    condition: Expr,
) -> Result<Stmt, AllocError>
    ensures { IfOk result (λ s. s ≡ core.Suspend kind hold body condition) }
{
    let body = Boxed::new(alloc, body)?;
    Ok(Stmt::Suspend(kind, hold, body, condition))
}

/// `l: halt;`
pub(crate) fn halting(
    alloc: Global,
    numbers: &mut Numbers,
    label: &Option<NameAt>,
) -> Result<Stmt, AllocError>
    ensures tree { IfOk result (λ s. s ≡ core.Loop numbers.old.loops (core.Pause (length numbers.old.labels)) (expr.Lit yes)) }
    ensures next { OnOk result (numbers.new ≡ with_place (with_loop numbers.old) (label_name label.now)) }
{
    let number = numbers.a_loop()?;
    let body = pausing(numbers, label)?;
    repeated(alloc, number, body, always())
}

/// `l: await(e);`
pub(crate) fn awaiting(
    alloc: Global,
    names: &Scope<Var>,
    numbers: &mut Numbers,
    label: &Option<NameAt>,
    cond: &Cond,
) -> Result<Stmt, AllocError>
    ensures tree { IfOk result (λ s. s ≡ core.Loop numbers.old.loops (core.Pause (length numbers.old.labels)) (fails cond.now (meanings_of names.now))) }
    ensures next { OnOk result (numbers.new ≡ with_place (with_loop numbers.old) (label_name label.now)) }
{
    let number = numbers.a_loop()?;
    let body = pausing(numbers, label)?;
    let condition = fails(alloc, names, cond)?;
    repeated(alloc, number, body, condition)
}

/// `l: immediate await(e);`
fn awaiting_now(
    alloc: Global,
    names: &Scope<Var>,
    numbers: &mut Numbers,
    label: &Option<NameAt>,
    cond: &Cond,
) -> Result<Stmt, AllocError>
    ensures tree { IfOk result (λ s. s ≡ (awaiting_now label.now cond.now (meanings_of names.now) numbers.old).tree) }
    ensures next { OnOk result (numbers.new ≡ (awaiting_now label.now cond.now (meanings_of names.now) numbers.old).next) }
{
    let waiting = awaiting(alloc, names, numbers, label, cond)?;
    let condition = fails(alloc, names, cond)?;
    branched(alloc, condition, waiting, Stmt::Nothing)
}

/// `l: await(e);`, also with `immediate`.
pub(crate) fn await_either(
    alloc: Global,
    names: &Scope<Var>,
    numbers: &mut Numbers,
    label: &Option<NameAt>,
    immediate: bool,
    cond: &Cond,
) -> Result<Stmt, AllocError>
    ensures tree { IfOk result (λ s. s ≡ ((if immediate then awaiting_now label.now cond.now else awaiting label.now cond.now)
        (meanings_of names.now) numbers.old).tree) }
    ensures next { OnOk result (numbers.new ≡ ((if immediate then awaiting_now label.now cond.now else awaiting label.now cond.now)
        (meanings_of names.now) numbers.old).next) }
{
    if immediate {
        awaiting_now(alloc, names, numbers, label, cond)
    } else {
        awaiting(alloc, names, numbers, label, cond)
    }
}

/// `loop abort { S halt; } when(e);` as the loop of a number.
pub(crate) fn restarted(
    alloc: Global,
    numbers: &mut Numbers,
    number: u32,
    body: Stmt,
    condition: Expr,
) -> Result<Stmt, AllocError>
    ensures tree { IfOk result (λ s. s ≡ core.Loop number (core.Abort strong
        (core.Seq (body ∷ (core.Loop numbers.old.loops (core.Pause (length numbers.old.labels)) (expr.Lit yes) ∷ []))) condition) (expr.Lit yes)) }
    ensures next { OnOk result (numbers.new ≡ with_place (with_loop numbers.old) None) }
{
    let halt = halting(alloc, numbers, &None)?;
    let inner = pair(alloc, body, halt)?;
    let strong = Kind {
        weak: false,
        immediate: false,
    };
    let preempted = aborted(alloc, strong, inner, condition)?;
    repeated(alloc, number, preempted, always())
}

/// Two statements, one after the other.
pub(crate) fn pair(alloc: Global, first: Stmt, second: Stmt) -> Result<Stmt, AllocError>
    ensures { IfOk result (λ s. s ≡ core.Seq (first ∷ (second ∷ []))) }
{
    let mut parts = Items::new(alloc);
    parts.push(first)?;
    parts.push(second)?;
    Ok(Stmt::Seq(parts))
}

/// A list of statements, one after the other.
pub(crate) fn in_sequence(parts: Items<Stmt>) -> Stmt
    ensures { result ≡ listed core.Seq parts }
{
    if parts.len() < 2 {
        only(parts)
    } else {
        Stmt::Seq(parts)
    }
}

/// Some lists, all at once.
pub(crate) fn in_parallel(parts: Items<Stmt>) -> Stmt
    ensures { result ≡ listed core.Par parts }
{
    if parts.len() < 2 {
        only(parts)
    } else {
        Stmt::Par(parts)
    }
}

/// The only statement of a list, or `nothing` where there is none.
fn only(mut parts: Items<Stmt>) -> Stmt
    requires { length parts < 2 }
    ensures { (together : List Tree → Tree) → result ≡ listed together parts }
{
    match parts.pop() {
        Some(only) => only,
        None => Stmt::Nothing,
    }
}

/// One scope of some locals, if there are any, round a statement.
pub(crate) fn scoped(alloc: Global, locals: Items<u32>, body: Stmt) -> Result<Stmt, AllocError>
    ensures { IfOk result (λ s. s ≡ scoped locals body) }
{
    if locals.is_empty() {
        Ok(body)
    } else {
        let body = Boxed::new(alloc, body)?;
        Ok(Stmt::Scope(locals, body))
    }
}
