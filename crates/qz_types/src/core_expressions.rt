//! Expressions as they are in the core tree.

ghost use Rattle.std.specs.Prelude.{◌≡◌, IfOk};
ghost use Rattle.qz_types.specs.Scopes.{meanings_of};
ghost use Rattle.qz_types.specs.CoreExpressions.{core_type, core_variable, literal_value, core_index, core_selection, core_expression};

use crate::expressions::{type_of_text, vectors};
use crate::scope::Scope;
use qz_syntax::{Expr, FileExpr, Name, TypeText, Var};
use qz_values::{Op1, Op2, Ty, Value};
use sqlite_items::Boxed;
use std::alloc::{AllocError, Global};

/// An expression in the core tree.
pub(crate) fn expression(
    alloc: Global,
    names: &Scope<Var>,
    e: &FileExpr,
) -> Result<Expr, AllocError>
    ensures { IfOk result (λ core. core ≡ core_expression (meanings_of names.now) e.now) }
{
    match e {
        FileExpr::Bool { value, .. } => Ok(Expr::Lit(Value::truth(*value))),
        FileExpr::Lit { width, value, .. } => Ok(Expr::Lit(literal(*width, *value))),
        FileExpr::Name(name) => Ok(Expr::Var(variable(names, &name.name))),
        FileExpr::Paren { inner, .. } => expression(alloc, names, inner.get()),
        FileExpr::Un { op, arg, .. } => {
            let a = expression(alloc, names, arg.get())?;
            one(alloc, *op, a)
        }
        FileExpr::Bin {
            op,
            left,
            right,
            ..
        } => {
            let a = expression(alloc, names, left.get())?;
            let b = expression(alloc, names, right.get())?;
            two(alloc, *op, a, b)
        }
        FileExpr::Choose { cond, yes, no, .. } => {
            let c = expression(alloc, names, cond.get())?;
            let a = expression(alloc, names, yes.get())?;
            let b = expression(alloc, names, no.get())?;
            choice(alloc, c, a, b)
        }
        FileExpr::Select { arg, high, low, .. } => {
            let a = expression(alloc, names, arg.get())?;
            selection(alloc, a, *high, *low)
        }
        FileExpr::Concat { left, right, .. } => {
            let a = expression(alloc, names, left.get())?;
            let b = expression(alloc, names, right.get())?;
            joined(alloc, a, b)
        }
    }
}

/// The type that is written.
pub(crate) fn core_type(text: TypeText) -> Ty
    ensures { result ≡ core_type text }
{
    match type_of_text(text) {
        Some(ty) => ty,
        None => Ty::Bool,
    }
}

/// The variable that a name stands for.
pub(crate) fn variable(names: &Scope<Var>, name: &Name) -> Var
    ensures { result ≡ core_variable (meanings_of names.now) name.now }
{
    match names.get(name) {
        Some(variable) => variable,
        None => Var::Formal(0),
    }
}

/// The value of a literal.
fn literal(width: u128, value: u128) -> Value
    ensures { result ≡ literal_value width value }
{
    let Some(ty) = vectors(width) else {
        return Value::truth(false);
    };
    let Ok(bits) = u64::try_from(value) else {
        return Value::truth(false);
    };
    match Value::new(ty, bits) {
        Some(value) => value,
        None => Value::truth(false),
    }
}

/// An index, which is a byte.
fn index(index: u128) -> u8
    ensures { result ≡ core_index index }
{
    match u8::try_from(index) {
        Ok(index) => index,
        Err(_) => 0,
    }
}

pub(crate) fn one(alloc: Global, op: Op1, a: Expr) -> Result<Expr, AllocError>
    ensures { IfOk result (λ core. core ≡ Expr.Un op a) }
{
    Ok(Expr::Un(op, Boxed::new(alloc, a)?))
}

fn two(alloc: Global, op: Op2, a: Expr, b: Expr) -> Result<Expr, AllocError>
    ensures { IfOk result (λ core. core ≡ Expr.Bin op a b) }
{
    let a = Boxed::new(alloc, a)?;
    let b = Boxed::new(alloc, b)?;
    Ok(Expr::Bin(op, a, b))
}

fn choice(alloc: Global, c: Expr, a: Expr, b: Expr) -> Result<Expr, AllocError>
    ensures { IfOk result (λ core. core ≡ Expr.Choose c a b) }
{
    let c = Boxed::new(alloc, c)?;
    let a = Boxed::new(alloc, a)?;
    let b = Boxed::new(alloc, b)?;
    Ok(Expr::Choose(c, a, b))
}

fn selection(alloc: Global, a: Expr, high: u128, low: Option<u128>) -> Result<Expr, AllocError>
    ensures { IfOk result (λ core. core ≡ core_selection a high low) }
{
    let a = Boxed::new(alloc, a)?;
    match low {
        None => Ok(Expr::Bit(a, index(high))),
        Some(low) => Ok(Expr::Slice(a, index(high), index(low))),
    }
}

fn joined(alloc: Global, a: Expr, b: Expr) -> Result<Expr, AllocError>
    ensures { IfOk result (λ core. core ≡ Expr.Concat a b) }
{
    let a = Boxed::new(alloc, a)?;
    let b = Boxed::new(alloc, b)?;
    Ok(Expr::Concat(a, b))
}
