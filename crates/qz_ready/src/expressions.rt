//! The types of expressions over the variables of a module, wherever they stand in it.

ghost use Rattle.std.specs.Prelude.{◌≡◌, Option};
ghost use Rattle.std.specs.Option.{option_and_then};
ghost use Rattle.qz_values.specs.Tables.{type1_of, type2_of, choose_type, bit_type, slice_type, concat_type};
ghost use Rattle.qz_syntax.specs.Typing.{literal_type};
ghost use Rattle.qz_nets.specs.Nets.{leaf_type};
ghost use Rattle.qz_control.specs.Typed.{declared_type, expr_type};

use qz_syntax::{Expr, Module, Var};
use qz_values::{
    Op1, Op2, Ty, Value, bit_type, choose_type, concat_type, is_type, slice_type, type1, type2,
};
use sqlite_items::at;

/// The type of an expression, or none where an operand has none or doesn't fit.
#[cycle(types)]
pub fn type_of(owner: &Module, e: &Expr) -> Option<Ty>
    ensures { result ≡ expr_type owner.now e.now }
{
    match e {
        Expr::Lit(value) => type_of_literal(*value),
        Expr::Var(variable) => type_of_variable(owner, *variable),
        Expr::Un(op, a) => of_one(*op, type_of(owner, a.get())),
        Expr::Bin(op, a, b) => of_two(*op, type_of(owner, a.get()), type_of(owner, b.get())),
        Expr::Choose(c, a, b) => of_choice(
            type_of(owner, c.get()),
            type_of(owner, a.get()),
            type_of(owner, b.get()),
        ),
        Expr::Bit(a, index) => of_bit(type_of(owner, a.get()), *index),
        Expr::Slice(a, high, low) => of_slice(type_of(owner, a.get()), *high, *low),
        Expr::Concat(a, b) => of_concat(type_of(owner, a.get()), type_of(owner, b.get())),
    }
}

/// A literal is a value of its type.
fn type_of_literal(value: Value) -> Option<Ty>
    ensures { result ≡ literal_type value }
{
    match Value::new(value.ty(), value.bits()) {
        Some(_) => Some(value.ty()),
        None => None,
    }
}

/// The type that a variable is declared with.
pub(crate) fn type_of_variable(owner: &Module, variable: Var) -> Option<Ty>
    ensures { result ≡ declared_type owner.now variable }
{
    match variable {
        Var::Formal(n) => declared(at(owner.formals.as_slice(), n as usize)?.ty),
        Var::Local(n) => declared(at(owner.decls.as_slice(), n as usize)?.ty),
        Var::Bound(_) => None,
    }
}

fn declared(ty: Ty) -> Option<Ty>
    ensures { result ≡ leaf_type ty }
{
    if is_type(ty) { Some(ty) } else { None }
}

fn of_one(op: Op1, a: Option<Ty>) -> Option<Ty>
    ensures { result ≡ option_and_then (λ s. type1_of op s) a }
{
    match a {
        Some(s) => type1(op, s),
        None => None,
    }
}

fn of_two(op: Op2, a: Option<Ty>, b: Option<Ty>) -> Option<Ty>
    ensures { result ≡ option_and_then (λ s. option_and_then (λ t. type2_of op s t) b) a }
{
    match a {
        Some(s) => match b {
            Some(t) => type2(op, s, t),
            None => None,
        },
        None => None,
    }
}

fn of_choice(c: Option<Ty>, a: Option<Ty>, b: Option<Ty>) -> Option<Ty>
    ensures { result ≡ option_and_then (λ r. option_and_then (λ s. option_and_then (λ t. choose_type r s t) b) a) c }
{
    match c {
        Some(r) => of_sides(r, a, b),
        None => None,
    }
}

fn of_sides(r: Ty, a: Option<Ty>, b: Option<Ty>) -> Option<Ty>
    ensures { result ≡ option_and_then (λ s. option_and_then (λ t. choose_type r s t) b) a }
{
    match a {
        Some(s) => match b {
            Some(t) => choose_type(r, s, t),
            None => None,
        },
        None => None,
    }
}

fn of_bit(a: Option<Ty>, index: u8) -> Option<Ty>
    ensures { result ≡ option_and_then (λ s. bit_type s index) a }
{
    match a {
        Some(s) => bit_type(s, index),
        None => None,
    }
}

fn of_slice(a: Option<Ty>, high: u8, low: u8) -> Option<Ty>
    ensures { result ≡ option_and_then (λ s. slice_type s high low) a }
{
    match a {
        Some(s) => slice_type(s, high, low),
        None => None,
    }
}

fn of_concat(a: Option<Ty>, b: Option<Ty>) -> Option<Ty>
    ensures { result ≡ option_and_then (λ s. option_and_then (λ t. concat_type s t) b) a }
{
    match a {
        Some(s) => match b {
            Some(t) => concat_type(s, t),
            None => None,
        },
        None => None,
    }
}
