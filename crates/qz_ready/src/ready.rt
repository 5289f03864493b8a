//! Whether statements can be compiled.

ghost use Rattle.std.specs.Prelude.{◌≡◌, map};
ghost use Rattle.std.specs.List.{list_all};
ghost use Rattle.qz_values.specs.Types.{is_bool};
ghost use Rattle.qz_syntax.specs.Typing.{agree};
ghost use Rattle.qz_syntax.specs.Sound.{is_hold_of};
ghost use Rattle.qz_control.specs.Typed.{declared_type, expr_type};
ghost use Rattle.qz_control.specs.Ready.{is_test, is_ready};

use crate::expressions::{type_of, type_of_variable};
use qz_syntax::{Expr, Kind, Module, Stmt, Var};
use qz_values::{Ty, is_same_type};

/// Whether a statement of a module can be compiled.
#[cycle(ready)]
pub fn is_ready(owner: &Module, s: &Stmt) -> bool
    ensures { result ≡ is_ready owner.now s.now }
{
    match s {
        Stmt::Nothing | Stmt::Pause(_) => true,
        Stmt::Assign(target, value) | Stmt::Delayed(target, value) => is_assignment(
            owner, *target, value,
        ),
        Stmt::Seq(parts) | Stmt::Par(parts) => are_ready(owner, parts.as_slice()),
        Stmt::If(condition, first, second) => is_test(owner, condition)
            && (is_ready(owner, first.get()) && is_ready(owner, second.get())),
        Stmt::Loop(_, body, condition) | Stmt::Abort(_, body, condition) => is_test(
            owner, condition,
        ) && is_ready(owner, body.get()),
        Stmt::Suspend(kind, hold, body, condition) => is_hold(*kind, *hold)
            && (is_test(owner, condition) && is_ready(owner, body.get())),
        Stmt::Scope(_, body) => is_ready(owner, body.get()),
        Stmt::Call(..) | Stmt::Bind(..) => false,
    }
}

/// Whether each of some statements can be compiled.
#[cycle(ready)]
fn are_ready(owner: &Module, parts: &[Stmt]) -> bool
    ensures { result ≡ list_all (λ part. part) (map (is_ready owner.now) parts.now) }
{
    for part in parts {
        if !is_ready(owner, part) {
            return false;
        }
    }
    true
}

/// Whether a condition is a bool.
fn is_test(owner: &Module, condition: &Expr) -> bool
    ensures { result ≡ is_test owner.now condition.now }
{
    match type_of(owner, condition) {
        Some(ty) => is_bool(ty),
        None => false,
    }
}

/// Whether a value has its target's type.
fn is_assignment(owner: &Module, target: Var, value: &Expr) -> bool
    ensures { result ≡ agree (declared_type owner.now target) (expr_type owner.now value.now) }
{
    are_alike(type_of_variable(owner, target), type_of(owner, value))
}

/// Whether there are two types and they are one.
fn are_alike(a: Option<Ty>, b: Option<Ty>) -> bool
    ensures { result ≡ agree a b }
{
    match a {
        Some(s) => match b {
            Some(t) => is_same_type(s, t),
            None => false,
        },
        None => false,
    }
}

/// Whether a suspend has a hold place exactly where it is immediate.
fn is_hold(kind: Kind, hold: Option<u32>) -> bool
    ensures { result ≡ is_hold_of kind hold }
{
    match hold {
        Some(_) => kind.immediate,
        None => !kind.immediate,
    }
}

/// Whether a type is `bool`.
fn is_bool(ty: Ty) -> bool
    ensures { result ≡ is_bool ty }
{
    match ty {
        Ty::Bool => true,
        Ty::Bv(_) => false,
    }
}
