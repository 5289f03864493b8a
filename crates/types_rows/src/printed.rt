//! Core trees as short texts, so that a row can name one.

use qz_syntax::{Arg, Expr, Kind, Module, Stmt, Var};
use qz_values::{Op1, Ty, Value};
use std::alloc::{AllocError, Global};

/// A module's core tree as a text.
pub fn text_of(alloc: Global, m: &Module) -> Result<String, AllocError> {
    let mut out = String::new(alloc);
    module(&mut out, m)?;
    Ok(out)
}

/// A module's body, then the labels of its places and the names of its locals.
fn module(out: &mut String, m: &Module) -> Result<(), AllocError> {
    statement(out, &m.body)?;
    labels(out, m)?;
    locals(out, m)
}

fn labels(out: &mut String, m: &Module) -> Result<(), AllocError> {
    for label in m.labels.as_slice() {
        out.push_str(" ")?;
        match label {
            Some(name) => out.push_str(name.as_str())?,
            None => out.push_str("-")?,
        }
    }
    Ok(())
}

fn locals(out: &mut String, m: &Module) -> Result<(), AllocError> {
    for decl in m.decls.as_slice() {
        out.push_str(" mem ")?;
        out.push_str(decl.name.as_str())?;
    }
    Ok(())
}

/// A statement. Places, loops, locals and calls are shown with their numbers.
#[cycle(printed)]
fn statement(out: &mut String, s: &Stmt) -> Result<(), AllocError> {
    match s {
        Stmt::Nothing => out.push_str("-"),
        Stmt::Assign(target, value) => written(out, *target, " = ", value),
        Stmt::Delayed(target, value) => written(out, *target, " next ", value),
        Stmt::Pause(place) => numbered(out, "p", *place),
        Stmt::Seq(parts) => together(out, "; ", parts.as_slice()),
        Stmt::Par(parts) => together(out, " || ", parts.as_slice()),
        Stmt::If(condition, first, second) => {
            chosen(out, first.get(), condition)?;
            inside(out, second.get())
        }
        Stmt::Loop(number, body, condition) => repeated(out, *number, body.get(), condition),
        Stmt::Abort(kind, body, condition) => aborted(out, *kind, body.get(), condition),
        Stmt::Suspend(kind, hold, body, condition) => {
            suspended(out, *kind, *hold, body.get(), condition)
        }
        Stmt::Scope(locals, body) => scope(out, locals.as_slice(), body.get()),
        Stmt::Call(number, proto, arguments) => call(out, *number, *proto, arguments.as_slice()),
        Stmt::Bind(_, body) => inside(out, body.get()),
    }
}

/// A statement in braces.
#[cycle(printed)]
fn inside(out: &mut String, s: &Stmt) -> Result<(), AllocError> {
    out.push_str(" { ")?;
    statement(out, s)?;
    out.push_str(" }")
}

/// A statement in braces, and a condition in parentheses.
#[cycle(printed)]
fn under(out: &mut String, body: &Stmt, condition: &Expr) -> Result<(), AllocError> {
    inside(out, body)?;
    headed(out, "", condition)
}

#[cycle(printed)]
fn chosen(out: &mut String, first: &Stmt, condition: &Expr) -> Result<(), AllocError> {
    headed(out, "if", condition)?;
    inside(out, first)
}

#[cycle(printed)]
fn repeated(
    out: &mut String,
    number: u32,
    body: &Stmt,
    condition: &Expr,
) -> Result<(), AllocError> {
    numbered(out, "loop", number)?;
    under(out, body, condition)
}

#[cycle(printed)]
fn aborted(out: &mut String, kind: Kind, body: &Stmt, condition: &Expr) -> Result<(), AllocError> {
    preempting(out, "abort", kind)?;
    under(out, body, condition)
}

#[cycle(printed)]
fn suspended(
    out: &mut String,
    kind: Kind,
    hold: Option<u32>,
    body: &Stmt,
    condition: &Expr,
) -> Result<(), AllocError> {
    preempting(out, "suspend", kind)?;
    held(out, hold)?;
    under(out, body, condition)
}

#[cycle(printed)]
fn scope(out: &mut String, locals: &[u32], body: &Stmt) -> Result<(), AllocError> {
    scope_of(out, locals)?;
    inside(out, body)
}

fn call(out: &mut String, number: u32, proto: u32, arguments: &[Arg]) -> Result<(), AllocError> {
    numbered(out, "call", number)?;
    numbered(out, " of ", proto)?;
    given(out, arguments)
}

/// Some statements in parentheses, with this between them.
#[cycle(printed)]
fn together(out: &mut String, between: &str, parts: &[Stmt]) -> Result<(), AllocError> {
    let mut is_first = true;
    out.push_str("(")?;
    for part in parts {
        if !is_first {
            out.push_str(between)?;
        }
        statement(out, part)?;
        is_first = false;
    }
    out.push_str(")")
}

fn numbered(out: &mut String, word: &str, number: u32) -> Result<(), AllocError> {
    let digits = format!(in *out.allocator(); "{number}")?;
    out.push_str(word)?;
    out.push_str(digits.as_str())
}

fn written(out: &mut String, target: Var, sign: &str, value: &Expr) -> Result<(), AllocError> {
    variable(out, target)?;
    out.push_str(sign)?;
    expression(out, value)
}

/// A word, and a condition in parentheses.
fn headed(out: &mut String, word: &str, condition: &Expr) -> Result<(), AllocError> {
    out.push_str(word)?;
    out.push_str("(")?;
    expression(out, condition)?;
    out.push_str(")")
}

fn preempting(out: &mut String, word: &str, kind: Kind) -> Result<(), AllocError> {
    if kind.weak {
        out.push_str("weak ")?;
    }
    if kind.immediate {
        out.push_str("immediate ")?;
    }
    out.push_str(word)
}

fn held(out: &mut String, hold: Option<u32>) -> Result<(), AllocError> {
    match hold {
        Some(place) => numbered(out, " held at p", place),
        None => Ok(()),
    }
}

fn scope_of(out: &mut String, locals: &[u32]) -> Result<(), AllocError> {
    out.push_str("scope")?;
    for local in locals {
        numbered(out, " l", *local)?;
    }
    Ok(())
}

fn given(out: &mut String, arguments: &[Arg]) -> Result<(), AllocError> {
    for argument in arguments {
        match argument {
            Arg::In(value) => {
                out.push_str(" ")?;
                expression(out, value)?;
            }
            Arg::Out(target) => {
                out.push_str(" !")?;
                variable(out, *target)?;
            }
        }
    }
    Ok(())
}

fn variable(out: &mut String, v: Var) -> Result<(), AllocError> {
    match v {
        Var::Formal(number) => numbered(out, "f", number),
        Var::Local(number) => numbered(out, "l", number),
        Var::Bound(number) => numbered(out, "b", number),
    }
}

/// An expression. Of the operators with one operand only `!` has a form of its own.
fn expression(out: &mut String, e: &Expr) -> Result<(), AllocError> {
    match e {
        Expr::Lit(value) => literal(out, *value),
        Expr::Var(v) => variable(out, *v),
        Expr::Un(Op1::Not, a) => {
            out.push_str("!")?;
            expression(out, a.get())
        }
        _ => out.push_str("other"),
    }
}

fn literal(out: &mut String, value: Value) -> Result<(), AllocError> {
    match value.ty() {
        Ty::Bool => out.push_str(if value.bits() == 1 { "true" } else { "false" }),
        Ty::Bv(_) => {
            let digits = format!(in *out.allocator(); "{}", value.bits())?;
            out.push_str(digits.as_str())
        }
    }
}
