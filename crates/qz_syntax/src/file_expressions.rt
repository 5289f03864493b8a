//! Expressions as they are written, with offsets and parentheses.

use crate::names::Name;
use qz_values::{Op1, Op2};
use sqlite_items::Boxed;

/// A name, and the offset of its token. Offsets count bytes from 0.
#[derive(Debug, Drop)]
pub struct NameAt {
    pub name: Name,
    pub at: u32,
}

/// An expression of a source text. Each `at` is the offset of one token.
#[derive(Debug, Drop)]
pub enum FileExpr {
    /// `true` or `false`.
    Bool {
        value: bool,
        at: u32,
    },
    /// `8'd200`: a width and a value, each a number of at most 20 digits.
    Lit {
        width: u128,
        value: u128,
        at: u32,
    },
    Name(NameAt),
    /// `(e)`, at its `(`.
    Paren {
        at: u32,
        inner: Boxed<FileExpr>,
    },
    /// At its operator, as the next ones are.
    Un {
        op: Op1,
        at: u32,
        arg: Boxed<FileExpr>,
    },
    Bin {
        op: Op2,
        at: u32,
        left: Boxed<FileExpr>,
        right: Boxed<FileExpr>,
    },
    /// `cond ? yes : no`, at its `?`.
    Choose {
        at: u32,
        cond: Boxed<FileExpr>,
        yes: Boxed<FileExpr>,
        no: Boxed<FileExpr>,
    },
    /// `arg{high:low}`, or `arg{high}` without `low`, at its `{`.
    Select {
        at: u32,
        arg: Boxed<FileExpr>,
        high: u128,
        low: Option<u128>,
    },
    /// `left @ right`, at its `@`.
    Concat {
        at: u32,
        left: Boxed<FileExpr>,
        right: Boxed<FileExpr>,
    },
}
