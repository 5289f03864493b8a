//! Expressions over the variables of a module.

use qz_values::{Op1, Op2, Value};
use sqlite_items::Boxed;

/// A variable of a module, by its number in its list.
#[derive(Clone, Copy, Debug, PartialEq, Eq, Hash)]
pub enum Var {
    /// A formal of the module.
    Formal(u32),
    /// A local of the module, numbered in tree order.
    Local(u32),
    /// An argument that a `Stmt::Bind` round this place binds; in a whole program alone.
    Bound(u32),
}

/// An expression, which has a type by the operators' table.
#[derive(Debug, Drop)]
pub enum Expr {
    Lit(Value),
    Var(Var),
    Un(Op1, Boxed<Expr>),
    Bin(Op2, Boxed<Expr>, Boxed<Expr>),
    /// The condition, and the sides for true and for false.
    Choose(Boxed<Expr>, Boxed<Expr>, Boxed<Expr>),
    /// One bit of a vector, counted from the least significant.
    Bit(Boxed<Expr>, u8),
    /// The bits from the high index down to the low one.
    Slice(Boxed<Expr>, u8, u8),
    /// The more significant vector first.
    Concat(Boxed<Expr>, Boxed<Expr>),
}
