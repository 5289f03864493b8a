//! Statements, as they are without derived forms.

use crate::expressions::{Expr, Var};
use sqlite_items::{Boxed, Items};

/// The variants of a preemption.
#[derive(Clone, Copy, Debug, PartialEq, Eq, Hash)]
pub struct Kind {
    /// The body still acts in the step in which the condition holds.
    pub weak: bool,
    /// The condition is looked at in the starting step too.
    pub immediate: bool,
}

/// An argument of a call.
#[derive(Debug, Drop)]
pub enum Arg {
    /// For an input formal: an expression, read anew wherever the formal is read.
    In(Expr),
    /// For an output formal: a variable of the caller with the formal's class and type.
    Out(Var),
}

/// An input formal's number in its callee, counted over the whole program, and its argument.
#[derive(Debug, Drop)]
pub struct Binding {
    pub number: u32,
    pub value: Expr,
}

/// A statement.
#[derive(Debug, Drop)]
pub enum Stmt {
    Nothing,
    /// `x = e`: x has the value of e in this step.
    Assign(Var, Expr),
    /// `next(x) = e`: x has e's value of this step in the next one.
    Delayed(Var, Expr),
    /// A place where control rests until the next step; its number.
    Pause(u32),
    /// At least two members, one after the other.
    Seq(Items<Stmt>),
    /// At least two members, all at once.
    Par(Items<Stmt>),
    /// The condition, and the sides for true and for false.
    If(Expr, Boxed<Stmt>, Boxed<Stmt>),
    /// `do S while(e)`: the loop's number, its body and its condition.
    Loop(u32, Boxed<Stmt>, Expr),
    Abort(Kind, Boxed<Stmt>, Expr),
    /// With the number of its hold place exactly where it is immediate.
    Suspend(Kind, Option<u32>, Boxed<Stmt>, Expr),
    /// The numbers of the locals that are declared here, at least one, and the body.
    Scope(Items<u32>, Boxed<Stmt>),
    /// The call's number, its prototype's, and the arguments in the order of the formals.
    Call(u32, u32, Items<Arg>),
    /// A callee's body in a whole program, with the arguments of its input formals.
    Bind(Items<Binding>, Boxed<Stmt>),
}
