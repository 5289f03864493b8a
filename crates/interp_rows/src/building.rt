//! Trees from lists of parts. Each part takes what it needs from those before it, the last first.

use qz_syntax::{Expr, Kind, Stmt, Var};
use qz_values::{Op1, Op2, Ty, Value};
use sqlite_items::{Boxed, Items};
use std::alloc::Global;
use std::test::Fail;

/// A part of a tree.
#[derive(Clone, Copy)]
pub enum Part {
    /// The literal `true`.
    True,
    /// A literal of a type.
    Number(Ty, u64),
    Read(Var),
    /// `!` of an expression.
    Not,
    /// The sum of two expressions.
    Add,
    Nothing,
    Pause(u32),
    /// `true` is assigned.
    Emit(Var),
    /// An expression is assigned.
    Assign(Var),
    /// An expression is assigned for the next step.
    Delayed(Var),
    /// So many statements, one after the other.
    Seq(usize),
    /// So many statements, all at once.
    Par(usize),
    /// A condition and two sides.
    If,
    /// A body and a condition.
    Loop(u32),
    /// A body and a condition.
    Abort(Kind),
    /// A body and a condition.
    Suspend(Kind, Option<u32>),
    /// A body in which these locals exist.
    Scope(&'static [u32]),
}

/// What is put together so far.
#[derive(Drop)]
struct Builder {
    alloc: Global,
    statements: Items<Stmt>,
    expressions: Items<Expr>,
}

/// The statement that these parts make.
pub fn built(alloc: Global, parts: &[Part]) -> Result<Stmt, Fail> {
    let mut builder = Builder {
        alloc,
        statements: Items::new(alloc),
        expressions: Items::new(alloc),
    };
    for part in parts {
        builder.add(*part)?;
    }
    builder.statement()
}

impl Builder {
    fn add(&mut self, part: Part) -> Result<(), Fail> {
        match part {
            Part::True => self.keep(Expr::Lit(Value::truth(true))),
            Part::Number(ty, bits) => self.number(ty, bits),
            Part::Read(variable) => self.keep(Expr::Var(variable)),
            Part::Not => self.not(),
            Part::Add => self.sum(),
            Part::Nothing => self.put(Stmt::Nothing),
            Part::Pause(place) => self.put(Stmt::Pause(place)),
            Part::Emit(target) => self.put(Stmt::Assign(target, Expr::Lit(Value::truth(true)))),
            Part::Assign(target) => self.assign(target),
            Part::Delayed(target) => self.delayed(target),
            Part::Seq(count) => self.sequence(count),
            Part::Par(count) => self.parallel(count),
            Part::If => self.choice(),
            Part::Loop(number) => self.turns(number),
            Part::Abort(kind) => self.abort(kind),
            Part::Suspend(kind, hold) => self.suspend(kind, hold),
            Part::Scope(locals) => self.scope(locals),
        }
    }

    fn put(&mut self, s: Stmt) -> Result<(), Fail> {
        self.statements.push(s)?;
        Ok(())
    }

    fn keep(&mut self, e: Expr) -> Result<(), Fail> {
        self.expressions.push(e)?;
        Ok(())
    }

    fn statement(&mut self) -> Result<Stmt, Fail> {
        Ok(self.statements.pop().ok_or("no statement")?)
    }

    fn body(&mut self) -> Result<Boxed<Stmt>, Fail> {
        let s = self.statement()?;
        Ok(Boxed::new(self.alloc, s)?)
    }

    fn expression(&mut self) -> Result<Expr, Fail> {
        Ok(self.expressions.pop().ok_or("no expression")?)
    }

    fn operand(&mut self) -> Result<Boxed<Expr>, Fail> {
        let e = self.expression()?;
        Ok(Boxed::new(self.alloc, e)?)
    }

    fn number(&mut self, ty: Ty, bits: u64) -> Result<(), Fail> {
        let value = Value::new(ty, bits).ok_or("no value")?;
        self.keep(Expr::Lit(value))
    }

    fn not(&mut self) -> Result<(), Fail> {
        let operand = self.operand()?;
        self.keep(Expr::Un(Op1::Not, operand))
    }

    fn sum(&mut self) -> Result<(), Fail> {
        let right = self.operand()?;
        let left = self.operand()?;
        self.keep(Expr::Bin(Op2::Add, left, right))
    }

    fn assign(&mut self, target: Var) -> Result<(), Fail> {
        let value = self.expression()?;
        self.put(Stmt::Assign(target, value))
    }

    fn delayed(&mut self, target: Var) -> Result<(), Fail> {
        let value = self.expression()?;
        self.put(Stmt::Delayed(target, value))
    }

    /// The last so many statements, in their order.
    fn members(&mut self, count: usize) -> Result<Items<Stmt>, Fail> {
        let mut backwards = Items::new(self.alloc);
        for _ in 0..count {
            backwards.push(self.statement()?)?;
        }
        let mut members = Items::new(self.alloc);
        for _ in 0..count {
            members.push(backwards.pop().ok_or("no member")?)?;
        }
        Ok(members)
    }

    fn sequence(&mut self, count: usize) -> Result<(), Fail> {
        let members = self.members(count)?;
        self.put(Stmt::Seq(members))
    }

    fn parallel(&mut self, count: usize) -> Result<(), Fail> {
        let members = self.members(count)?;
        self.put(Stmt::Par(members))
    }

    fn choice(&mut self) -> Result<(), Fail> {
        let second = self.body()?;
        let first = self.body()?;
        let condition = self.expression()?;
        self.put(Stmt::If(condition, first, second))
    }

    fn turns(&mut self, number: u32) -> Result<(), Fail> {
        let body = self.body()?;
        let condition = self.expression()?;
        self.put(Stmt::Loop(number, body, condition))
    }

    fn abort(&mut self, kind: Kind) -> Result<(), Fail> {
        let body = self.body()?;
        let condition = self.expression()?;
        self.put(Stmt::Abort(kind, body, condition))
    }

    fn suspend(&mut self, kind: Kind, hold: Option<u32>) -> Result<(), Fail> {
        let body = self.body()?;
        let condition = self.expression()?;
        self.put(Stmt::Suspend(kind, hold, body, condition))
    }

    fn scope(&mut self, locals: &[u32]) -> Result<(), Fail> {
        let locals = Items::from_slice(self.alloc, locals)?;
        let body = self.body()?;
        self.put(Stmt::Scope(locals, body))
    }
}
