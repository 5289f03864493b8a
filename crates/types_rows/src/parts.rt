//! Statements of small files, put together step by step. A step stands for a part of a text: it comes after
//! the parts that it is made of, and takes them. The offsets that no row is about are the same everywhere.

use qz_syntax::{
    Class, Cond, FileBlock, FileDecl, FileExpr, FileStmt, Kind, Name, NameAt, Target, TypeText,
};
use qz_values::{Op1, Op2};
use sqlite_items::{Boxed, Items};
use std::alloc::{AllocError, Global};

/// A declaration of locals: their type, and each name with its offset.
pub type Locals = (TypeText, &'static [(&'static str, u32)]);

/// A part of a statement. A condition takes one value, and has its `(` at 10.
#[derive(Clone, Copy)]
pub enum Step {
    /// A variable at its offset.
    Variable(&'static str, u32),
    /// A literal with its width, its value and its offset.
    Literal(u128, u128, u32),
    /// An operator at its offset.
    One(Op1, u32),
    Two(Op2, u32),
    /// `cond ? yes : no` at its `?`.
    Choose(u32),
    /// A selection at its `{`, with its higher and its lower index.
    Select(u32, u128, Option<u128>),
    /// `@` at its offset.
    Join(u32),
    /// `(e)` at its `(`.
    Paren(u32),
    Nothing,
    /// So many times `nothing;`.
    Nothings(u32),
    Pause,
    /// `l: pause;` with the label at its offset.
    Label(&'static str, u32),
    Halt,
    /// `l: await(e);` with the label at 5, and whether it is immediate.
    Await(bool),
    /// `emit` of a variable at its offset.
    Emit(&'static str, u32),
    /// `emit next(o);` with the variable at its offset.
    EmitNext(&'static str, u32),
    /// An assignment with its target at 10 and its `=` at 12.
    Assign(&'static str),
    If,
    While,
    DoWhile,
    Loop,
    Every,
    Abort(Kind),
    Suspend(Kind),
    /// A block of locals and one list of so many statements.
    Block(&'static [Locals], u32),
    /// A block without locals of so many lists, each of one statement.
    AtOnce(u32),
    /// A call of the callee at 10 with so many arguments.
    Call(&'static str, u32),
}

/// The values and statements that wait for the step that takes them. The last one is taken first. A step
/// for which too few of them wait is answered as if there were no memory, so its row fails.
#[derive(Drop)]
struct Parts {
    alloc: Global,
    values: Items<FileExpr>,
    statements: Items<FileStmt>,
}

/// A name at its offset.
pub fn name(alloc: Global, text: &str, at: u32) -> Result<NameAt, AllocError> {
    match Name::new(alloc, text)? {
        Some(name) => Ok(NameAt { name, at }),
        None => Err(AllocError),
    }
}

/// A body with these locals and one list, of all statements that the steps make.
pub fn body(alloc: Global, locals: &[Locals], steps: &[Step]) -> Result<FileBlock, AllocError> {
    let mut parts = Parts {
        alloc,
        values: Items::new(alloc),
        statements: Items::new(alloc),
    };
    for step in steps {
        parts.step(*step)?;
    }
    let Parts { statements, .. } = parts;
    one_list(alloc, locals, statements)
}

fn one_list(
    alloc: Global,
    locals: &[Locals],
    list: Items<FileStmt>,
) -> Result<FileBlock, AllocError> {
    let mut lists = Items::new(alloc);
    lists.push(list)?;
    let decls = declarations(alloc, locals)?;
    Ok(FileBlock { decls, lists })
}

fn declarations(alloc: Global, locals: &[Locals]) -> Result<Items<FileDecl>, AllocError> {
    let mut decls = Items::new(alloc);
    for some in locals {
        decls.push(declaration(alloc, some)?)?;
    }
    Ok(decls)
}

fn declaration(alloc: Global, some: &Locals) -> Result<FileDecl, AllocError> {
    let (ty, texts) = some;
    let mut names = Items::new(alloc);
    for (text, at) in *texts {
        names.push(name(alloc, text, *at)?)?;
    }
    Ok(FileDecl {
        class: Class::Mem,
        ty: *ty,
        names,
    })
}

/// The last items, in their order.
fn last<T: Drop>(alloc: Global, items: &mut Items<T>, count: u32) -> Result<Items<T>, AllocError> {
    let mut taken = Items::new(alloc);
    let first = items.len().saturating_sub(count as usize);
    for _ in 0..count {
        if first < items.len() {
            taken.push(items.remove(first))?;
        }
    }
    Ok(taken)
}

impl Parts {
    fn value(&mut self) -> Result<FileExpr, AllocError> {
        match self.values.pop() {
            Some(value) => Ok(value),
            None => Err(AllocError),
        }
    }

    fn operand(&mut self) -> Result<Boxed<FileExpr>, AllocError> {
        let value = self.value()?;
        Boxed::new(self.alloc, value)
    }

    fn condition(&mut self) -> Result<Cond, AllocError> {
        let expr = self.value()?;
        Ok(Cond { at: 10, expr })
    }

    fn inner(&mut self) -> Result<Boxed<FileStmt>, AllocError> {
        match self.statements.pop() {
            Some(s) => Boxed::new(self.alloc, s),
            None => Err(AllocError),
        }
    }

    fn step(&mut self, step: Step) -> Result<(), AllocError> {
        match step {
            Step::Variable(text, at) => self.variable(text, at),
            Step::Literal(width, value, at) => {
                self.values.push(FileExpr::Lit { width, value, at })
            }
            Step::One(op, at) => self.one(op, at),
            Step::Two(op, at) => self.two(op, at),
            Step::Choose(at) => self.choose(at),
            Step::Select(at, high, low) => self.select(at, high, low),
            Step::Join(at) => self.join(at),
            Step::Paren(at) => self.paren(at),
            Step::Nothings(count) => self.nothings(count),
            Step::Block(locals, count) => self.block(locals, count),
            Step::AtOnce(count) => self.at_once(count),
            Step::Call(callee, count) => self.call(callee, count),
            other => self.statement(other),
        }
    }

    /// A step that makes one statement of at most one other.
    fn statement(&mut self, step: Step) -> Result<(), AllocError> {
        match step {
            Step::Pause => self.statements.push(FileStmt::Pause(None)),
            Step::Label(text, at) => self.label(text, at),
            Step::Halt => self.statements.push(FileStmt::Halt(None)),
            Step::Await(immediate) => self.waits(immediate),
            Step::Emit(text, at) => self.emit(false, text, at),
            Step::EmitNext(text, at) => self.emit(true, text, at),
            Step::Assign(text) => self.assign(text),
            Step::Loop => self.loops(),
            Step::If => self.branches(),
            Step::While => self.whiles(),
            Step::DoWhile => self.does_while(),
            Step::Every => self.every(),
            Step::Abort(kind) => self.abort(kind),
            Step::Suspend(kind) => self.suspend(kind),
            _ => self.statements.push(FileStmt::Nothing),
        }
    }

    fn variable(&mut self, text: &str, at: u32) -> Result<(), AllocError> {
        let name = name(self.alloc, text, at)?;
        self.values.push(FileExpr::Name(name))
    }

    fn one(&mut self, op: Op1, at: u32) -> Result<(), AllocError> {
        let arg = self.operand()?;
        self.values.push(FileExpr::Un { op, at, arg })
    }

    fn two(&mut self, op: Op2, at: u32) -> Result<(), AllocError> {
        let right = self.operand()?;
        let left = self.operand()?;
        self.values.push(FileExpr::Bin {
            op,
            at,
            left,
            right,
        })
    }

    fn choose(&mut self, at: u32) -> Result<(), AllocError> {
        let no = self.operand()?;
        let yes = self.operand()?;
        let cond = self.operand()?;
        self.values.push(FileExpr::Choose { at, cond, yes, no })
    }

    fn select(&mut self, at: u32, high: u128, low: Option<u128>) -> Result<(), AllocError> {
        let arg = self.operand()?;
        self.values.push(FileExpr::Select { at, arg, high, low })
    }

    fn join(&mut self, at: u32) -> Result<(), AllocError> {
        let right = self.operand()?;
        let left = self.operand()?;
        self.values.push(FileExpr::Concat { at, left, right })
    }

    fn paren(&mut self, at: u32) -> Result<(), AllocError> {
        let inner = self.operand()?;
        self.values.push(FileExpr::Paren { at, inner })
    }

    fn nothings(&mut self, count: u32) -> Result<(), AllocError> {
        for _ in 0..count {
            self.statements.push(FileStmt::Nothing)?;
        }
        Ok(())
    }

    fn label(&mut self, text: &str, at: u32) -> Result<(), AllocError> {
        let label = name(self.alloc, text, at)?;
        self.statements.push(FileStmt::Pause(Some(label)))
    }

    fn waits(&mut self, immediate: bool) -> Result<(), AllocError> {
        let cond = self.condition()?;
        let label = name(self.alloc, "l", 5)?;
        self.statements.push(FileStmt::Await {
            label: Some(label),
            immediate,
            cond,
        })
    }

    fn emit(&mut self, next: bool, text: &str, at: u32) -> Result<(), AllocError> {
        let name = name(self.alloc, text, at)?;
        self.statements.push(FileStmt::Emit(Target { next, name }))
    }

    fn assign(&mut self, text: &str) -> Result<(), AllocError> {
        let value = self.value()?;
        let name = name(self.alloc, text, 10)?;
        self.statements.push(FileStmt::Assign {
            target: Target { next: false, name },
            equals: 12,
            value,
        })
    }

    fn loops(&mut self) -> Result<(), AllocError> {
        let body = self.inner()?;
        self.statements.push(FileStmt::Loop(body))
    }

    fn branches(&mut self) -> Result<(), AllocError> {
        let yes = self.inner()?;
        let cond = self.condition()?;
        self.statements.push(FileStmt::If(cond, yes, None))
    }

    fn whiles(&mut self) -> Result<(), AllocError> {
        let body = self.inner()?;
        let cond = self.condition()?;
        self.statements.push(FileStmt::While(cond, body))
    }

    fn does_while(&mut self) -> Result<(), AllocError> {
        let body = self.inner()?;
        let cond = self.condition()?;
        self.statements.push(FileStmt::DoWhile(body, cond))
    }

    fn every(&mut self) -> Result<(), AllocError> {
        let body = self.inner()?;
        let cond = self.condition()?;
        self.statements.push(FileStmt::Every(cond, body))
    }

    fn abort(&mut self, kind: Kind) -> Result<(), AllocError> {
        let body = self.inner()?;
        let cond = self.condition()?;
        self.statements.push(FileStmt::Abort(kind, body, cond))
    }

    fn suspend(&mut self, kind: Kind) -> Result<(), AllocError> {
        let body = self.inner()?;
        let cond = self.condition()?;
        self.statements.push(FileStmt::Suspend(kind, body, cond))
    }

    fn block(&mut self, locals: &[Locals], count: u32) -> Result<(), AllocError> {
        let list = last(self.alloc, &mut self.statements, count)?;
        let block = one_list(self.alloc, locals, list)?;
        self.statements.push(FileStmt::Block(block))
    }

    fn at_once(&mut self, count: u32) -> Result<(), AllocError> {
        let lists = self.lists(count)?;
        self.statements.push(FileStmt::Block(FileBlock {
            decls: Items::new(self.alloc),
            lists,
        }))
    }

    /// The last statements, each in a list of its own.
    fn lists(&mut self, count: u32) -> Result<Items<Items<FileStmt>>, AllocError> {
        let mut lists = Items::new(self.alloc);
        for _ in 0..count {
            lists.push(last(self.alloc, &mut self.statements, 1)?)?;
        }
        Ok(lists)
    }

    fn call(&mut self, callee: &str, count: u32) -> Result<(), AllocError> {
        let args = last(self.alloc, &mut self.values, count)?;
        let callee = name(self.alloc, callee, 10)?;
        self.statements.push(FileStmt::Call { callee, args })
    }
}
