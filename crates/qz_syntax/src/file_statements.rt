//! Statements as they are written, with derived forms.

use crate::file_expressions::{FileExpr, NameAt};
use crate::files::FileDecl;
use crate::statements::Kind;
use sqlite_items::{Boxed, Items};

/// A condition in its parentheses, and the offset of the `(`.
#[derive(Debug, Drop)]
pub struct Cond {
    pub at: u32,
    pub expr: FileExpr,
}

/// What an assignment or an `emit` writes to.
#[derive(Debug, Drop)]
pub struct Target {
    /// The name stands in `next( )`: the value comes in the next step.
    pub next: bool,
    pub name: NameAt,
}

/// `{ declarations, list || list .. }`
#[derive(Debug, Drop)]
#[cycle(file)]
pub struct FileBlock {
    pub decls: Items<FileDecl>,
    /// At least one list of statements. All lists go at once.
    pub lists: Items<Items<FileStmt>>,
}

/// A statement of a source text. A name before a `:` is its label.
#[derive(Debug, Drop)]
#[cycle(file)]
pub enum FileStmt {
    Nothing,
    Pause(Option<NameAt>),
    Halt(Option<NameAt>),
    Await {
        label: Option<NameAt>,
        immediate: bool,
        cond: Cond,
    },
    /// With the offset of its `=`.
    Assign {
        target: Target,
        equals: u32,
        value: FileExpr,
    },
    Emit(Target),
    Block(FileBlock),
    /// The sides for true and for false, of which the second may be missing.
    If(Cond, Boxed<FileStmt>, Option<Boxed<FileStmt>>),
    DoWhile(Boxed<FileStmt>, Cond),
    While(Cond, Boxed<FileStmt>),
    Loop(Boxed<FileStmt>),
    Every(Cond, Boxed<FileStmt>),
    Abort(Kind, Boxed<FileStmt>, Cond),
    Suspend(Kind, Boxed<FileStmt>, Cond),
    Call {
        callee: NameAt,
        args: Items<FileExpr>,
    },
}
