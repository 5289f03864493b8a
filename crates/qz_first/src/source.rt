//! The tree of a source of the first language, as it is written: an emitted name is still a name.

use qz_syntax::{Formal, Name};
use sqlite_items::{Boxed, Items};

/// A statement as it is written.
#[derive(Debug, Drop)]
pub enum SourceStmt {
    Nothing,
    Pause,
    Emit(Name),
    Loop(Boxed<SourceStmt>),
    Block(Items<SourceStmt>),
}

/// A module as it is written.
#[derive(Debug, Drop)]
pub struct SourceModule {
    pub name: Name,
    pub formals: Items<Formal>,
    /// The statements of the module's block.
    pub body: Items<SourceStmt>,
}
