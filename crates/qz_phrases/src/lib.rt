//! Reads phrases of a source text from its words: the tree of the phrase that stands there, or the first word at
//! fault. The statements and what holds them are read by a crate above.
//!
//! The grammar is in `specs/`: how trees are spelled by words, with what their levels and their operators allow
//! (`Expressions.antt`, `Declarations.antt`, `StatementParts.antt`), put together from a few forms
//! (`Phrases.antt`). `Reading.antt` says what a reader gives, whatever words come later: the one phrase that is
//! there, or that none is there (`Parse`) or only ones with more levels (`Deep`), while what was read before
//! begins one.
#![tactic(auto)]

mod cursor;
mod declarations;
mod expressions;
mod statement_parts;
mod words;

pub use cursor::{Cursor, Fault};
pub use declarations::{declaration, typing};
pub use expressions::expression;
pub use statement_parts::{
    assigned_value, awaited, condition, emitted, next_argument, next_target,
};
pub use words::{
    EmitStart, HeadStart, IndexStart, Mark, Sort, Spot, TailStart, TargetStart, TypeStart,
    TypingStart, Word,
};
