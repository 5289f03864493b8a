//! Reads a source text from its words: the tree of the file, or the first word with which no file begins.
//!
//! The grammar is in `specs/`, on top of that of the phrases below statements: statements and blocks with their
//! levels (`Statements.antt`), formals and heads (`Formals.antt`), files (`Files.antt`). By which words a form
//! begins is in `Starts.antt`. `Texts.antt` says what all words of a text are: a file within 128 levels, or not,
//! and then at which word, and whether more levels would help (`Deep`) or not (`Parse`).
#![tactic(auto)]

mod blocks;
mod files;
mod formals;
mod resting;
mod starts;
mod statements;
mod texts;

pub use formals::{DirStart, FormalStart, FormalsStart};
pub use starts::{
    ArgsStart, ElseStart, EndStart, ImmediateStart, NamedStart, PreemptStart, Preemption,
    RestStart, Round, StmtStart, WeakStart,
};
pub use texts::{WordsFault, read_words};
