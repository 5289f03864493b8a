//! Writes the canonical text of a file: its words, with one space between each two, and a line feed at the end.
//!
//! The words of a tree are in `specs/`: of expressions, declarations and formals, statements, and files, with the
//! text itself in `Files.antt`. Each formal and declaration has its class and its type there, a target of `emit`
//! no parentheses, and an expression those that its tree has. How a word is spelled is in `Texts.antt`.
#![tactic(auto)]

mod declarations;
mod expressions;
mod files;
mod statement_parts;
mod statements;
mod words;

pub use files::print_module;
