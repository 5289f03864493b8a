//! Reads a source text: from its bytes to the tree of the file that they spell, or the first fault.
//!
//! The bytes are decoded (UTF-8), cut into tokens, and each token is taken for the word that it says; the words
//! are then read as a file. A fault is told at its offset in bytes: first where the bytes are no UTF-8, then where
//! no token begins, and then the first token with which no file begins.
//!
//! What a token says is in `specs/Spots.antt`, by the texts of `specs/Marks.antt`. Which bytes spell a file, and
//! what is the first fault of others, is in `specs/Sources.antt`.
#![tactic(auto)]

mod faults;
mod laws;
mod marks;
mod source;
mod words;

pub use faults::SourceFault;
pub use laws::one_answer;
pub use source::read_module;
