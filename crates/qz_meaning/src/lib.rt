//! What a program means: the walks over its statements, how variables settle, macro steps and runs.
//!
//! The meaning is in `specs/`: plain definitions over trees, lists and numbers, which the interpreter
//! and the compiler both cite. `docs/MAP.md` names the definition of each notion.
#![tactic(auto)]

pub mod examples;
pub mod laws;
