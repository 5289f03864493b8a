//! Modules of the first language: events that are put out alone, and the statements `nothing`,
//! `pause`, `emit`, `loop` and blocks. A source of it is made the text of a circuit that does its
//! program.
#![tactic(auto)]

mod circuit;
mod circuit_text;
mod control;
mod depth;
mod driven;
mod ends;
pub mod first_runs;
mod formal_numbers;
mod instant_loop;
mod limits;
mod reader;
mod source;
mod surface;
mod typing;
mod wires;

pub use circuit_text::{NoText, verilog_of_source};
pub use limits::MAX_SOURCE;
pub use reader::{one_source, reserved_words_agree};
