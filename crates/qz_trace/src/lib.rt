//! Traces: rows of values as text, one line for each step.
//!
//! A trace is any number of lines, each ended by LF. A line has one value for each variable, in decimal without
//! leading zeros, with one space between two; without variables a line is empty.
#![tactic(auto)]

mod faults;
mod fields;
mod print;
mod read;
mod traces;
mod types;

pub use faults::{BadTrace, TraceKind};
pub use print::print_trace;
pub use read::{TRACE_LIMIT, read_trace};
pub use traces::Trace;
pub use types::are_types;
