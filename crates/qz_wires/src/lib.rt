//! Wires of a Verilog module as they are made, and what is known of a value as two wires.
//!
//! Equal right sides of one type have one wire. A rail is a pair of nets: whether a value is known,
//! and the value. Each operator on rails says of its operands what the operator on knowledge gives.
#![tactic(auto)]

mod bools;
mod flags;
mod nets;
mod operators;
mod rails;
mod wires;

pub use nets::net_rails;
pub use operators::{apply1, apply2, bit, choose, concat, constant, slice};
pub use rails::Rail;
pub use wires::Wires;
