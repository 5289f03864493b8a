//! Reading the Verilog text of a module.
//!
//! A text is read line by line, each line against what was read before it. The constructs follow IEEE
//! 1364-2005.
#![tactic(auto)]

mod bytes;
mod drafts;
mod driven;
mod laws;
mod lines;
mod names;
mod nets;
mod numbers;
mod ports;
mod read;
mod types;

pub use read::{BadVerilog, read_v};
