//! The equations of a checked system: the Verilog module that does what the system does.
//!
//! Registers hold a valuation: whether the program is started, where control rests, and each
//! variable's store. Wires unroll as many rounds as the system needs, and say of each instance in
//! each round whether its value is known, and the value.
#![tactic(auto)]

mod carrying;
mod ends;
mod instances;
mod laws;
mod leaves;
mod module;
mod nexts;
mod registers;
mod resting;
mod rounds;
mod settling;
mod tallies;
mod writers;

pub use laws::a_module_runs_as_its_system;
pub use module::equations;
