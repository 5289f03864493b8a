//! Synchronous Verilog modules: which are valid, and what they do at each clock.
//!
//! The constructs follow IEEE 1364-2005. All nets and registers are without sign. Wires are
//! assigned continuously; at each rise of the clock the outputs are read, and then every register
//! takes a net's value, all from before the clock.
#![tactic(auto)]

mod declared;
mod laws;
mod modules;
mod nets;
mod simulation;
mod validity;
mod wires;

pub use declared::Declared;
pub use laws::{a_valid_module_keeps_types, a_valid_module_runs_once, a_valid_module_settles_once};
pub use modules::VModule;
pub use nets::{Ref, Rhs};
pub use simulation::Sim;
pub use validity::validate;
