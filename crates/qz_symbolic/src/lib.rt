//! Rounds of a system, and its permitted valuations, at every valuation at once.
//!
//! A valuation is spelled by the variables of a table of decision diagrams: one variable for each bit
//! that the system's valuations have, in the order in which valuations are compared. `Variables` says
//! which variable is which bit, and reads a valuation back from bits. Over them `permitted` is true
//! exactly at the permitted valuations, and `round` leads from what is known of every instance to what
//! is known of it one round later, at each valuation as a round of the system does there.
//!
//! What a table's numbers stood for they go on standing for: each call that may add to it says so
//! by `Extends`, and an `Err` comes for want of memory alone.
#![tactic(auto)]

mod acts;
mod leaves;
mod living;
mod permitting;
mod rails;
mod reading;
mod resting;
mod rounds;
mod settling;
mod spelled;
mod variables;

pub use permitting::permitted;
pub use rails::InstanceRails;
pub use rounds::{first_round, round};
pub use variables::{CellVariables, InputVariables, Variables};
