//! Laws of systems: each contract is a law, for the check and the equations alike.
#![tactic(auto)]

mod rounds;

pub use rounds::{rounds_are_one, rounds_come_to_an_end, rounds_exist, rounds_never_fall};
