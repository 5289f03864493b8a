//! Tests of the call `quartzc` over files and a sink in memory: what it answers row by row, and
//! programs whose texts and outputs were worked by hand. They stand in a crate of their own, since
//! a crate with tests is proved once more for them.
#![tactic(auto)]

pub mod calls;
#[cfg(test)]
mod programs;
#[cfg(test)]
mod simulations;
#[cfg(test)]
mod tests;
