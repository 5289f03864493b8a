//! Worked rows of the interpreter: small programs, what they are given step by step, and what comes.
//!
//! A library of tests alone: a crate with tests is proved once more for them. The trees are put together
//! by hand, in core form, and what comes is worked out by hand too.
#![tactic(auto)]

#[cfg(test)]
mod building;
#[cfg(test)]
mod forms;
#[cfg(test)]
mod programs;
#[cfg(test)]
mod reactions;
#[cfg(test)]
mod rows;
#[cfg(test)]
mod runs;
#[cfg(test)]
mod settling;
#[cfg(test)]
mod tests;
