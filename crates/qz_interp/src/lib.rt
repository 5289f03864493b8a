//! The interpreter: macro steps of a whole program, by rounds from no knowledge up.
//!
//! A machine goes from step to step. Below it are the rounds of one step: the walk's writes, verdicts on
//! them by the numbers of instances, what the instances settle to, the rounds up to the last one, and
//! whether that is definite or which instance is the first that isn't.
#![tactic(auto)]

mod decisions;
mod doubts;
mod entering;
mod instance_texts;
mod keeping;
mod knowing;
pub mod laws;
mod lists;
mod machine;
mod resting;
mod rounds;
mod settling;
mod slots;
mod steps;
mod tables;
mod tallies;
mod verdicts;

pub use decisions::decide;
pub use doubts::Doubted;
pub use machine::Machine;
pub use rounds::{Setting, Sheet, run_rounds, settle_round};
pub use slots::{Entry, Slot, settle_delayed, settle_values};
pub use steps::StepRefusal;
pub use tallies::Tally;
pub use verdicts::Verdict;
