//! The call that the program `quartzc` makes: from its words to the file that is put.
#![tactic(auto)]

mod build;
mod call;
mod clocks;
mod files;
mod inputs;
mod programs;
mod run_program;
mod simulate;
mod status;
mod words;
mod work;

pub use call::quartzc;
pub use status::Status;
