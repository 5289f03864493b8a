//! What is said against words or input, and the line that says it.
#![tactic(auto)]

mod refusal;
mod words;

pub use refusal::Refusal;
pub use words::ByteFault;
