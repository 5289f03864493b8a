//! Tests of the mode `run` over files and a sink in memory: what small programs give step by step, worked out by
//! hand, and what is said against sources and inputs.
#![tactic(auto)]

#[cfg(test)]
mod calls;
#[cfg(test)]
mod large;
#[cfg(test)]
mod refusals;
#[cfg(test)]
mod runs;
