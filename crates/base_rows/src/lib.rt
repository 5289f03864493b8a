//! Tests of the crates that stand on none or on few of the others: values, tokens, traces, decision
//! diagrams and nets. They stand in a crate of their own, since a crate with tests is proved once
//! more for them.
#![tactic(auto)]

#[cfg(test)]
mod diagrams;
#[cfg(test)]
mod lexer;
#[cfg(test)]
mod nets;
#[cfg(test)]
mod traces;
#[cfg(test)]
mod values;
