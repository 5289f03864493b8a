//! Tests of Verilog modules, of their texts and of their reading. They stand in a crate of their
//! own, since a crate with tests is proved once more for them.
#![tactic(auto)]

#[cfg(test)]
mod meaning;
#[cfg(test)]
mod reading;
#[cfg(test)]
mod writing;
