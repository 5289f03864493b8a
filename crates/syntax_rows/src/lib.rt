//! Tests of the trees that modules are, and of a module made a whole program. They stand in a
//! crate of their own, since a crate with tests is proved once more for them.
#![tactic(auto)]

#[cfg(test)]
mod expansion;
#[cfg(test)]
mod trees;
