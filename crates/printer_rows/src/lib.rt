//! Tests of canonical texts: texts that are printed again as they stand, and others with the canonical text of what
//! is read of them. They stand in a crate of their own, since a crate with tests is proved once more for them.
#![tactic(auto)]

#[cfg(test)]
mod texts;
