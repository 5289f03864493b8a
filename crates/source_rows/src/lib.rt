//! Texts worked out by hand from the rules: files, and the first fault of others. They stand in a crate of their
//! own, since a crate with tests is proved once more for them.
#![tactic(auto)]

#[cfg(test)]
mod productions;
#[cfg(test)]
mod texts;
