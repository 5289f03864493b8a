//! Tallies: what the writers of one variable come to at every valuation at once, and what the
//! variable then settles to.
//!
//! A tally holds a verdict at each valuation. It is put together write by write, and settles to a
//! rail: a value that writers agree on, what is stored or the default where no writer is enabled,
//! nothing where a writer is open, and a contradiction where writers disagree.
//!
//! What a table's numbers stood for they go on standing for: each call that may add to it says so
//! by `Extends`, and an `Err` comes for want of memory alone.
#![tactic(auto)]

mod settling;
mod stored;
mod tally;

pub use stored::Stored;
pub use tally::Tally;
