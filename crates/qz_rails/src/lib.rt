//! Rails: what is known of one value at every valuation at once.
//!
//! A valuation is an assignment of the variables of a table of decision diagrams. A rail has a
//! diagram for each bit of a value, one that says where the value is known and one that says where
//! its writers contradict one another. The operators on rails give at every valuation what those on
//! knowledge give there, so that one rail stands for as many runs of an operator as there are
//! valuations.
//!
//! What a table's numbers stood for they go on standing for: each call that may add to it says so
//! by `Extends`, and an `Err` comes for want of memory alone.
#![tactic(auto)]

pub mod bits;
mod changes;
mod early;
mod leaves;
mod numbers;
mod operators;
mod rail;
mod selections;
mod sums;

pub use changes::{are_same, differ, is_nowhere};
pub use leaves::{constant, unknown, variable};
pub use numbers::zeros;
pub use operators::{apply1, apply2, choose};
pub use rail::Rail;
pub use selections::{bit, concat, slice};
