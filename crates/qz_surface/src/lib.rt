//! What a start does, as nets.
//!
//! `surface` appends the writes of a start to a list, in the order of the walk: a value that is given to a
//! variable's instance, with the net of its guard. Each happens only where it is live: a start that the
//! walk doesn't come to writes nothing, whatever is known of its guard. The walk answers, too, whether the
//! start ends, so that no statement is walked once more for the one round it.
#![tactic(auto, using(qz_control::proofs::Growing::through))]

mod assigning;
mod starting;
mod whole;
mod writes;

pub use assigning::assign;
pub use starting::surface;
pub use whole::writes_of_start;
pub use writes::NetWrite;
