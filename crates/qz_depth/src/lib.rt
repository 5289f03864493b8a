//! What a resume does, as nets.
//!
//! `depth` appends the writes of a resume to a list, together with those of the start with mark zero that
//! the statement round it makes where control was before this one: both are one walk, which the bits of
//! places guide. A loop's body alone is started once more, with the loop's own mark. The walk answers what
//! is told of the step, so that no statement is walked once more for the one round it.
#![tactic(auto, using(qz_control::proofs::Growing::through))]

mod assigned;
mod guards;
mod resuming;
mod whole;

pub use resuming::depth;
pub use whole::writes_of_resume;
