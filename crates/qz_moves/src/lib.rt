//! Where control goes, as nets.
//!
//! `enter` is of a start with any mark. `moves` is of a resume, together with the start with mark zero that
//! the statement round it may make. Each appends spots to a list, in the order of the walk: a place where
//! control rests, or a local whose scope is kept or entered, with the net of whether it is so. One walk
//! gives the spots and what the statement round it has to know, so that no statement is walked once more
//! for the one round it; a loop's body alone is entered once more, with the loop's own mark.
#![tactic(auto, using(qz_control::proofs::Growing::through))]

mod entered;
mod entering;
mod guards;
mod moved;
mod moving;
mod pauses;
mod spots;
mod whole;

pub use entered::Entered;
pub use entering::enter;
pub use moved::Moved;
pub use moving::moves;
pub use spots::{NetSpot, Rest};
pub use whole::{spots_of_resume, spots_of_start};
