//! Whether statements end, as nets.
//!
//! `ends_at_once` is of a start with any mark. `terms_of` is of a statement that control may rest in: one
//! walk gives whether it does, whether a resume then ends, and whether a start with mark zero ends, so
//! that no statement is walked once more for the one round it.
#![tactic(auto, using(qz_control::proofs::Growing::through))]

mod conditional;
mod members;
mod resting;
mod starting;
mod told;

pub use conditional::{Sides, ends_of_abort, ends_of_choice, ends_of_suspend, guards_of_sides};
pub use members::member;
pub use resting::terms_of;
pub use starting::ends_at_once;
pub use told::{
    Terms, at_once, in_turn, next_guard, none_inside, of_abort, of_choice, of_held, of_loop,
    of_pause, of_suspend, passing, where_so,
};
