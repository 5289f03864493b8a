//! Where control rests next and which copies of locals are carried, as one net each.
//!
//! A local's copies are its marks. After a step a copy is carried exactly where the walk keeps the local's
//! scope, or enters it, by the instance with that mark, and nowhere else. The walk's spots may say one
//! thing more than once, as where a loop's body is entered while control moves in it: here the nets of the
//! spots that say it are joined by `or`. Each spot takes one look-up, so the work grows with the number of
//! spots alone.
#![tactic(auto, using(qz_control::proofs::Growing::through))]

mod joining;
mod nexts;
mod whole;

pub use joining::join;
pub use nexts::Nexts;
pub use whole::{nexts_of_resume, nexts_of_start};
