//! What the compiler makes of control, as nets over the leaves of a module.
//!
//! A circuit has the nets, and what their leaves stand for. Its view is an assignment of leaves with
//! knowledge that satisfies each net. The mirror of a statement says what its nets are to say, for any
//! bits of its places: a resume and the start with mark zero that the statement round it makes go
//! through the tree as one walk, so that no statement is walked once more at each level; a loop's
//! body alone is started once more, with the loop's own mark. The laws tie the mirror to the walk.
#![tactic(auto, using(crate::proofs::Growing::through))]

mod circuit;
mod conditions;
mod guards;
mod laws;
mod leaves;
mod marks;
mod resting;
mod values;

pub use circuit::Circuit;
pub use conditions::test;
pub use guards::{body_guard, start_guard, unless};
pub use laws::{
    mirrors_walk_as_the_statement, nets_follow_the_statement, nets_resume_the_statement,
    nets_show_nothing_where_control_is_away, nets_show_the_resume,
};
pub use leaves::LeafKind;
pub use marks::Marks;
pub use resting::inside;
pub use values::value;
