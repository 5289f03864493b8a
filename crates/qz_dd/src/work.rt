//! What is still to be done for a call. It is a list in memory and no recursion, since a diagram may
//! be as deep as there are variables.

use crate::call::Call;
use crate::node::DdId;

/// A call that waits for its low cofactor, or has it and waits for its high cofactor.
#[derive(Clone, Copy, Debug)]
pub struct Frame {
    pub call: Call,
    /// The variable by which the call is taken apart.
    pub var: u32,
    pub low: Option<DdId>,
}

/// The calls that wait, each for the one above it, and the last for this call, whose answer may be
/// known.
#[derive(Drop)]
pub struct Work {
    pub waiting: Vec<Frame>,
    pub call: Call,
    pub answer: Option<DdId>,
}
