//! Writes, whose guard and value are nets.

use qz_nets::NetId;
use qz_syntax::{Mark, Var};

/// A value is given to an instance where the guard holds.
#[derive(Clone, Copy, Debug, Drop)]
pub struct NetWrite {
    /// Whether the value is for the next step.
    pub delayed: bool,
    pub target: Var,
    /// The mark of the target's instance.
    pub mark: Mark,
    pub guard: NetId,
    pub value: NetId,
}
