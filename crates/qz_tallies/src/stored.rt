//! What is stored of a variable.

use qz_dd::DdId;

/// What a variable of some type keeps from the step before, at each valuation: the value whose bits
/// are `bits`, the lowest first, and whether it is a delayed one that has still to take effect.
#[derive(Debug, Drop)]
pub struct Stored {
    pub pending: DdId,
    /// As many as a value of the type has.
    pub bits: Vec<DdId>,
}
