//! Where a system may be before a step, with what it is given in it.

/// A place, a store for each cell, and the inputs.
#[derive(Debug, Drop)]
pub struct Valuation {
    /// Whether the program is started, also where it has ended.
    pub started: bool,
    /// For each place whether control rests there.
    pub places: Vec<bool>,
    /// For each cell whether its value is a pending one, and the value's bits.
    pub stores: Vec<(bool, u64)>,
    /// For each input its value's bits.
    pub inputs: Vec<u64>,
}
