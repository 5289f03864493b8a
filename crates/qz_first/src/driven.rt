//! What the walk over the statements appends for the circuit.

use qz_verilog::Ref;

/// An output is given a value.
#[derive(Clone, Copy, Debug, PartialEq, Eq)]
pub struct DrivenWrite {
    pub output: u32,
    /// Whether it is.
    pub guard: Ref,
    pub value: Ref,
}

/// Control rests at a place after the step.
#[derive(Clone, Copy, Debug, PartialEq, Eq)]
pub struct DrivenPlace {
    pub place: u32,
    /// Whether it does.
    pub when: Ref,
}
