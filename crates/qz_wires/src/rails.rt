//! What is known of a value, as two nets.

use qz_verilog::Ref;

/// Whether a value is known, as a flag, and the value. It says nothing of a contradiction.
#[derive(Clone, Copy, Debug, PartialEq, Eq)]
pub struct Rail {
    pub known: Ref,
    pub value: Ref,
}
