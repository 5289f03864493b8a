//! Modules with one clock.

use crate::nets::{Ref, Rhs};
use qz_syntax::{Name, Port};
use qz_values::{Ty, Value};
use sqlite_items::Items;

/// A module with a clock, inputs, outputs, registers and wires.
#[derive(Debug, Drop)]
pub struct VModule {
    pub name: Name,
    pub inputs: Items<Port>,
    pub outputs: Items<Port>,
    /// The initial value of each register. A register is of its initial value's type.
    pub regs: Items<Value>,
    /// The type of each wire, and what is assigned to it.
    pub wires: Items<(Ty, Rhs)>,
    /// What drives each output.
    pub outs: Items<Ref>,
    /// What each register takes at the clock.
    pub nexts: Items<Ref>,
}
