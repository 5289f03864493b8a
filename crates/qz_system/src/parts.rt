//! What a system is made of.

use crate::shape::Shape;
use qz_nets::{NetId, NetTable};
use qz_syntax::{Class, Name, Port, Text};
use qz_values::Ty;
use sqlite_items::Items;

/// What a leaf of the nets stands for.
#[derive(Clone, Copy, Debug)]
pub enum SystemLeaf {
    /// The value of an input.
    Input(u32),
    /// What is known of an instance.
    Now(u32),
    /// Whether control rests at a place.
    At(u32),
    /// Whether the program is started.
    Started,
}

/// A variable: an output or a local.
#[derive(Debug, Drop)]
pub struct Cell {
    pub class: Class,
    pub ty: Ty,
    /// Some `next` is applied to the variable.
    pub marked: bool,
    pub text: Text,
}

/// An instance of a variable.
#[derive(Debug, Drop)]
pub struct Inst {
    pub cell: u32,
    /// It has the mark zero.
    pub zero: bool,
    pub text: Text,
}

/// A writer of an instance, of its value or of its delayed value.
#[derive(Clone, Copy, Debug)]
pub struct Act {
    pub instance: u32,
    pub delayed: bool,
    pub guard: NetId,
    pub value: NetId,
}

/// From which instance a cell takes its next store, and when.
#[derive(Clone, Copy, Debug)]
pub struct Carry {
    pub cell: u32,
    pub instance: u32,
    pub when: NetId,
}

/// What a system is made of. `AreParts` says what must hold of it.
#[derive(Drop)]
pub struct SystemParts {
    pub name: Name,
    pub inputs: Items<Port>,
    pub outputs: Items<Port>,
    /// The outputs, and then the locals in tree order.
    pub cells: Items<Cell>,
    pub shape: Shape,
    /// The text of each place.
    pub places: Items<Text>,
    /// The outputs' instances, and then each local's, that with mark zero first.
    pub instances: Items<Inst>,
    pub table: NetTable,
    /// What the leaves of the table stand for, by their numbers.
    pub leaves: Items<SystemLeaf>,
    pub acts: Items<Act>,
    /// At which places control rests next, each where its net is true.
    pub nexts: Items<(u32, NetId)>,
    pub carries: Items<Carry>,
    /// The size of the whole program.
    pub units: u64,
}
