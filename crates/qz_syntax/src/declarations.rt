//! What a module declares: its formals, its locals, and the prototypes of the modules it calls.

use crate::names::Name;
use qz_values::Ty;
use sqlite_items::Items;

/// How long a variable keeps its value.
#[derive(Clone, Copy, Debug, PartialEq, Eq, Hash)]
pub enum Class {
    /// The default again in each macro step without an assignment.
    Event,
    /// The last value until another is assigned.
    Mem,
}

/// The side that gives a formal its value.
#[derive(Clone, Copy, Debug, PartialEq, Eq, Hash)]
pub enum Dir {
    /// The caller, or the environment of the whole program.
    In,
    /// The module.
    Out,
}

/// A formal of a module, in the order of its list.
#[derive(Debug, Drop)]
pub struct Formal {
    pub class: Class,
    pub dir: Dir,
    pub ty: Ty,
    pub name: Name,
}

/// A local variable, which exists while its scope is active.
#[derive(Debug, Drop)]
pub struct Decl {
    pub class: Class,
    pub ty: Ty,
    pub name: Name,
}

/// An input or an output of a circuit.
#[derive(Debug, Drop)]
pub struct Port {
    pub name: Name,
    pub ty: Ty,
}

/// A module as its callers see it.
#[derive(Debug, Drop)]
pub struct Proto {
    pub name: Name,
    pub formals: Items<Formal>,
}
