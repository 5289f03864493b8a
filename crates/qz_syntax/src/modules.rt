//! Modules: as typed from one source, and as a whole program.

use crate::declarations::{Decl, Formal, Proto};
use crate::names::{Name, Text};
use crate::statements::Stmt;
use sqlite_items::Items;

/// One module with its body.
#[derive(Debug, Drop)]
pub struct Module {
    pub name: Name,
    pub formals: Items<Formal>,
    /// The locals in tree order.
    pub decls: Items<Decl>,
    /// For each place in tree order the label of its pause, if it has one.
    pub labels: Items<Option<Name>>,
    /// How many loops the body has.
    pub loops: u32,
    /// How many calls the body has.
    pub calls: u32,
    pub body: Stmt,
}

/// A source after typing: the prototypes of what it calls, and its module.
#[derive(Debug, Drop)]
pub struct Typed {
    pub protos: Items<Proto>,
    pub module: Module,
}

/// The texts by which places, locals and loops of a whole program are named.
#[derive(Debug, Drop)]
pub struct Names {
    pub places: Items<Text>,
    pub locals: Items<Text>,
    pub loops: Items<Text>,
}

/// A top module with each call replaced by its callee's body.
#[derive(Debug, Drop)]
pub struct Whole {
    pub module: Module,
    pub names: Names,
}
