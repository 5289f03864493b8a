//! What may be said against modules and programs.

use crate::names::{Name, Text};

/// Why a variable isn't definite.
#[derive(Clone, Copy, Debug, PartialEq, Eq, Hash)]
pub enum Doubt {
    Unknown,
    Clash,
}

/// Why modules don't make a whole program, in the order in which the causes count.
#[derive(Debug, Drop)]
pub enum LinkRefusal {
    /// A module has the name of an earlier one.
    Duplicate { name: Name },
    /// The top, or else a callee, is not among the modules.
    Missing { name: Text },
    /// A call's prototype has other formals than its callee.
    Mismatch { caller: Name, callee: Name },
    /// A module calls itself through calls.
    Recursive { name: Name },
    /// The body of this loop, by its number in the module, may end at once.
    InstantLoop { module: Name, number: u32 },
    /// The whole program is too large; its size.
    Size { units: u64 },
    Memory,
}

/// Why a module isn't compiled.
#[derive(Clone, Copy, Debug, PartialEq, Eq)]
pub enum CompileRefusal {
    /// The module is too large; its size.
    Size { units: u64 },
    Memory,
}
