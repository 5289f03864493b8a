//! From a file as it is written to its typed module: `check`.
//!
//! Against a file is said: names that stand for nothing or are declared twice, types that differ, widths,
//! literals and indices out of range, writes to inputs, and arguments that don't fit. `first_fault` gives
//! the fault that is told: the one with the least offset, and at one offset the first in the order of the
//! kinds. It is the least of all that is said, so the order in which the walks find faults has no part in it.
//!
//! Where nothing is said, each derived form is replaced by what it stands for, and places, locals, loops
//! and calls are numbered in tree order.
#![tactic(auto)]

mod arguments;
mod core_declarations;
mod core_expressions;
mod core_forms;
mod core_statements;
mod declarations;
mod expressions;
mod faults;
mod file_faults;
mod labels;
mod numbers;
mod scope;
mod short_lists;
mod statements;
mod typed;
mod variables;

pub use faults::{Fault, TypeKind};
pub use file_faults::first_fault;
pub use typed::{TypeRefusal, check};
