//! Decision diagrams: functions of many bools, each with a number of its own.
//!
//! A diagram is a graph of nodes with two constants at its ends. A node reads one variable and goes
//! on to its low side where that is false, else to its high side. On each path variables come in the
//! order of their numbers, no node has two equal sides, and no two nodes are alike. In such a table
//! equal functions have equal numbers, so that a test for equality compares two numbers. The form and
//! its operations are those of Bryant, "Graph-Based Algorithms for Boolean Function Manipulation",
//! IEEE Transactions on Computers C-35 (8), 1986.
//!
//! Nodes and results are kept as long as the table: a number keeps its function, and what was
//! computed before is a look-up.
#![tactic(auto)]

mod call;
mod diagrams;
mod laws;
mod node;
mod solver;
mod table;
mod work;

pub use call::DdOp;
pub use diagrams::Diagrams;
pub use laws::equal_functions_have_equal_numbers;
pub use node::DdId;
