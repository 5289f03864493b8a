//! Nets: formulas over leaves, each at its number, of which equal ones are one.
//!
//! A compiler writes what a statement does as nets. What is known of a net, where its leaves are
//! known in part, is what the operators on knowledge give of what is known of its operands; so a
//! net stands for the same at every knowledge of the leaves, contradiction among it.
#![tactic(auto)]

mod building;
mod evaluation;
mod laws;
mod net;
mod table;

pub use laws::{equal_nets_have_one_number, readings_agree};
pub use net::{Net, NetId};
pub use table::NetTable;
