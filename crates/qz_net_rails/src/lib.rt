//! The rails of nets: what is known of each net of a table at every valuation at once.
//!
//! Each leaf of the table has a rail. From those comes a rail for each net, net by net in the order
//! of their numbers, so that each net's operands have theirs before it.
#![tactic(auto)]

mod building;

pub use building::net_rails;
