//! Systems: a whole program as nets, with what rounds and valuations go by.
//!
//! A system has instances that settle round by round, acts that write to them under guards that are
//! nets, and a shape by which control may rest at its places. A valuation is a place, a store for each
//! cell and the inputs. `SystemParts` says what a system is made of, and what must hold of it.
#![tactic(auto)]

mod accepting;
mod declared;
mod fitting;
mod ordered;
mod parts;
mod permitting;
mod resting;
mod rounds;
mod settling;
mod shape;
mod shaped;
mod system;
mod typing;
mod valuation;
mod wired;
mod writers;

pub use parts::{Act, Carry, Cell, Inst, SystemLeaf, SystemParts};
pub use resting::{Living, Resting};
pub use shape::Shape;
pub use system::System;
pub use valuation::Valuation;
