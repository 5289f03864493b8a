//! The Verilog text of a module.
//!
//! Each valid module has one text, and each text is of one module. The constructs follow IEEE
//! 1364-2005.
#![tactic(auto)]

mod pen;
mod spell;
mod write;

pub use spell::push_name;
pub use write::write_v;
