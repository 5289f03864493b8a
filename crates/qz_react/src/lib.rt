//! What a whole program does in a step: the writes of its walk, and the place after it.
//!
//! A step from the beginning starts the body, and a step from a place where control rests resumes
//! what is inside. Both go by what is known of the program's instances, which have numbers.
#![tactic(auto)]

mod afters;
mod bindings;
mod environments;
mod expressions;
mod here;
mod instances;
mod meets;
mod numbering;
mod operators;
mod residing;
mod residuals;
mod rests;
mod resumes;
mod starts;
mod walker;

pub use environments::{Env, Met, Write};
pub use instances::Instance;
pub use residing::store_of;
pub use walker::{Walker, meet, next_place, react};
