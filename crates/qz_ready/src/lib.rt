//! Whether a module can be compiled so far: each of its expressions has the type that its place asks for,
//! and it has no calls.
#![tactic(auto)]

mod expressions;
mod ready;

pub use expressions::type_of;
pub use ready::is_ready;
