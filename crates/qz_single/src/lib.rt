//! The system of a whole program of one module that calls nothing.
#![tactic(auto)]

mod acts;
mod cells;
mod compiled;
mod compiling;
mod delayed;
mod formals;
mod hidden;
mod instances;
mod leaves;
mod making;
mod named;
mod numbering;
mod numbers;
mod ports;
mod shapes;
mod size;
mod spots;
mod system;
mod texts;
mod wired;

pub use compiled::Compiled;
pub use compiling::compile;
pub use system::system_of;
