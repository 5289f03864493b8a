//! The run of a whole program over the rows of a trace: the rows of its outputs, or the first step that isn't
//! definite.
#![tactic(auto)]

mod formals;
mod rows;
mod runs;
mod stops;

pub use formals::{input_types, output_count};
pub use runs::run_rows;
pub use stops::RunStop;
