//! The whole program that the bytes of one source make, or the first cause against them.
//!
//! The bytes are read, the file is typed, and its module is the program's top. A source that has prototypes
//! would need the modules of those names, so it makes no program by itself.
//!
//! The causes come in this order: the bytes spell no file; a fault of types; prototypes; the size of the file's
//! module; and then what stands against the module as a whole program of the wanted name.
#![tactic(auto)]

mod causes;
mod program;

pub use causes::NoProgram;
pub use program::{MAX_SOURCE, program_of_bytes};
