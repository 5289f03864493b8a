//! From typed modules to a whole program: the top's body with its texts, or why there is none.
//!
//! Today a whole program is one module without prototypes. A program of several modules needs more of
//! what may be said against it, and each call replaced by its callee's body.
#![tactic(auto)]

mod depths;
mod endings;
mod texts;
mod whole;

pub use texts::spelled;
pub use whole::expand_one;
