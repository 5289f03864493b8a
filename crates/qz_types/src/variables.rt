//! What is known of variables before their use is checked.

use qz_syntax::{Class, Dir};
use qz_values::Ty;

/// What is known of a variable that is in scope.
#[derive(Clone, Copy, Debug)]
pub(crate) struct Variable {
    pub class: Class,
    /// Whether it is an input. A local may be written, as an output may.
    pub dir: Dir,
    /// Its type, unless the width that it states is out of range.
    pub ty: Option<Ty>,
}
