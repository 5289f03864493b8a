//! Whether types are types that there are.

ghost use Rattle.std.specs.Prelude.{◌↔◌, IsTrue};
ghost use Rattle.std.specs.List.{AllByRecursion};
ghost use Rattle.qz_values.specs.Types.{IsType};

use qz_values::{Ty, is_type};

/// Whether a trace's values may have these types: a vector has from 1 to 64 bits.
pub fn are_types(types: &[Ty]) -> bool
    ensures { IsTrue result ↔ AllByRecursion IsType types.now }
{
    types.iter().all(|ty| is_type(*ty))
}
