//! Instances of a system, with their cells.

ghost use Rattle.std.specs.Prelude.{◌≡◌, ◌<◌, Some, length, slice_get};
ghost use Rattle.qz_system.specs.declared.parts.Inst.{Inst as InstOf};
ghost use Rattle.qz_system.specs.Parts.{AreParts, instance_type};

use qz_system::{Cell, Inst, SystemParts};
use qz_values::Ty;

/// The instance with a number that is in range.
pub fn instance_at(parts: &SystemParts, number: usize) -> &Inst
    requires { number < length parts.now.instances }
    ensures { slice_get parts.now.instances number ≡ Some result.now }
{
    &parts.instances.as_slice()[number]
}

/// The cell of the instance with a number that is in range.
pub fn cell_of(parts: &SystemParts, number: usize) -> &Cell
    requires parts { AreParts parts.now }
    requires within { number < length parts.now.instances }
    ensures { (one : InstOf) → slice_get parts.now.instances number ≡ Some one → slice_get parts.now.cells one.cell ≡ Some result.now }
{
    let one = instance_at(parts, number);
    cell_at(parts, one.cell as usize)
}

/// The cell with a number that is in range.
pub fn cell_at(parts: &SystemParts, cell: usize) -> &Cell
    requires { cell < length parts.now.cells }
    ensures { slice_get parts.now.cells cell ≡ Some result.now }
{
    &parts.cells.as_slice()[cell]
}

/// The type of the instance with a number that is in range.
pub fn type_of(parts: &SystemParts, number: usize) -> Ty
    requires parts { AreParts parts.now }
    requires within { number < length parts.now.instances }
    ensures { instance_type parts.now number ≡ Some result }
{
    cell_of(parts, number).ty
}
