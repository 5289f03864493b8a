//! The registers of a system's module.

ghost use Rattle.std.specs.Prelude.{◌≡◌, IfOk};
ghost use Rattle.qz_system.specs.Parts.{AreParts};
ghost use Rattle.qz_equations.specs.Registers.{initial_registers};

use qz_system::SystemParts;
use qz_values::Value;
use std::alloc::{AllocError, Global};

/// What the registers hold before the start.
pub fn initial(alloc: Global, parts: &SystemParts) -> Result<Vec<Value>, AllocError>
    requires { AreParts parts.now }
    ensures { IfOk result (λ registers. registers.items ≡ initial_registers parts.now) }
{
    let bools = 1 + parts.places.len() + parts.cells.len();
    let mut registers = vec![in alloc; Value::truth(false); bools]?;
    for cell in parts.cells.as_slice() {
        registers.push(Value::zero_of(cell.ty))?;
    }
    Ok(registers)
}
