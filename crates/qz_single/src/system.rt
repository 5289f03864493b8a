//! The system of a whole program.

ghost use Rattle.std.specs.Prelude.{◌≡◌, [], IsTrue, IfOk};
ghost use Rattle.qz_syntax.specs.Numbers.{is_unbound};
ghost use Rattle.qz_syntax.specs.WellFormed.{IsWellFormed};
ghost use Rattle.qz_single.specs.Made.{IsSystemOf};

use crate::compiling::compile;
use crate::making::parts_of;
use qz_syntax::Whole;
use qz_system::{System, SystemParts};
use std::alloc::{AllocError, Global};

/// The system of a whole program of one module that calls nothing.
///
/// # Errors
///
/// Want of memory. So is answered, too, where the parts that were made aren't those of a system: where
/// inputs, cells, places or instances are too many, or two ports have one name.
pub fn system_of(alloc: Global, w: &Whole) -> Result<System, AllocError>
    requires well_formed { IsWellFormed [] w.now.module }
    requires unbound { IsTrue (is_unbound w.now.module.body) }
    ensures { IfOk result (λ system. IsSystemOf w.now system.parts) }
{
    let compiled = compile(alloc, &w.module)?;
    let parts = parts_of(alloc, w, compiled)?;
    system_with(alloc, parts)
}

/// The system of these parts, if they are a system's.
fn system_with(alloc: Global, parts: SystemParts) -> Result<System, AllocError>
    ensures { IfOk result (λ system. system.parts ≡ parts) }
{
    if parts.are_right(alloc)? {
        System::make(alloc, parts)
    } else {
        Err(AllocError)
    }
}
