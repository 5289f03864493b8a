//! The parts of a system, made of what is compiled of a program's module.

ghost use Rattle.std.specs.Prelude.{IfOk};
ghost use Rattle.qz_syntax.specs.declared.modules.Whole.{Whole as OfTree};
ghost use Rattle.qz_single.specs.Made.{IsMade};
ghost use Rattle.qz_single.specs.Joined.{IsNamed, IsWired};

use crate::compiled::Compiled;
use crate::named::{Named, named_of};
use crate::numbering::Numbering;
use crate::wired::{Wired, wired_of};
use qz_react::Walker;
use qz_syntax::Whole;
use qz_system::SystemParts;
use std::alloc::{AllocError, Global};

/// The parts with what was compiled of the program's module.
pub(crate) fn parts_of(alloc: Global, w: &Whole, c: Compiled) -> Result<SystemParts, AllocError>
    ensures { IfOk result (λ parts. IsMade w.now c parts) }
{
    let walker = Walker::make(alloc, &w.module)?;
    let numbering = Numbering::of(alloc, &w.module, walker.instances())?;
    let named = named_of(alloc, w, &numbering, walker.instances())?;
    let wired = wired_of(alloc, &numbering, &c)?;
    Ok(joined(named, wired, c))
}

fn joined(named: Named, wired: Wired, c: Compiled) -> SystemParts
    ensures { (w : OfTree) → IsNamed w named → IsWired w.module c wired → IsMade w c result }
{
    SystemParts {
        name: named.name,
        inputs: named.inputs,
        outputs: named.outputs,
        cells: named.cells,
        shape: named.shape,
        places: named.places,
        instances: named.instances,
        table: c.circuit.table,
        leaves: wired.leaves,
        acts: wired.acts,
        nexts: wired.nexts,
        carries: wired.carries,
        units: named.units,
    }
}
