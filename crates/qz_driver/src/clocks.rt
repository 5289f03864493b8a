//! A module's outputs over rows of inputs, clock by clock.

ghost use Rattle.std.specs.Prelude.{IfOk};
ghost use Rattle.qz_verilog.specs.Validity.{IsValid};
ghost use Rattle.qz_driver.specs.Simulating.{AreRows, AreOutputs};

use qz_trace::Trace;
use qz_verilog::{Sim, VModule};
use std::alloc::{AllocError, Global};

/// The rows of outputs, one for each row of inputs.
pub fn outputs(alloc: Global, circuit: VModule, rows: &Trace) -> Result<Trace, AllocError>
    requires valid { IsValid circuit }
    requires rows { AreRows circuit rows.now }
    ensures { IfOk result (AreOutputs circuit rows.now) }
{
    let width = circuit.outputs.len();
    let mut sim = Sim::make(alloc, circuit)?;
    let mut held = vec![in alloc; 0u64; width]?;
    let row = held.as_mut_slice();
    let mut values = Vec::new(alloc);
    let mut rest = rows.values.as_slice();
    for _ in 0..rows.steps {
        let (inputs, later) = rest.split_at(rows.width);
        sim.clock(inputs, row);
        values.extend_from_slice(row)?;
        rest = later;
    }
    Ok(Trace {
        width,
        steps: rows.steps,
        values,
    })
}
