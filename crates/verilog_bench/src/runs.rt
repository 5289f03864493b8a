//! Modules that run.

ghost use Rattle.std.specs.Prelude.{◌≡◌, IfOk};
ghost use Rattle.qz_verilog.specs.Validity.{IsValid};

use anyhow::{Result, ensure};
use qz_verilog::{Sim, VModule, validate};
use std::alloc::Global;

/// The module, if it is valid.
pub fn checked(m: VModule) -> Result<VModule>
    ensures { IfOk result IsValid }
{
    ensure!(validate(&m), "the module isn't valid");
    Ok(m)
}

/// The first output at the last of so many clocks, where each input is 1.
pub fn run(alloc: Global, m: VModule, clocks: u32) -> Result<u64> {
    let inputs = vec![in alloc; 1; m.inputs.len()]?;
    let mut outputs = vec![in alloc; 0; m.outputs.len()]?;
    let mut sim = Sim::make(alloc, checked(m)?)?;
    for _ in 0..clocks {
        step(&mut sim, inputs.as_slice(), outputs.as_mut_slice())?;
    }
    Ok(outputs.first().copied().unwrap_or(0))
}

/// One clock.
fn step(sim: &mut Sim, inputs: &[u64], outputs: &mut [u64]) -> Result<()> {
    ensure!(sim.takes(inputs), "the inputs don't fit");
    ensure!(
        outputs.len() == sim.circuit().outputs.len(),
        "there is no room for the outputs"
    );
    sim.clock(inputs, outputs);
    Ok(())
}
