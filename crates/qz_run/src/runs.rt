//! A program's run over rows of inputs.

ghost use Rattle.std.specs.Prelude.{◌≡◌, [], length};
ghost use Rattle.qz_syntax.specs.WellFormed.{IsWellFormed};
ghost use Rattle.qz_meaning.specs.Programs.{program_of};
ghost use Rattle.qz_meaning.specs.Configurations.{initial};
ghost use Rattle.qz_interp.specs.Machines.{configuration_of};
ghost use Rattle.qz_run.specs.Inputs.{input_types, IsInputTrace};
ghost use Rattle.qz_run.specs.Runs.{IsRunOf};

use crate::rows::{push_numbers, take_numbers};
use crate::stops::{RunStop, stop_at};
use qz_interp::{Machine, StepRefusal};
use qz_trace::Trace;
use qz_values::{Ty, Value};
use std::alloc::Global;

/// The outputs of a machine at its beginning over rows of its program's inputs, one macro step for each row,
/// past the program's end too. `types` are those of the inputs, and a row of outputs has `width` values.
///
/// # Errors
///
/// The first step that isn't definite, or want of memory. The machine is then open.
pub fn run_rows(
    alloc: Global,
    machine: &mut Machine,
    types: &[Ty],
    inputs: &Trace,
    width: usize,
) -> Result<Trace, RunStop>
    requires well_formed { IsWellFormed [] machine.old.whole.module }
    requires beginning { configuration_of machine.old ≡ initial (program_of machine.old.whole.module) }
    requires types { types.now ≡ input_types (program_of machine.old.whole.module) }
    requires inputs { IsInputTrace (program_of machine.old.whole.module) inputs.now }
    requires width { width ≡ length (program_of machine.old.whole.module).outputs }
    ensures { IsRunOf machine.old.whole inputs.now result }
{
    let mut row = Vec::new(alloc);
    let mut held = vec![in alloc; Value::truth(false); width]?;
    let given = held.as_mut_slice();
    let mut values = Vec::new(alloc);
    let mut rest = inputs.values.as_slice();
    for step in 0..inputs.steps {
        let (numbers, later) = rest.split_at(inputs.width);
        take_numbers(types, numbers, &mut row)?;
        match machine.step(alloc, row.as_slice(), given) {
            Ok(()) => push_numbers(given, &mut values)?,
            Err(refusal) => return Err(stop_at(alloc, machine, step as u32 + 1, refusal)),
        }
        rest = later;
    }
    Ok(Trace {
        width,
        steps: inputs.steps,
        values,
    })
}
