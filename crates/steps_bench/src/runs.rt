//! Programs that run.

use anyhow::{Result, bail};
use qz_interp::{Machine, StepRefusal};
use qz_syntax::Whole;
use qz_values::Value;
use std::alloc::Global;

/// When the inputs are true.
#[derive(Clone, Copy)]
pub enum Inputs {
    Never,
    /// In every other step, from the second on.
    EveryOther,
    /// The three inputs one after the other, with a step without any before them.
    OneByOne,
}

impl Inputs {
    /// Whether an input is true in a step.
    fn is_true(self, input: u32, step: u32) -> bool {
        match self {
            Inputs::Never => false,
            Inputs::EveryOther => step % 2 == 1,
            Inputs::OneByOne => step % 4 == input % 4 + 1,
        }
    }
}

/// Lets the row be a step's inputs, so many.
fn fill(row: &mut Vec<Value>, count: u32, inputs: Inputs, step: u32) -> Result<()> {
    row.clear();
    for input in 0..count {
        row.push(Value::truth(inputs.is_true(input, step)))?;
    }
    Ok(())
}

/// Takes a step, and answers whether the first output is true.
fn take(alloc: Global, machine: &mut Machine, row: &[Value], step: u32) -> Result<bool> {
    let mut outputs = [Value::truth(false)];
    match machine.step(alloc, row, &mut outputs) {
        Ok(()) => Ok(outputs[0].bits() == 1),
        Err(StepRefusal::NotDefinite { .. }) => bail!("step {step} isn't definite"),
        Err(StepRefusal::Memory) => bail!("memory"),
    }
}

/// Takes so many steps of a program, and answers in how many the first output was true.
pub fn run(alloc: Global, w: Whole, count: u32, inputs: Inputs, steps: u32) -> Result<u32> {
    let mut machine = Machine::make(alloc, w)?;
    take_all(alloc, &mut machine, count, inputs, steps)
}

fn take_all(
    alloc: Global,
    machine: &mut Machine,
    count: u32,
    inputs: Inputs,
    steps: u32,
) -> Result<u32> {
    let mut row = Vec::new(alloc);
    let mut all = 0u32;
    for step in 0..steps {
        fill(&mut row, count, inputs, step)?;
        if take(alloc, machine, &row, step)? {
            all = all.saturating_add(1);
        }
    }
    Ok(all)
}
