//! Runs of programs, written as a text.

use crate::programs::{Declared, Program, whole};
use qz_interp::{Machine, StepRefusal};
use qz_syntax::Doubt;
use qz_values::Value;
use std::alloc::Global;
use std::test::Fail;

/// A program, its inputs in each step, and the text of what comes: the outputs of each step, with `/`
/// behind them, up to the first step that isn't taken.
#[derive(Clone, Copy)]
pub struct Row {
    pub program: Program,
    pub inputs: &'static [&'static [u64]],
    pub text: &'static str,
}

/// A value of each type by these numbers.
fn values(alloc: Global, all: &[Declared], numbers: &[u64]) -> Result<Vec<Value>, Fail> {
    let mut values = Vec::new(alloc);
    for ((_, ty, _), bits) in all.iter().zip(numbers) {
        values.push(Value::new(*ty, *bits).ok_or("no value")?)?;
    }
    Ok(values)
}

/// Writes a row of values.
fn write_values(text: &mut String, values: &[Value]) -> Result<(), Fail> {
    for (place, value) in values.iter().enumerate() {
        if place > 0 {
            text.push_str(" ")?;
        }
        write!(text, "{}", value.bits())?;
    }
    text.push_str("/")?;
    Ok(())
}

fn doubt_text(doubt: Doubt) -> &'static str {
    match doubt {
        Doubt::Unknown => "unknown",
        Doubt::Clash => "clash",
    }
}

/// Writes why a step isn't taken.
fn write_refusal(
    text: &mut String,
    machine: &Machine,
    step: usize,
    refusal: StepRefusal,
) -> Result<(), Fail> {
    match refusal {
        StepRefusal::NotDefinite {
            instance,
            delayed,
            doubt,
        } => {
            let next = if delayed { "next " } else { "" };
            let name = machine.name_of(instance);
            write!(text, "step {step}: {next}{name} {}", doubt_text(doubt))?;
            Ok(())
        }
        StepRefusal::Memory => Err(Fail::from("memory")),
    }
}

/// Takes the step with this number, writes what comes, and answers whether the step was taken.
fn write_step(
    alloc: Global,
    text: &mut String,
    machine: &mut Machine,
    step: usize,
    inputs: &[Value],
    outputs: &mut [Value],
) -> Result<bool, Fail> {
    match machine.step(alloc, inputs, outputs) {
        Ok(()) => {
            write_values(text, outputs)?;
            Ok(true)
        }
        Err(refusal) => {
            write_refusal(text, machine, step, refusal)?;
            Ok(false)
        }
    }
}

/// Writes all steps, up to the first that isn't taken.
fn write_steps(
    alloc: Global,
    text: &mut String,
    machine: &mut Machine,
    row: &Row,
) -> Result<(), Fail> {
    let mut outputs = vec![in alloc; Value::truth(false); row.program.outputs.len()]?;
    for (number, numbers) in row.inputs.iter().enumerate() {
        let inputs = values(alloc, row.program.inputs, numbers)?;
        let step = number.saturating_add(1);
        if !write_step(alloc, text, machine, step, &inputs, &mut outputs)? {
            return Ok(());
        }
    }
    Ok(())
}

/// The machine of a program, at its beginning.
fn machine(alloc: Global, program: &Program) -> Result<Machine, Fail> {
    let w = whole(alloc, program)?;
    match Machine::make(alloc, w) {
        Ok(machine) => Ok(machine),
        Err(error) => Err(Fail::from(error)),
    }
}

fn text_by(alloc: Global, machine: &mut Machine, row: &Row) -> Result<String, Fail> {
    let mut text = String::new(alloc);
    write_steps(alloc, &mut text, machine, row)?;
    Ok(text)
}

/// What comes of a row's program.
pub fn text_of(alloc: Global, row: &Row) -> Result<String, Fail> {
    match machine(alloc, &row.program) {
        Ok(mut machine) => text_by(alloc, &mut machine, row),
        Err(fail) => Err(fail),
    }
}
