//! Runs programs step by step, so that the time of a step can be measured from outside.
//!
//! `steps_bench TASK SIZE STEPS` runs one of these for so many steps, and prints in how many of them its
//! output was true:
//!
//! - `abro`: ABRO, whose inputs come one after the other: none, `a`, `b`, `r`, and again; SIZE doesn't count;
//! - `parallel`: so many parts that wait for `a`, which never comes, and then give the output;
//! - `aside`: so many scopes in the side of an `if` that isn't taken; the output is true after the first step;
//! - `chain`: so many locals of which each takes the value of the one before it in the same step; the first
//!   takes `a`, which comes in every other step, and the output takes the last.
#![tactic(auto)]

mod programs;
mod runs;

use anyhow::{Context, Result, bail};
use programs::{abro, aside, chain, parallel};
use runs::{Inputs, run};
use std::env;

fn main(rt: HostRuntime) -> Result<()> {
    let alloc = rt.alloc();
    let mut words = env::args(&rt)?.skip(1);
    let (Some(task), Some(size), Some(steps)) = (words.next(), words.next(), words.next()) else {
        bail!("usage: steps_bench TASK SIZE STEPS");
    };
    let size = size.parse::<u32>().context("SIZE")?;
    let steps = steps.parse::<u32>().context("STEPS")?;
    let count = match task.as_str() {
        "abro" => run(alloc, abro(alloc)?, 3, Inputs::OneByOne, steps)?,
        "parallel" => run(alloc, parallel(alloc, size)?, 1, Inputs::Never, steps)?,
        "aside" => run(alloc, aside(alloc, size)?, 1, Inputs::Never, steps)?,
        "chain" => run(alloc, chain(alloc, size)?, 1, Inputs::EveryOther, steps)?,
        _ => bail!("TASK is abro, parallel, aside or chain"),
    };
    println!(rt; "{count}")?;
    Ok(())
}
