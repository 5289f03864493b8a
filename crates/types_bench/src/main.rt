//! Types files of any size, so that the time of it can be measured from outside.
//!
//! `types_bench FAMILY N ROUNDS` makes the family's file at size N, and types it so many times. It prints
//! the size of the module that came last, or 0 where there were no rounds.
#![tactic(auto)]

mod families;

use anyhow::{Context, Result, bail};
use families::Family;
use qz_syntax::{File, size};
use qz_types::check;
use std::alloc::Global;
use std::env;

fn main(rt: HostRuntime) -> Result<()> {
    let mut words = env::args(&rt)?.skip(1);
    let (Some(family), Some(count), Some(rounds)) = (words.next(), words.next(), words.next())
    else {
        bail!("usage: types_bench FAMILY N ROUNDS");
    };
    let Some(family) = Family::named(family.as_str()) else {
        bail!("FAMILY is uses, declarations or scopes");
    };
    let count = count.parse::<u32>().context("N")?;
    let rounds = rounds.parse::<u32>().context("ROUNDS")?;
    let file = family.file(rt.alloc(), count)?;
    println!(rt; "{}", typed(rt.alloc(), &file, rounds)?)?;
    Ok(())
}

/// Types a file so many times. The size of the module that came last.
fn typed(alloc: Global, file: &File, rounds: u32) -> Result<u64> {
    let mut last = 0;
    for _ in 0..rounds {
        last = size(&check(alloc, file)?.module);
    }
    Ok(last)
}
