//! Builds a family of diagrams, so that its time and memory can be measured from outside.
//!
//! `diagrams_bench FAMILY N ROUNDS` builds the family at size N so many times, each time in a table
//! of its own. It prints how many nodes the table has, and the variables that are true in the least
//! bits at which the last function built is true.
#![tactic(auto)]

mod families;
mod workbench;

use anyhow::{Context, Result, bail};
use families::Family;
use std::env;
use workbench::Workbench;

fn main(rt: HostRuntime) -> Result<()> {
    let mut words = env::args(&rt)?.skip(1);
    let (Some(family), Some(size), Some(rounds)) = (words.next(), words.next(), words.next()) else {
        bail!("usage: diagrams_bench FAMILY N ROUNDS");
    };
    let Some(family) = Family::named(family.as_str()) else {
        bail!("FAMILY is adder, weighted, queens or chain");
    };
    let size = size.parse::<u16>().context("N")?;
    let rounds = rounds.parse::<u32>().context("ROUNDS")?;
    for round in 1..=rounds {
        let mut bench = Workbench::new(rt.alloc(), family.variables(size))?;
        let built = family.build(&mut bench, size)?;
        if round == rounds {
            println!(rt; "nodes {}", bench.node_count())?;
            print!(rt; "least")?;
            for v in bench.least_one(built)?.iter() {
                print!(rt; " {v}")?;
            }
            println!(rt;)?;
        }
    }
    Ok(())
}
