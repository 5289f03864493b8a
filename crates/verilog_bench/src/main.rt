//! Writes, reads and runs Verilog modules, so that the time of each can be measured from outside.
//!
//! `verilog_bench TASK N` does one of these, and prints one number:
//!
//! - `text`: the text of a chain of N wires goes to standard output, and nothing else;
//! - `write`: the bytes of that text;
//! - `read`: the text is read back, and its wires are counted;
//! - `clocks`: the output of a 64-bit counter at the last of N clocks;
//! - `wires`: the output of a chain of 10,000 wires at the last of N clocks.
#![tactic(auto)]

mod modules;
mod runs;

use anyhow::{Context, Result, bail, ensure};
use modules::{chain, counter};
use qz_verilog::VModule;
use qz_vread::read_v;
use qz_vtext::write_v;
use runs::{checked, run};
use std::alloc::Global;
use std::env;

/// How many wires the chain has that is run.
const WIRES: u32 = 10_000;

fn main(rt: HostRuntime) -> Result<()> {
    let alloc = rt.alloc();
    let mut words = env::args(&rt)?.skip(1);
    let (Some(task), Some(count)) = (words.next(), words.next()) else {
        bail!("usage: verilog_bench TASK N");
    };
    let count = count.parse::<u32>().context("N")?;
    match task.as_str() {
        "text" => {
            let text = text(alloc, count)?;
            print!(rt; "{}", str::from_utf8(text.as_slice())?)?;
        }
        "write" => println!(rt; "{}", text(alloc, count)?.len())?,
        "read" => println!(rt; "{}", read(alloc, count)?)?,
        "clocks" => println!(rt; "{}", run(alloc, counter(alloc)?, count)?)?,
        "wires" => println!(rt; "{}", run(alloc, chain(alloc, WIRES)?, count)?)?,
        _ => bail!("TASK is text, write, read, clocks or wires"),
    }
    Ok(())
}

/// The text of a chain of so many wires.
fn text(alloc: Global, wires: u32) -> Result<Vec<u8>> {
    let m: VModule = checked(chain(alloc, wires)?)?;
    Ok(write_v(alloc, &m)?)
}

/// How many wires were read of the text of a chain of so many.
fn read(alloc: Global, wires: u32) -> Result<usize> {
    let text = text(alloc, wires)?;
    ensure!(text.len() <= 67_108_864, "the text is longer than 64 MiB");
    let m = read_v(alloc, text.as_slice())?;
    Ok(m.wires.len())
}
