//! Reads a source text again and again, so that the time of it can be measured from outside.
//!
//! `source_bench ROUNDS` reads the text on standard input so many times. It prints the length of the text, and
//! what is told against it, if anything is.
#![tactic(auto)]

ghost use Rattle.std.specs.Prelude.{◌≤◌, length};

use anyhow::{Context, Result, bail, ensure};
use qz_source::{SourceFault, read_module};
use std::alloc::Global;
use std::env;
use std::io::Read;

fn main(rt: HostRuntime) -> Result<()> {
    let mut words = env::args(&rt)?.skip(1);
    let Some(rounds) = words.next() else {
        bail!("usage: source_bench ROUNDS");
    };
    let rounds = rounds.parse::<u32>().context("ROUNDS")?;
    let mut text = Vec::new(rt.alloc());
    rt.stdin().read_to_end(&mut text)?;
    ensure!(text.len() <= 1_048_576, "the text is longer than 1 MiB");
    match told(rt.alloc(), text.as_slice(), rounds) {
        Some(fault) => println!(rt; "{}: {fault}", text.len())?,
        None => println!(rt; "{}", text.len())?,
    }
    Ok(())
}

/// What is told against a text, read so many times.
fn told(alloc: Global, text: &[u8], rounds: u32) -> Option<SourceFault>
    requires { length text.now ≤ 1048576 }
{
    let mut last = None;
    for _ in 0..rounds {
        last = read_module(alloc, text).err();
    }
    last
}
