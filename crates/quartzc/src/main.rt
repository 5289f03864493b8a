//! The program `quartzc`: its words, the system's files and standard output, and the exit code.
#![tactic(auto)]

mod program;
#[cfg(test)]
mod tests;

use crate::program::{Ended, run};

fn main(rt: HostRuntime) -> Ended {
    run(&rt, rt, rt)
}
