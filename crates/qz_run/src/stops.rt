//! Why a run has no outputs for all of its rows.

ghost use Rattle.std.specs.Prelude.{◌≡◌, IfOk, string_bytes};
ghost use Rattle.qz_run.specs.Stepping.{doubt_of_number, IsStopFor};
ghost use Rattle.qz_run.specs.declared.stops.RunStop.TheVariants.{Memory as RunMemory};

use qz_interp::{Machine, StepRefusal};
use qz_syntax::Doubt;
use std::alloc::{AllocError, Global};

/// Why a run ends before its rows do.
#[derive(Debug, Drop)]
pub enum RunStop {
    /// The least environment of a step isn't definite.
    NotDefinite {
        /// The first such step, counted from 1.
        step: u32,
        /// The text of the first instance that isn't definite, behind `next ` where it is the instance's
        /// delayed value.
        name: String,
        doubt: Doubt,
    },
    /// Want of memory.
    Memory,
}

impl From<AllocError> for RunStop {
    ghost from_gives = { λ _ stop. stop ≡ RunMemory };

    fn from(_: AllocError) -> Self {
        RunStop::Memory
    }
}

/// Why the run ends at the step with this number, which the machine doesn't take.
pub(crate) fn stop_at(alloc: Global, machine: &Machine, step: u32, refusal: StepRefusal) -> RunStop
    ensures { IsStopFor machine.now.whole step refusal result }
{
    match refusal {
        StepRefusal::NotDefinite {
            instance,
            delayed,
            doubt,
        } => match name_of(alloc, machine, instance, delayed) {
            Ok(name) => RunStop::NotDefinite { step, name, doubt },
            Err(AllocError) => RunStop::Memory,
        },
        StepRefusal::Memory => RunStop::Memory,
    }
}

/// How the instance with this number is named where there is doubt in it.
fn name_of(
    alloc: Global,
    machine: &Machine,
    instance: u32,
    delayed: bool,
) -> Result<String, AllocError>
    ensures { IfOk result (λ name. string_bytes name ≡ doubt_of_number machine.now.whole instance delayed) }
{
    let text = machine.name_of(instance);
    if delayed {
        format!(in alloc; "next {text}")
    } else {
        String::from_str(alloc, text)
    }
}
