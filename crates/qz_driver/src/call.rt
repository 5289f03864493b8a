//! The call that the program makes.

ghost use Rattle.std.specs.Prelude.{ℕ, ◌≡◌, take, OnOk};
ghost use Rattle.std.specs.Io.KnownBytes.{append_known};
ghost use Rattle.qz_io.specs.Answers.{OnFailed, OnMemory, UnlessFailed};
ghost use Rattle.qz_io.specs.Counts.{Rose};
ghost use Rattle.qz_diag.specs.Causes.{cause_of, line_of};
ghost use Rattle.qz_driver.specs.Answers.{seen, IsUsage, IsRefused, IsReadFault, IsWriteFault, IsNoMemory, IsDone, IsAnswer, IsComplete};
ghost use Rattle.qz_driver.specs.BuildRow.{build_row};
ghost use Rattle.qz_driver.specs.RunRow.{run_row};
ghost use Rattle.qz_driver.specs.SimRow.{sim_row};
ghost use Rattle.qz_driver.specs.Outcomes.{Ends};
ghost use Rattle.qz_driver.specs.Modes.{asked};
ghost use Rattle.qz_driver.specs.Rows.{Asks};

use crate::build::build;
use crate::run_program::run;
use crate::simulate::simulate;
use crate::status::Status;
use crate::words::{Named, Request, command};
use crate::work::{Output, Stop};
use qz_diag::Refusal;
use qz_io::{FileFault, Files, Sink};
use std::alloc::Global;

/// Does what the words ask for. `build NAME FILE` puts `NAME.v`, the Verilog text of the module NAME
/// in FILE. `run NAME FILE` takes one macro step of the module NAME in FILE for each row of inputs in
/// `NAME.in`, and puts the rows of outputs, `NAME.out`. `sim NAME FILE` reads the Verilog text in FILE, runs its module NAME by one clock for each
/// row of inputs in `NAME.in`, and puts the rows of outputs, `NAME.out`.
pub fn quartzc<F: Files, O: Sink>(
    alloc: Global,
    words: &[String],
    files: &mut F,
    out: &mut O,
) -> Status
    ensures usage { result ≡ Status.Usage →
        IsUsage (asked words.now) (seen F.Files O.Sink files.old out.old) (seen F.Files O.Sink files.new out.new) }
    ensures refused { result ≡ Status.Refused →
        IsRefused (asked words.now) (seen F.Files O.Sink files.old out.old) (seen F.Files O.Sink files.new out.new) }
    ensures read_fault { result ≡ Status.ReadFault →
        IsReadFault (asked words.now) (seen F.Files O.Sink files.old out.old) (seen F.Files O.Sink files.new out.new) }
    ensures write_fault { result ≡ Status.WriteFault →
        IsWriteFault (asked words.now) (seen F.Files O.Sink files.old out.old) (seen F.Files O.Sink files.new out.new) }
    ensures done { result ≡ Status.Done →
        IsDone (asked words.now) (seen F.Files O.Sink files.old out.old) (seen F.Files O.Sink files.new out.new) }
    ensures no_memory { result ≡ Status.NoMemory →
        IsNoMemory (asked words.now) (seen F.Files O.Sink files.old out.old) (seen F.Files O.Sink files.new out.new) }
    ensures complete { IsComplete (asked words.now) (seen F.Files O.Sink files.old out.old) (seen F.Files O.Sink files.new out.new) result }
{
    match command(words) {
        Some(Request::Build(asked)) => run_build(alloc, asked, files, out),
        Some(Request::Run(asked)) => run_steps(alloc, asked, files, out),
        Some(Request::Simulate(asked)) => run_simulation(alloc, asked, files, out),
        None => match say(alloc, &Refusal::Usage, out) {
            Ok(()) => Status::Usage,
            Err(FileFault::Failed) => Status::WriteFault,
            Err(FileFault::Memory) => Status::NoMemory,
        },
    }
}

/// The mode `build`.
fn run_build<F: Files, O: Sink>(
    alloc: Global,
    asked: Named<'_>,
    files: &mut F,
    out: &mut O,
) -> Status
    ensures answers { IsAnswer (Asks (build_row asked.entry.name.now asked.entry.file.now))
        (seen F.Files O.Sink files.old out.old) (seen F.Files O.Sink files.new out.new) result }
    ensures complete { IsComplete (Asks (build_row asked.entry.name.now asked.entry.file.now))
        (seen F.Files O.Sink files.old out.old) (seen F.Files O.Sink files.new out.new) result }
{
    let work = build(alloc, asked, files);
    end(alloc, work, files, out)
}

/// The mode `run`.
fn run_steps<F: Files, O: Sink>(
    alloc: Global,
    asked: Named<'_>,
    files: &mut F,
    out: &mut O,
) -> Status
    ensures answers { IsAnswer (Asks (run_row asked.entry.name.now asked.entry.file.now))
        (seen F.Files O.Sink files.old out.old) (seen F.Files O.Sink files.new out.new) result }
    ensures complete { IsComplete (Asks (run_row asked.entry.name.now asked.entry.file.now))
        (seen F.Files O.Sink files.old out.old) (seen F.Files O.Sink files.new out.new) result }
{
    let work = run(alloc, asked, files);
    end(alloc, work, files, out)
}

/// The mode `sim`.
fn run_simulation<F: Files, O: Sink>(
    alloc: Global,
    asked: Named<'_>,
    files: &mut F,
    out: &mut O,
) -> Status
    ensures answers { IsAnswer (Asks (sim_row asked.entry.name.now asked.entry.file.now))
        (seen F.Files O.Sink files.old out.old) (seen F.Files O.Sink files.new out.new) result }
    ensures complete { IsComplete (Asks (sim_row asked.entry.name.now asked.entry.file.now))
        (seen F.Files O.Sink files.old out.old) (seen F.Files O.Sink files.new out.new) result }
{
    let work = simulate(alloc, asked, files);
    end(alloc, work, files, out)
}

/// Puts the file that the work made, or writes the line of what stands against it.
fn end<F: Files, O: Sink>(
    alloc: Global,
    work: Result<Output, Stop>,
    files: &mut F,
    out: &mut O,
) -> Status
    ensures { Ends work (seen F.Files O.Sink files.old out.old) (seen F.Files O.Sink files.new out.new) result }
{
    match work {
        Ok(output) => match files.put(alloc, output.name.as_str(), output.bytes.as_slice()) {
            Ok(()) => Status::Done,
            Err(FileFault::Failed) => Status::WriteFault,
            Err(FileFault::Memory) => Status::NoMemory,
        },
        Err(Stop::Refused(refusal)) => match say(alloc, &refusal, out) {
            Ok(()) => Status::Refused,
            Err(FileFault::Failed) => Status::WriteFault,
            Err(FileFault::Memory) => Status::NoMemory,
        },
        Err(Stop::Unread) => Status::ReadFault,
        Err(Stop::Memory) => Status::NoMemory,
    }
}

/// Writes the line of a refusal.
fn say<O: Sink>(alloc: Global, refusal: &Refusal, out: &mut O) -> Result<(), FileFault>
    ensures said { OnOk result (O.written out.new ≡ append_known (O.written out.old) (line_of (cause_of refusal.now))) }
    ensures prefix { OnFailed result ((n : ℕ) ×
        (O.written out.new ≡ append_known (O.written out.old) (take n (line_of (cause_of refusal.now))))) }
    ensures memory { OnMemory result (O.written out.new ≡ O.written out.old) }
    ensures rose { OnFailed result (Rose (O.faults out.old) (O.faults out.new)) }
    ensures stay { UnlessFailed result (O.faults out.new ≡ O.faults out.old) }
{
    let line = refusal.line(alloc)?;
    out.put(alloc, line.as_bytes())
}
