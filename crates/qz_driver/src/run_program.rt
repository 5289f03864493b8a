//! The mode `run`: from its words to the file that it puts, or to why it puts none.

ghost use Rattle.std.specs.Prelude.{◌≡◌, ◌≤◌, [], length, IfOk, IfErr, OnOk, MatchResult, string_bytes};
ghost use Rattle.qz_io.specs.Answers.{IfBytes};
ghost use Rattle.qz_syntax.specs.WellFormed.{IsWellFormed};
ghost use Rattle.qz_trace.specs.Rows.{rows_in};
ghost use Rattle.qz_driver.specs.Answers.{files_seen};
ghost use Rattle.qz_interp.specs.Machines.{configuration_of};
ghost use Rattle.qz_meaning.specs.Configurations.{initial};
ghost use Rattle.qz_meaning.specs.Programs.{program_of};
ghost use Rattle.qz_run.specs.Inputs.{input_types, IsInputTrace};
ghost use Rattle.qz_run.specs.Runs.{IsRunOf};
ghost use Rattle.qz_driver.specs.RunRow.{run_row, types_in, IsOfRun, IsDoubtOver, IsRunText, IsRunOver};
ghost use Rattle.qz_driver.specs.SimRow.{inputs_name, IsOfInputs};
ghost use Rattle.qz_driver.specs.Running.{IsRunning, IsInputsFile, IsRunOutput, AreGiven};
ghost use Rattle.qz_driver.specs.Work.{content_of, IsUngot, IsWork, StopsOver};

use crate::files::{content, output_file};
use crate::inputs::inputs_in;
use crate::programs::program_in;
use crate::words::Named;
use crate::work::{Output, Stop};
use qz_diag::Refusal;
use qz_interp::Machine;
use qz_io::{Files, Got};
use qz_program::MAX_SOURCE;
use qz_run::{RunStop, input_types, output_count, run_rows};
use qz_syntax::{Module, Whole};
use qz_trace::{TRACE_LIMIT, Trace, print_trace};
use qz_values::Ty;
use std::alloc::{AllocError, Global};

/// Reads the source and its program's inputs, and makes the text of the outputs.
pub fn run<F: Files>(alloc: Global, asked: Named<'_>, files: &mut F) -> Result<Output, Stop>
    ensures { IsWork (run_row asked.entry.name.now asked.entry.file.now) (files_seen F.Files files.old)
        (files_seen F.Files files.new) result }
{
    let got = match content(alloc, files, asked.file, MAX_SOURCE) {
        Ok(got) => got,
        Err(stop) => return Err(stop),
    };
    match program_in(alloc, asked, &got) {
        Ok(program) => run_program(alloc, asked.name, program, files),
        Err(stop) => Err(stop),
    }
}

/// Reads the inputs of the program, and makes the text of its outputs.
fn run_program<F: Files>(
    alloc: Global,
    name: &str,
    program: Whole,
    files: &mut F,
) -> Result<Output, Stop>
    requires { IsWellFormed [] program.module }
    ensures { IsRunning name.now program (files_seen F.Files files.old) (files_seen F.Files files.new) result }
{
    match inputs_got(alloc, name, files) {
        Ok(inputs) => output_given(alloc, name, program, inputs),
        Err(stop) => Err(stop),
    }
}

/// What was found under the name of a module's inputs.
#[derive(Drop)]
struct Inputs {
    name: String,
    got: Got,
}

/// Gets the inputs of the module of this name.
fn inputs_got<F: Files>(alloc: Global, name: &str, files: &mut F) -> Result<Inputs, Stop>
    ensures found { IfOk result (λ inputs. IsInputsFile name.now (files_seen F.Files files.old).held inputs) }
    ensures within { IfOk result (λ inputs. IfBytes inputs.got (λ bytes. length bytes ≤ 16777216)) }
    ensures stays { OnOk result (files_seen F.Files files.new ≡ files_seen F.Files files.old) }
    ensures ungot { IfErr result (IsUngot (inputs_name name.now) (files_seen F.Files files.old) (files_seen F.Files files.new)) }
{
    match inputs_name(alloc, name) {
        Ok(name) => match content(alloc, files, name.as_str(), TRACE_LIMIT as u64) {
            Ok(got) => Ok(Inputs { name, got }),
            Err(stop) => Err(stop),
        },
        Err(AllocError) => Err(Stop::Memory),
    }
}

/// The name of the file of a module's inputs.
fn inputs_name(alloc: Global, name: &str) -> Result<String, AllocError>
    ensures { IfOk result (λ input. string_bytes input ≡ inputs_name name.now) }
{
    format!(in alloc; "{name}.in")
}

/// The file of the program's outputs, from what was found under the name of its inputs.
fn output_given(alloc: Global, name: &str, program: Whole, inputs: Inputs) -> Result<Output, Stop>
    requires well_formed { IsWellFormed [] program.module }
    requires within { IfBytes inputs.got (λ bytes. length bytes ≤ 16777216) }
    ensures { MatchResult result (IsRunOutput name.now program (content_of inputs.got))
        (StopsOver (IsOfRun (string_bytes inputs.name) program (content_of inputs.got))) }
{
    match text_given(alloc, inputs.name, program, &inputs.got) {
        Ok(text) => output_file(alloc, name, ".out", text),
        Err(stop) => Err(stop),
    }
}

/// The text of the program's outputs, from what was found under the name of its inputs.
fn text_given(alloc: Global, input: String, program: Whole, got: &Got) -> Result<Vec<u8>, Stop>
    requires well_formed { IsWellFormed [] program.module }
    requires within { IfBytes got.now (λ bytes. length bytes ≤ 16777216) }
    ensures { MatchResult result (λ text. IsRunOver program (content_of got.now) text.items)
        (StopsOver (IsOfRun (string_bytes input) program (content_of got.now))) }
{
    match given(alloc, input, &program.module, got) {
        Ok((types, rows)) => text_over(alloc, program, types.as_slice(), &rows),
        Err(stop) => Err(stop),
    }
}

/// The types of a module's inputs, and their rows.
fn given(alloc: Global, input: String, root: &Module, got: &Got) -> Result<(Vec<Ty>, Trace), Stop>
    requires well_formed { IsWellFormed [] root.now }
    requires within { IfBytes got.now (λ bytes. length bytes ≤ 16777216) }
    ensures { MatchResult result (λ found. AreGiven root.now (content_of got.now) found.0.items found.1)
        (StopsOver (IsOfInputs (string_bytes input) (input_types (program_of root.now)) (content_of got.now))) }
{
    let types = input_types(alloc, root)?;
    match inputs_in(alloc, input, types.as_slice(), got) {
        Ok(rows) => Ok((types, rows)),
        Err(stop) => Err(stop),
    }
}

/// The text of the program's outputs over rows of its inputs.
fn text_over(alloc: Global, program: Whole, types: &[Ty], rows: &Trace) -> Result<Vec<u8>, Stop>
    requires well_formed { IsWellFormed [] program.module }
    requires types { types.now ≡ types_in program }
    requires rows { IsInputTrace (program_of program.module) rows.now }
    ensures { MatchResult result (λ text. IsRunText program (rows_in rows.now) text.items)
        (StopsOver (IsDoubtOver program (rows_in rows.now))) }
{
    match outputs_over(alloc, program, types, rows) {
        Ok(outs) => match print_trace(alloc, &outs) {
            Ok(text) => Ok(text),
            Err(AllocError) => Err(Stop::Memory),
        },
        Err(RunStop::NotDefinite { step, name, doubt }) => {
            Err(Stop::Refused(Refusal::NotDefinite { step, name, doubt }))
        }
        Err(RunStop::Memory) => Err(Stop::Memory),
    }
}

/// The rows of the program's outputs over rows of its inputs.
fn outputs_over(alloc: Global, program: Whole, types: &[Ty], rows: &Trace) -> Result<Trace, RunStop>
    requires well_formed { IsWellFormed [] program.module }
    requires types { types.now ≡ types_in program }
    requires rows { IsInputTrace (program_of program.module) rows.now }
    ensures { IsRunOf program rows.now result }
{
    match output_count(alloc, &program.module) {
        Ok(width) => outputs_of(alloc, program, types, rows, width),
        Err(AllocError) => Err(RunStop::Memory),
    }
}

/// The same, of which a row has so many values.
fn outputs_of(
    alloc: Global,
    program: Whole,
    types: &[Ty],
    rows: &Trace,
    width: usize,
) -> Result<Trace, RunStop>
    requires well_formed { IsWellFormed [] program.module }
    requires types { types.now ≡ types_in program }
    requires rows { IsInputTrace (program_of program.module) rows.now }
    requires width { width ≡ length (program_of program.module).outputs }
    ensures { IsRunOf program rows.now result }
{
    match Machine::make(alloc, program) {
        Ok(machine) => outputs_from(alloc, machine, types, rows, width),
        Err(AllocError) => Err(RunStop::Memory),
    }
}

/// The same of a machine at its beginning.
fn outputs_from(
    alloc: Global,
    machine: Machine,
    types: &[Ty],
    rows: &Trace,
    width: usize,
) -> Result<Trace, RunStop>
    requires well_formed { IsWellFormed [] machine.whole.module }
    requires beginning { configuration_of machine ≡ initial (program_of machine.whole.module) }
    requires types { types.now ≡ types_in machine.whole }
    requires rows { IsInputTrace (program_of machine.whole.module) rows.now }
    requires width { width ≡ length (program_of machine.whole.module).outputs }
    ensures { IsRunOf machine.whole rows.now result }
{
    let mut machine = machine;
    run_rows(alloc, &mut machine, types, rows, width)
}
