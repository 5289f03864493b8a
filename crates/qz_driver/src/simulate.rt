//! The mode `sim`: from its words to the file that it puts, or to why it puts none.

ghost use Rattle.std.specs.Prelude.{◌≡◌, ◌≤◌, ◌↔◌, length, IsTrue, IfOk, MatchResult, string_bytes, encode_utf8_all};
ghost use Rattle.qz_io.specs.Answers.{IfBytes};
ghost use Rattle.qz_verilog.specs.Validity.{port_types, IsValid};
ghost use Rattle.qz_trace.specs.Rows.{rows_in};
ghost use Rattle.qz_driver.specs.Answers.{files_seen};
ghost use Rattle.qz_driver.specs.SimRow.{sim_row, IsCircuit, IsOfFile, IsOfVerilog, IsOfInputs, IsOutputs};
ghost use Rattle.qz_driver.specs.Simulating.{IsSimulated, AreInputsOf, AreRows};
ghost use Rattle.qz_driver.specs.Work.{content_of, IsWork, StopsOver};
ghost use Rattle.qz_driver.specs.Rows.{Bytes};

use crate::clocks::outputs;
use crate::files::{content, output_file};
use crate::inputs::inputs_in;
use crate::words::Named;
use crate::work::{Output, Stop};
use qz_diag::Refusal;
use qz_io::{Files, Got};
use qz_syntax::Port;
use qz_trace::{TRACE_LIMIT, Trace, print_trace};
use qz_values::Ty;
use qz_verilog::VModule;
use qz_vread::{BadVerilog, read_v};
use std::alloc::{AllocError, Global};

/// How many bytes a Verilog text may have.
const MAX_VERILOG: u64 = 67_108_864;

/// Reads the Verilog text and the inputs, and makes the text of the outputs.
pub fn simulate<F: Files>(alloc: Global, asked: Named<'_>, files: &mut F) -> Result<Output, Stop>
    ensures { IsWork (sim_row asked.entry.name.now asked.entry.file.now) (files_seen F.Files files.old)
        (files_seen F.Files files.new) result }
{
    let got = match content(alloc, files, asked.file, MAX_VERILOG) {
        Ok(got) => got,
        Err(stop) => return Err(stop),
    };
    match circuit(alloc, asked, &got) {
        Ok(circuit) => simulate_circuit(alloc, asked.name, circuit, files),
        Err(stop) => Err(stop),
    }
}

/// Reads the inputs of the circuit, and makes the text of its outputs.
fn simulate_circuit<F: Files>(
    alloc: Global,
    name: &str,
    circuit: VModule,
    files: &mut F,
) -> Result<Output, Stop>
    requires { IsValid circuit }
    ensures { IsSimulated name.now circuit (files_seen F.Files files.old) (files_seen F.Files files.new) result }
{
    let input = format!(in alloc; "{name}.in")?;
    let got = match content(alloc, files, input.as_str(), TRACE_LIMIT as u64) {
        Ok(got) => got,
        Err(stop) => return Err(stop),
    };
    match inputs_of(alloc, input, &circuit, &got) {
        Ok(trace) => output_file(alloc, name, ".out", outputs_text(alloc, circuit, &trace)?),
        Err(stop) => Err(stop),
    }
}

/// The module that was asked for, from what was found under the file's name.
fn circuit(alloc: Global, asked: Named<'_>, got: &Got) -> Result<VModule, Stop>
    requires { IfBytes got.now (λ bytes. length bytes ≤ 67108864) }
    ensures { MatchResult result (IsCircuit asked.entry.name.now (content_of got.now))
        (StopsOver (IsOfFile asked.entry.name.now asked.entry.file.now (content_of got.now))) }
{
    match got {
        Got::Absent => Err(Stop::Refused(Refusal::Absent {
            file: String::from_str(alloc, asked.file)?,
        })),
        Got::TooLong => Err(Stop::Refused(Refusal::TooLong {
            file: String::from_str(alloc, asked.file)?,
        })),
        Got::Bytes(bytes) => circuit_of_bytes(alloc, asked, bytes.as_slice()),
    }
}

/// The same from the file's bytes.
fn circuit_of_bytes(alloc: Global, asked: Named<'_>, bytes: &[u8]) -> Result<VModule, Stop>
    requires { length bytes.now ≤ 67108864 }
    ensures { MatchResult result (IsCircuit asked.entry.name.now (Bytes bytes.now))
        (StopsOver (IsOfVerilog asked.entry.name.now asked.entry.file.now bytes.now)) }
{
    match read_v(alloc, bytes) {
        Ok(circuit) if has_name(&circuit, asked.name) => Ok(circuit),
        Ok(circuit) => Err(Stop::Refused(Refusal::WrongName {
            file: String::from_str(alloc, asked.file)?,
            name: circuit.name,
        })),
        Err(BadVerilog::At { line }) => Err(Stop::Refused(Refusal::BadVerilog {
            file: String::from_str(alloc, asked.file)?,
            line,
        })),
        Err(BadVerilog::Memory) => Err(Stop::Memory),
    }
}

/// Whether the module has this name.
fn has_name(circuit: &VModule, name: &str) -> bool
    ensures { IsTrue result ↔ (encode_utf8_all circuit.now.name ≡ name.now) }
{
    circuit.name.as_str() == name
}

/// The rows of the circuit's inputs, from what was found under their name.
fn inputs_of(alloc: Global, input: String, circuit: &VModule, got: &Got) -> Result<Trace, Stop>
    requires valid { IsValid circuit.now }
    requires within { IfBytes got.now (λ bytes. length bytes ≤ 16777216) }
    ensures { MatchResult result (AreInputsOf circuit.now (content_of got.now))
        (StopsOver (IsOfInputs (string_bytes input) (port_types circuit.now.inputs) (content_of got.now))) }
{
    match types_of(alloc, circuit.inputs.as_slice()) {
        Ok(types) => inputs_in(alloc, input, types.as_slice(), got),
        Err(AllocError) => Err(Stop::Memory),
    }
}

/// The types of ports.
fn types_of(alloc: Global, ports: &[Port]) -> Result<Vec<Ty>, AllocError>
    ensures { IfOk result (λ types. types.items ≡ port_types ports.now) }
{
    let mut types = Vec::new(alloc);
    for port in ports {
        types.push(port.ty)?;
    }
    Ok(types)
}

/// The text of the circuit's outputs over rows of inputs.
fn outputs_text(alloc: Global, circuit: VModule, rows: &Trace) -> Result<Vec<u8>, AllocError>
    requires valid { IsValid circuit }
    requires rows { AreRows circuit rows.now }
    ensures { IfOk result (λ text. IsOutputs circuit (rows_in rows.now) text.items) }
{
    let outputs = outputs(alloc, circuit, rows)?;
    print_trace(alloc, &outputs)
}
