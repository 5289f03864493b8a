//! The answers of `sim` over files and a sink in memory, row by row.

use crate::calls::{held, hold, texts};
use qz_driver::{Status, quartzc};
use qz_io::{MemFiles, MemSink};
use std::alloc::{AllocError, Global};
use std::process::Abort;
use std::test::Fail;

/// What a call `sim T t.v` is given and what it has to answer.
#[derive(Clone, Copy)]
struct Row {
    /// What is held under `t.v`, if anything is.
    circuit: Option<&'static str>,
    /// What is held under `T.in`, if anything is.
    inputs: Option<&'static str>,
    /// The number of the call on the files that fails.
    fails: Option<u64>,
    status: Status,
    /// What is written.
    line: &'static str,
    /// What is held under `T.out` afterwards, if anything is.
    put: Option<&'static str>,
}

/// Gives what it took before, changed by its input.
const TOGGLE: &str = "module q_T(
  input clk,
  input i_a,
  output o_o
);
  reg r_0;
  wire w_0;
  assign w_0 = i_a ^ r_0;
  assign o_o = r_0;
  initial begin
    r_0 = 1'b0;
  end
  always @(posedge clk) begin
    r_0 <= w_0;
  end
endmodule
";

/// The same without the line of its register.
const NO_REGISTER: &str = "module q_T(
  input clk,
  input i_a,
  output o_o
);
  wire w_0;
  assign w_0 = i_a ^ r_0;
";

/// Two registers that change places.
const SWAP: &str = "module q_T(
  input clk,
  output o_a,
  output o_b
);
  reg r_0;
  reg r_1;
  assign o_a = r_0;
  assign o_b = r_1;
  initial begin
    r_0 = 1'b1;
    r_1 = 1'b0;
  end
  always @(posedge clk) begin
    r_0 <= r_1;
    r_1 <= r_0;
  end
endmodule
";

/// The sum of a byte and what it was given before.
const SUM: &str = "module q_T(
  input clk,
  input [7:0] i_n,
  output [7:0] o_m
);
  reg [7:0] r_0;
  wire [7:0] w_0;
  assign w_0 = i_n + r_0;
  assign o_m = w_0;
  initial begin
    r_0 = 8'd3;
  end
  always @(posedge clk) begin
    r_0 <= i_n;
  end
endmodule
";

const OTHER: &str = "module q_Up(
  input clk
);
  initial begin
  end
  always @(posedge clk) begin
  end
endmodule
";

/// The circuit runs over the inputs.
fn runs(circuit: &'static str, inputs: &'static str, put: &'static str) -> Row {
    Row {
        circuit: Some(circuit),
        inputs: Some(inputs),
        fails: None,
        status: Status::Done,
        line: "",
        put: Some(put),
    }
}

/// The line is said against the circuit or its inputs.
fn refused(circuit: &'static str, inputs: &'static str, line: &'static str) -> Row {
    Row {
        circuit: Some(circuit),
        inputs: Some(inputs),
        fails: None,
        status: Status::Refused,
        line,
        put: None,
    }
}

/// This call on the files fails.
fn fails(call: u64, status: Status) -> Row {
    Row {
        circuit: Some(TOGGLE),
        inputs: Some("1\n"),
        fails: Some(call),
        status,
        line: "",
        put: None,
    }
}

fn rows() -> [Row; 19] {
    [
        runs(TOGGLE, "1\n1\n0\n", "0\n1\n0\n"),
        runs(TOGGLE, "", ""),
        runs(SWAP, "\n\n\n", "1 0\n0 1\n1 0\n"),
        runs(SUM, "0\n7\n255\n1\n", "3\n7\n6\n0\n"),
        refused(TOGGLE, "0\n2\n", "T.in: line 2 out of range\n"),
        refused(TOGGLE, "01\n", "T.in: line 1 not a number\n"),
        refused(TOGGLE, "1 1\n", "T.in: line 1 wrong count\n"),
        refused(TOGGLE, "1\n1", "T.in: line 2 unended\n"),
        refused(SUM, "256\n", "T.in: line 1 out of range\n"),
        refused(SWAP, "0\n", "T.in: line 1 wrong count\n"),
        refused(NO_REGISTER, "", "t.v: bad Verilog at line 7\n"),
        refused("", "", "t.v: bad Verilog at line 1\n"),
        // The name is told before anything is said against the inputs.
        refused(OTHER, "x", "t.v: module is Up\n"),
        Row {
            circuit: None,
            ..refused("", "x", "t.v: absent\n")
        },
        Row {
            inputs: None,
            ..refused(TOGGLE, "", "T.in: absent\n")
        },
        // The circuit is refused before its inputs are read.
        Row {
            inputs: None,
            fails: Some(1),
            ..refused(OTHER, "", "t.v: module is Up\n")
        },
        fails(0, Status::ReadFault),
        fails(1, Status::ReadFault),
        fails(2, Status::WriteFault),
    ]
}

/// Makes the call of a row, and asserts its answer.
fn assert_row(rt: &impl Abort, alloc: Global, number: usize, row: &Row) -> Result<(), AllocError> {
    let mut files = MemFiles::new(alloc);
    let mut sink = MemSink::new(alloc);
    hold(alloc, &mut files, "t.v", row.circuit)?;
    hold(alloc, &mut files, "T.in", row.inputs)?;
    if let Some(call) = row.fails {
        files.fail.push(call)?;
    }
    let words = texts(alloc, &["sim", "T", "t.v"])?;
    let status = quartzc(alloc, words.as_slice(), &mut files, &mut sink);
    assert!(rt; status == row.status, "{status:?} in row {number}");
    assert!(rt;
        sink.bytes.as_slice() == row.line.as_bytes(),
        "row {number}"
    );
    let put = held(&files, "T.out");
    assert!(rt; put == row.put.map(|text| text.as_bytes()), "row {number}");
    Ok(())
}

#[test]
fn simulations(rt: HostRuntime) -> Result<(), Fail> {
    for (number, row) in rows().iter().enumerate() {
        assert_row(&rt, rt.alloc(), number, row)?;
    }
    Ok(())
}

/// What is put where a module is built and its text then runs by three clocks.
fn built_and_run(alloc: Global) -> Result<MemFiles, AllocError> {
    let mut files = MemFiles::new(alloc);
    let mut sink = MemSink::new(alloc);
    let source = "module T(event !o){ loop { emit o; pause; } }";
    hold(alloc, &mut files, "t.qz", Some(source))?;
    hold(alloc, &mut files, "T.in", Some("\n\n\n"))?;
    let build = texts(alloc, &["build", "T", "t.qz"])?;
    let _built = quartzc(alloc, build.as_slice(), &mut files, &mut sink);
    let run = texts(alloc, &["sim", "T", "T.v"])?;
    let _run = quartzc(alloc, run.as_slice(), &mut files, &mut sink);
    Ok(files)
}

/// A circuit that was built runs as its source.
#[test]
fn a_built_circuit_runs(rt: HostRuntime) -> Result<(), Fail> {
    let files = built_and_run(rt.alloc())?;
    assert!(rt; held(&files, "T.out") == Some(b"1\n1\n1\n"));
    Ok(())
}
