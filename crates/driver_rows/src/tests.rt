//! The answers of the call over files and a sink in memory, row by row.

ghost use Rattle.std.specs.Prelude.{◌≤◌, ◌<◌};

use crate::calls::{held, hold, repeated, texts};
use qz_driver::{Status, quartzc};
use qz_io::{MemFiles, MemSink};
use std::alloc::{AllocError, Global};
use std::process::Abort;
use std::test::Fail;

/// What a call is given and what it has to answer.
#[derive(Drop)]
struct Row {
    words: &'static [&'static str],
    /// What is held under `t.qz`, if anything is.
    text: Option<&'static str>,
    /// The number of the call on the files that fails, and on the sink.
    file_fails: Option<u64>,
    sink_fails: Option<u64>,
    status: Status,
    /// What is written.
    line: &'static str,
    /// What is held under `T.v` afterwards, if anything is.
    put: Option<&'static str>,
}

const BUILD: &[&str] = &["build", "T", "t.qz"];

const USAGE: &str = "usage: quartzc MODE NAME FILE...\n";

const ALWAYS: &str = "module T(event !o){ loop { emit o; pause; } }";

const ALWAYS_TEXT: &str = "module q_T(
  input clk,
  output o_o
);
  reg r_0;
  reg r_1;
  wire w_0;
  assign w_0 = ~r_1;
  wire w_1;
  assign w_1 = 1'b1;
  wire w_2;
  assign w_2 = 1'b0;
  wire w_3;
  assign w_3 = w_0 | r_0;
  assign o_o = w_3;
  initial begin
    r_0 = 1'b0;
    r_1 = 1'b0;
  end
  always @(posedge clk) begin
    r_0 <= w_3;
    r_1 <= w_1;
  end
endmodule
";

/// `build T t.qz` of a text that is refused.
fn refused(text: &'static str, line: &'static str) -> Row {
    Row {
        words: BUILD,
        text: Some(text),
        file_fails: None,
        sink_fails: None,
        status: Status::Refused,
        line,
        put: None,
    }
}

/// Words that break a rule.
fn usage(words: &'static [&'static str]) -> Row {
    Row {
        words,
        text: Some(ALWAYS),
        file_fails: None,
        sink_fails: None,
        status: Status::Usage,
        line: USAGE,
        put: None,
    }
}

/// `build T t.qz` of the program that always emits.
fn always(file_fails: Option<u64>, status: Status, put: Option<&'static str>) -> Row {
    Row {
        words: BUILD,
        text: Some(ALWAYS),
        file_fails,
        sink_fails: None,
        status,
        line: "",
        put,
    }
}

/// Makes the call of a row, and asserts its answer.
fn assert_row(rt: &impl Abort, alloc: Global, row: &Row) -> Result<(), AllocError> {
    let mut files = MemFiles::new(alloc);
    let mut sink = MemSink::new(alloc);
    hold(alloc, &mut files, "t.qz", row.text)?;
    if let Some(call) = row.file_fails {
        files.fail.push(call)?;
    }
    if let Some(call) = row.sink_fails {
        sink.fail.push(call)?;
    }
    let words = texts(alloc, row.words)?;
    let status = quartzc(alloc, words.as_slice(), &mut files, &mut sink);
    let (line, text) = (row.line, row.text);
    assert!(rt; status == row.status, "{status:?} for {text:?}");
    assert!(rt; sink.bytes.as_slice() == line.as_bytes(), "{text:?}");
    let put = held(&files, "T.v");
    assert!(rt; put == row.put.map(|text| text.as_bytes()), "{text:?}");
    Ok(())
}

#[test]
fn answers(rt: HostRuntime) -> Result<(), Fail> {
    let rows = [
        always(None, Status::Done, Some(ALWAYS_TEXT)),
        always(Some(0), Status::ReadFault, None),
        always(Some(1), Status::WriteFault, None),
        Row {
            text: None,
            ..refused("", "t.qz: absent\n")
        },
        refused(
            "module T(event !o){ loop { emit o; } }",
            "loop 0 of T may end at once\n",
        ),
        refused("module T(event ?a, !o){ emit o; }", "t.qz: not built yet\n"),
        usage(&["build", "T"]),
        usage(&["build", "-x", "t.qz"]),
        usage(&["make", "T", "t.qz"]),
        usage(&[]),
        Row {
            sink_fails: Some(0),
            status: Status::WriteFault,
            line: "",
            ..usage(&["build", "T"])
        },
    ];
    for row in &rows {
        assert_row(&rt, rt.alloc(), row)?;
    }
    Ok(())
}

/// Texts that are refused in `build T t.qz`, and the lines.
static REFUSED: [(&str, &str); 12] = [
    ("", "t.qz: not built yet\n"),
    ("module T(event !o){ emit o; } }", "t.qz: not built yet\n"),
    ("module T(event !o){ emit x; }", "t.qz: not built yet\n"),
    ("module T(event !o){ emit pause; }", "t.qz: not built yet\n"),
    ("module T(event !o){ halt; }", "t.qz: not built yet\n"),
    (
        "module T(event !o, event !o){ emit o; }",
        "t.qz: not built yet\n",
    ),
    ("module U(event !o){ emit o; }", "t.qz: not built yet\n"),
    (
        "module T(event !o){ emit o; } // o",
        "t.qz: not built yet\n",
    ),
    ("module T(event !\u{e9}){ }", "t.qz: not built yet\n"),
    ("module T(event !o,){ emit o; }", "t.qz: not built yet\n"),
    (
        "module T(event !o){ loop { pause; loop { emit o; } } }",
        "loop 1 of T may end at once\n",
    ),
    (
        "module T(event !o){ pause; loop loop emit o; }",
        "loop 0 of T may end at once\n",
    ),
];

#[test]
fn refusals(rt: HostRuntime) -> Result<(), Fail> {
    for (text, line) in &REFUSED {
        assert_row(&rt, rt.alloc(), &refused(text, line))?;
    }
    Ok(())
}

/// The status of `build D t.qz` where these bytes are held.
fn status_of(alloc: Global, bytes: &[u8]) -> Result<Status, AllocError> {
    let mut files = MemFiles::new(alloc);
    let mut sink = MemSink::new(alloc);
    files.held.push((
        String::from_str(alloc, "t.qz")?,
        Vec::from_slice(alloc, bytes)?,
    ))?;
    let words = texts(alloc, &["build", "D", "t.qz"])?;
    Ok(quartzc(alloc, words.as_slice(), &mut files, &mut sink))
}

/// A module with so many blocks in its block, each in the one before it.
fn nested(alloc: Global, blocks: u32) -> Result<String, AllocError>
    requires { blocks < 1000 }
{
    let opened = repeated(alloc, "module D(event !o){", "{", blocks)?;
    repeated(alloc, opened.as_str(), "}", blocks + 1)
}

/// A module with so many statements that are `nothing`, and one that emits.
fn sized(alloc: Global, statements: u32) -> Result<String, AllocError> {
    let mut text = repeated(alloc, "module D(event !o){", "nothing;", statements)?;
    text.push_str("emit o;}")?;
    Ok(text)
}

/// A module with so many formals.
fn with_formals(alloc: Global, formals: u32) -> Result<String, AllocError> {
    let mut text = String::from_str(alloc, "module D(event !o")?;
    for number in 1..formals {
        let formal = format!(in alloc; ",event !o{number}")?;
        text.push_str(formal.as_str())?;
    }
    text.push_str("){}")?;
    Ok(text)
}

/// A module of so many bytes, from 21 on.
fn of_bytes(alloc: Global, bytes: u32) -> Result<String, AllocError>
    requires { 21 ≤ bytes }
{
    repeated(alloc, "module D(event !o){ }", " ", bytes - 21)
}

#[test]
fn limits(rt: HostRuntime) -> Result<(), Fail> {
    let alloc = rt.alloc();
    let within = [
        nested(alloc, 127)?,
        with_formals(alloc, 256)?,
        of_bytes(alloc, 1_048_576)?,
        sized(alloc, 49_997)?,
    ];
    for text in &within {
        assert_eq!(rt; status_of(alloc, text.as_bytes())?, Status::Done);
    }
    let above = [
        nested(alloc, 128)?,
        with_formals(alloc, 257)?,
        of_bytes(alloc, 1_048_577)?,
        sized(alloc, 49_998)?,
    ];
    for text in &above {
        assert_eq!(rt; status_of(alloc, text.as_bytes())?, Status::Refused);
    }
    assert_eq!(rt;
        status_of(alloc, b"module D(event !\xff){}")?,
        Status::Refused
    );
    Ok(())
}
