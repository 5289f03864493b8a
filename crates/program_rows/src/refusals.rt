//! What is said against sources, against their inputs, and where files fail.

use crate::calls::{Row, assert_row, refused, runs};
use crate::runs::COPY;
use driver_rows::calls::{held, hold, texts};
use qz_driver::{Status, quartzc};
use qz_io::{MemFiles, MemSink};
use std::alloc::{AllocError, Global};
use std::test::Fail;

/// Clashes in its second step.
const CLASH: &str = "module T(mem bv[8] !x){ next(x) = 8'd1; pause; x = 8'd2; }";

/// The line is said against the source.
fn against(source: &'static str, line: &'static str) -> Row {
    refused(source, "", line)
}

fn sources() -> [Row; 18] {
    [
        against("", "t.qz: syntax at byte 0\n"),
        against(
            "module T(event !o){ emit o; # }",
            "t.qz: no token at byte 28\n",
        ),
        against("module T(event !o){ emit; }", "t.qz: syntax at byte 24\n"),
        against("module T(event !o){ emit o;", "t.qz: syntax at byte 27\n"),
        against(
            "module T(event ?i, !o){ emit i; }",
            "t.qz: write to an input at byte 29\n",
        ),
        against(
            "module T(event !o){ emit q; emit r; }",
            "t.qz: unknown name at byte 25\n",
        ),
        against(
            "module T(event !o, !o){ }",
            "t.qz: name declared twice at byte 20\n",
        ),
        against(
            "module T(event ?a, mem bv[4] !x){ x = a; }",
            "t.qz: types differ at byte 36\n",
        ),
        against(
            "module T(mem bv[65] !x){ }",
            "t.qz: width out of range at byte 16\n",
        ),
        against(
            "module T(mem bv[8] !x){ x = 8'd256; }",
            "t.qz: literal out of range at byte 28\n",
        ),
        // A source with a prototype makes no program by itself, and is told so before its name is.
        against(
            "module B(); module T(){ pause; B(); }",
            "t.qz: not built yet\n",
        ),
        against(
            "module T(event !o){ pause; loop loop emit o; }",
            "loop 0 of T may end at once\n",
        ),
        // A step that isn't definite is told with the first instance in doubt.
        refused(CLASH, "\n\n", "step 2: x clash\n"),
        refused(
            "module T(event !x){ if(x) emit x; }",
            "\n",
            "step 1: x unknown\n",
        ),
        refused(
            "module T(mem bv[8] !x){ x = 8'd3; || x = 8'd4; }",
            "\n",
            "step 1: x clash\n",
        ),
        Row {
            source: None,
            ..against("", "t.qz: absent\n")
        },
        Row {
            name: "U",
            ..against("module T(event !o){ nothing; }", "module U is missing\n")
        },
        // The name is told after the file's types.
        Row {
            name: "U",
            ..against("module T(){ x = 1'd0; }", "t.qz: unknown name at byte 12\n")
        },
    ]
}

/// This call on the files fails.
fn fails(call: u64, status: Status) -> Row {
    Row {
        file_fails: Some(call),
        status,
        put: None,
        ..runs(COPY, "1\n", "")
    }
}

fn inputs() -> [Row; 12] {
    [
        refused(COPY, "256\n", "T.in: line 1 out of range\n"),
        refused(COPY, "007\n", "T.in: line 1 not a number\n"),
        refused(COPY, "1 2\n", "T.in: line 1 wrong count\n"),
        refused(COPY, "1\n2", "T.in: line 2 unended\n"),
        // Inputs are told before a step that isn't definite.
        refused(CLASH, "\n\n0\n", "T.in: line 3 wrong count\n"),
        Row {
            inputs: None,
            ..refused(COPY, "", "T.in: absent\n")
        },
        // The source is refused before its inputs are read.
        Row {
            inputs: None,
            file_fails: Some(1),
            ..refused("module U(){ }", "", "module T is missing\n")
        },
        fails(0, Status::ReadFault),
        fails(1, Status::ReadFault),
        fails(2, Status::WriteFault),
        // The line can't be written.
        Row {
            sink_fails: Some(0),
            status: Status::WriteFault,
            ..refused(CLASH, "\n\n", "")
        },
        runs(CLASH, "\n", "0\n"),
    ]
}

#[test]
fn against_sources(rt: HostRuntime) -> Result<(), Fail> {
    for (number, row) in sources().iter().enumerate() {
        assert_row(&rt, rt.alloc(), number, row)?;
    }
    Ok(())
}

#[test]
fn against_inputs(rt: HostRuntime) -> Result<(), Fail> {
    for (number, row) in inputs().iter().enumerate() {
        assert_row(&rt, rt.alloc(), number, row)?;
    }
    Ok(())
}

/// What is left where a source is its own inputs: `run T T.in`.
fn own_inputs(alloc: Global, source: &str) -> Result<MemSink, AllocError> {
    let mut files = MemFiles::new(alloc);
    let mut sink = MemSink::new(alloc);
    hold(alloc, &mut files, "T.in", Some(source))?;
    let words = texts(alloc, &["run", "T", "T.in"])?;
    let _status = quartzc(alloc, words.as_slice(), &mut files, &mut sink);
    Ok(sink)
}

/// Such a file is read as a source and then as rows, of which it is none.
#[test]
fn a_source_as_its_own_inputs(rt: HostRuntime) -> Result<(), Fail> {
    let sink = own_inputs(rt.alloc(), COPY)?;
    assert!(rt; sink.bytes.as_slice() == "T.in: line 1 unended\n".as_bytes());
    Ok(())
}

/// What is held after a put that failed.
fn after_failed_put(alloc: Global) -> Result<MemFiles, AllocError> {
    let mut files = MemFiles::new(alloc);
    let mut sink = MemSink::new(alloc);
    hold(alloc, &mut files, "t.qz", Some(COPY))?;
    hold(alloc, &mut files, "T.in", Some("1\n"))?;
    hold(alloc, &mut files, "U.out", Some("kept"))?;
    files.fail.push(2)?;
    let words = texts(alloc, &["run", "T", "t.qz"])?;
    let _status = quartzc(alloc, words.as_slice(), &mut files, &mut sink);
    Ok(files)
}

/// It leaves only the file of the outputs open.
#[test]
fn a_failed_put_keeps_other_files(rt: HostRuntime) -> Result<(), Fail> {
    let files = after_failed_put(rt.alloc())?;
    assert!(rt; held(&files, "U.out") == Some(b"kept"));
    assert!(rt; held(&files, "T.in") == Some(b"1\n"));
    Ok(())
}
