//! A call `run NAME t.qz`, and what it has to answer.

use driver_rows::calls::{held, hold, texts};
use qz_driver::{Status, quartzc};
use qz_io::{MemFiles, MemSink};
use std::alloc::{AllocError, Global};
use std::process::Abort;

/// What a call is given and what it has to answer.
#[derive(Clone, Copy)]
pub struct Row {
    pub name: &'static str,
    /// What is held under `t.qz`, if anything is.
    pub source: Option<&'static str>,
    /// What is held under `T.in`, if anything is.
    pub inputs: Option<&'static str>,
    /// The number of the call on the files that fails, and on the sink.
    pub file_fails: Option<u64>,
    pub sink_fails: Option<u64>,
    pub status: Status,
    /// What is written.
    pub line: &'static str,
    /// What is held under `T.out` afterwards, if anything is.
    pub put: Option<&'static str>,
}

/// The module `T` of the source runs over the inputs.
pub fn runs(source: &'static str, inputs: &'static str, put: &'static str) -> Row {
    Row {
        name: "T",
        source: Some(source),
        inputs: Some(inputs),
        file_fails: None,
        sink_fails: None,
        status: Status::Done,
        line: "",
        put: Some(put),
    }
}

/// The line is said against the source or its inputs.
pub fn refused(source: &'static str, inputs: &'static str, line: &'static str) -> Row {
    Row {
        status: Status::Refused,
        line,
        put: None,
        ..runs(source, inputs, "")
    }
}

/// Makes the call of a row, and asserts its answer.
pub fn assert_row(
    rt: &impl Abort,
    alloc: Global,
    number: usize,
    row: &Row,
) -> Result<(), AllocError> {
    let mut files = MemFiles::new(alloc);
    let mut sink = MemSink::new(alloc);
    hold(alloc, &mut files, "t.qz", row.source)?;
    hold(alloc, &mut files, "T.in", row.inputs)?;
    if let Some(call) = row.file_fails {
        files.fail.push(call)?;
    }
    if let Some(call) = row.sink_fails {
        sink.fail.push(call)?;
    }
    let words = texts(alloc, &["run", row.name, "t.qz"])?;
    let status = quartzc(alloc, words.as_slice(), &mut files, &mut sink);
    assert!(rt; status == row.status, "{status:?} in row {number}");
    assert!(rt;
        sink.bytes.as_slice() == row.line.as_bytes(),
        "row {number}"
    );
    let put = held(&files, "T.out");
    assert!(rt; put == row.put.map(|text| text.as_bytes()), "row {number}");
    Ok(())
}
