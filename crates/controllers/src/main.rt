//! Runs programs by the call that `quartzc` makes, over real files, and tells of each whether it answers as it has to.
//!
//! The words are names. For each NAME the files `NAME.qz` and `NAME.in` lie in the folder, and either `NAME.want`,
//! the outputs that `run NAME NAME.qz` has to put, or `NAME.line`, the line by which it has to refuse.
#![tactic(auto)]

use anyhow::{Result, bail};
use qz_driver::{Status, quartzc};
use qz_io::{FileFault, Files, Got, HostFiles, MemSink};
use std::alloc::{AllocError, Global};
use std::env;

/// How many bytes a file of outputs may have.
const LIMIT: u64 = 1_048_576;

fn main(rt: HostRuntime) -> Result<()> {
    let mut files = HostFiles::new(rt);
    for name in env::args(&rt)?.skip(1) {
        match is_right(rt.alloc(), &mut files, name.as_str()) {
            Ok(true) => println!(rt; "{name}: right")?,
            Ok(false) => println!(rt; "{name}: wrong")?,
            Err(_) => bail!("a file can't be read, or memory ran out"),
        }
    }
    Ok(())
}

/// Whether the run of a name answers as its files say.
fn is_right<F: Files>(alloc: Global, files: &mut F, name: &str) -> Result<bool, FileFault> {
    let words = words_of(alloc, name)?;
    let mut sink = MemSink::new(alloc);
    match quartzc(alloc, words.as_slice(), files, &mut sink) {
        Status::Done => {
            let put = found(alloc, files, name, ".out")?;
            let wanted = found(alloc, files, name, ".want")?;
            Ok(wanted.is_some() && put == wanted)
        }
        Status::Refused => Ok(found(alloc, files, name, ".line")? == Some(sink.bytes)),
        _ => Ok(false),
    }
}

/// The words of the run of a name.
fn words_of(alloc: Global, name: &str) -> Result<Vec<String>, AllocError> {
    let mut words = Vec::new(alloc);
    words.push(String::from_str(alloc, "run")?)?;
    words.push(String::from_str(alloc, name)?)?;
    words.push(format!(in alloc; "{name}.qz")?)?;
    Ok(words)
}

/// The bytes of a file, if it is there.
fn found<F: Files>(
    alloc: Global,
    files: &mut F,
    name: &str,
    ending: &str,
) -> Result<Option<Vec<u8>>, FileFault> {
    let file = format!(in alloc; "{name}{ending}")?;
    match files.get(alloc, file.as_str(), LIMIT)? {
        Got::Bytes(bytes) => Ok(Some(bytes)),
        Got::Absent | Got::TooLong => Ok(None),
    }
}
