//! Sources at the limits of `run`: bytes, levels and sizes; and bytes that are no text.

ghost use Rattle.std.specs.Prelude.{◌<◌};

use driver_rows::calls::{held, hold, repeated, texts};
use qz_driver::quartzc;
use qz_io::{MemFiles, MemSink};
use std::alloc::{AllocError, Global};
use std::test::Fail;

/// A module with so many blocks in its block, each in the one before it.
fn nested(alloc: Global, blocks: u32) -> Result<String, AllocError>
    requires { blocks < 1000 }
{
    let opened = repeated(alloc, "module D(event !o){", "{", blocks)?;
    repeated(alloc, opened.as_str(), "}", blocks + 1)
}

/// A module with so many statements that are `nothing`, and a last one.
fn sized(alloc: Global, statements: u32, last: &str) -> Result<String, AllocError> {
    let mut text = repeated(alloc, "module D(event !o){", "nothing;", statements)?;
    text.push_str(last)?;
    text.push_str("}")?;
    Ok(text)
}

/// So many spaces.
fn spaces(alloc: Global, count: u32) -> Result<String, AllocError> {
    repeated(alloc, "", " ", count)
}

/// What `run D d.qz` over no rows writes.
fn line_of(alloc: Global, source: &[u8]) -> Result<MemSink, AllocError> {
    let mut files = MemFiles::new(alloc);
    let mut sink = MemSink::new(alloc);
    let bytes = Vec::from_slice(alloc, source)?;
    files.held.push((String::from_str(alloc, "d.qz")?, bytes))?;
    hold(alloc, &mut files, "D.in", Some(""))?;
    let words = texts(alloc, &["run", "D", "d.qz"])?;
    let _status = quartzc(alloc, words.as_slice(), &mut files, &mut sink);
    if held(&files, "D.out").is_some() {
        sink.bytes.extend_from_slice(b"put")?;
    }
    Ok(sink)
}

#[test]
fn levels(rt: HostRuntime) -> Result<(), Fail> {
    let alloc = rt.alloc();
    let within = line_of(alloc, nested(alloc, 127)?.as_bytes())?;
    assert!(rt; within.bytes.as_slice() == "put".as_bytes());
    let above = line_of(alloc, nested(alloc, 128)?.as_bytes())?;
    assert!(rt; above.bytes.as_slice() == "d.qz: nested too deep at byte 146\n".as_bytes());
    Ok(())
}

#[test]
fn sizes(rt: HostRuntime) -> Result<(), Fail> {
    let alloc = rt.alloc();
    let within = line_of(alloc, sized(alloc, 49_997, "emit o;")?.as_bytes())?;
    assert!(rt; within.bytes.as_slice() == "put".as_bytes());
    let above = line_of(alloc, sized(alloc, 49_996, "halt;")?.as_bytes())?;
    assert!(rt; above.bytes.as_slice() == "d.qz: size 100001 is above 100000\n".as_bytes());
    Ok(())
}

#[test]
fn lengths(rt: HostRuntime) -> Result<(), Fail> {
    let alloc = rt.alloc();
    let within = line_of(alloc, spaces(alloc, 1_048_576)?.as_bytes())?;
    assert!(rt; within.bytes.as_slice() == "d.qz: syntax at byte 1048576\n".as_bytes());
    let above = line_of(alloc, spaces(alloc, 1_048_577)?.as_bytes())?;
    assert!(rt; above.bytes.as_slice() == "d.qz: too long\n".as_bytes());
    Ok(())
}

#[test]
fn bytes(rt: HostRuntime) -> Result<(), Fail> {
    let told = line_of(rt.alloc(), b"m\xff")?;
    assert!(rt; told.bytes.as_slice() == "d.qz: not UTF-8 at byte 1\n".as_bytes());
    Ok(())
}
