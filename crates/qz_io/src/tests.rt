//! What no clause says: that calls succeed, and what the system's files and fake streams do.
use crate::reading::read_all;
use crate::writing::write_bytes;
use crate::{FileFault, Files, Got, HostFiles, HostSink, MemFiles, MemSink, Sink, SureFiles};
use std::alloc::{Allocator, Global};
use std::fmt::Display;
use std::fs::{File, Metadata, OpenOptions};
use std::io::{ErrorKind, Read, Write};
use std::os::unix::fs::symlink;
use std::process::Abort;
use std::test::Fail;
use std::{fs, io, rt};

/// The bytes, or words for another answer.
fn shown(answer: &Result<Got, FileFault>) -> &[u8] {
    match answer {
        Ok(Got::Bytes(bytes)) => bytes.as_slice(),
        Ok(Got::Absent) => b"absent",
        Ok(Got::TooLong) => b"too long",
        Err(FileFault::Failed) => b"failed",
        Err(FileFault::Memory) => b"no memory",
    }
}

/// Reads each name with its budget, and asserts what comes.
fn assert_gets<F: Files>(
    rt: &impl Abort,
    alloc: Global,
    files: &mut F,
    table: &[(&str, u64, &str)],
) {
    for (name, max, want) in table {
        let answer = files.get(alloc, name, *max);
        let is_wanted = shown(&answer) == want.as_bytes();
        assert!(rt; is_wanted, "{name} within {max}");
    }
}

#[test]
fn files_in_memory(rt: HostRuntime) -> Result<(), Fail> {
    let alloc = rt.alloc();
    let mut files = MemFiles::new(alloc);
    files.fail = vec![in alloc; 2, 5]?;
    files.put(alloc, "a", b"one")?;
    let table = [
        ("a", 3, "one"),
        ("b", 3, "failed"),
        ("b", 3, "absent"),
        ("a", 2, "too long"),
    ];
    assert_gets(&rt, alloc, &mut files, &table);
    assert!(rt; files.put(alloc, "a", b"two").is_err());
    assert_gets(&rt, alloc, &mut files, &[("a", 3, "one")]);
    assert!(rt; files.calls == 7 && files.read_faults == 1 && files.write_faults == 1);
    Ok(())
}

#[test]
fn first_entry_counts(rt: HostRuntime) -> Result<(), Fail> {
    let alloc = rt.alloc();
    let mut files = SureFiles::new(alloc);
    files.put(alloc, "a", b"one")?;
    let second = (String::from_str(alloc, "a")?, Vec::new(alloc));
    files.held.push(second)?;
    assert_gets(&rt, alloc, &mut files, &[("a", 3, "one")]);
    files.put(alloc, "a", b"two")?;
    assert_gets(&rt, alloc, &mut files, &[("a", 3, "two")]);
    Ok(())
}

#[test]
fn counts_stay_at_the_largest(rt: HostRuntime) -> Result<(), Fail> {
    let alloc = rt.alloc();
    let mut files = MemFiles::new(alloc);
    files.fail.push(u64::MAX)?;
    files.calls = u64::MAX;
    files.read_faults = u64::MAX - 1;
    let table = [("a", 0, "failed"), ("b", 0, "failed")];
    assert_gets(&rt, alloc, &mut files, &table);
    assert!(rt; files.calls == u64::MAX && files.read_faults == u64::MAX);
    Ok(())
}

#[test]
fn sink_in_memory(rt: HostRuntime) -> Result<(), Fail> {
    let alloc = rt.alloc();
    let mut sink = MemSink::new(alloc);
    sink.fail.push(1)?;
    sink.put(alloc, b"one")?;
    assert!(rt; sink.put(alloc, b"two").is_err());
    sink.put(alloc, b"three")?;
    assert!(rt; sink.bytes.as_slice() == b"onethree".as_slice());
    assert!(rt; sink.calls == 3 && sink.faults == 1);
    Ok(())
}

/// Moves one byte at a time, is interrupted before each, and fails or stops at places.
#[derive(Drop)]
struct Trickle {
    bytes: Vec<u8>,
    place: usize,
    fail_at: usize,
    stop_at: usize,
    interrupts: bool,
}

impl Trickle {
    fn step(&mut self) -> io::Result<()> {
        self.interrupts = !self.interrupts;
        if self.interrupts {
            return Err(io::Error::from(ErrorKind::Interrupted));
        }
        if self.place == self.fail_at {
            return Err(io::Error::from(ErrorKind::Other));
        }
        Ok(())
    }
}

impl Read for Trickle {
    fn read(&mut self, piece: &mut [u8]) -> io::Result<usize> {
        self.step()?;
        if self.place < self.bytes.len() && !piece.is_empty() {
            piece[0] = self.bytes[self.place];
            self.place += 1;
            return Ok(1);
        }
        Ok(0)
    }
}

impl Write for Trickle {
    fn write(&mut self, piece: &[u8]) -> io::Result<usize> {
        self.step()?;
        if self.place == self.stop_at || piece.is_empty() {
            return Ok(0);
        }
        self.bytes.push(piece[0])?;
        self.place = self.bytes.len();
        Ok(1)
    }

    fn flush(&mut self) -> io::Result<()> {
        Ok(())
    }
}

fn make_trickle(bytes: Vec<u8>, fail_at: usize, stop_at: usize) -> Trickle {
    Trickle {
        bytes,
        place: 0,
        fail_at,
        stop_at,
        interrupts: false,
    }
}

#[test]
fn reads_a_byte_at_a_time(rt: HostRuntime) -> Result<(), Fail> {
    let alloc = rt.alloc();
    let table = [
        (9, 3, "one"),
        (9, 2, "too long"),
        (2, 3, "failed"),
        (3, 3, "failed"),
    ];
    for (fail_at, max, want) in table {
        let mut reader = make_trickle(b"one".to_vec(alloc)?, fail_at, 9);
        let is_wanted = shown(&read_all(alloc, &mut reader, max)) == want.as_bytes();
        assert!(rt; is_wanted, "failing at {fail_at}, within {max}");
    }
    Ok(())
}

#[test]
fn writes_a_byte_at_a_time(rt: HostRuntime) {
    for (fail_at, stop_at, want) in [(9, 9, "one"), (2, 9, "on"), (9, 1, "o")] {
        let mut writer = make_trickle(Vec::new(rt.alloc()), fail_at, stop_at);
        let is_whole = write_bytes(&mut writer, b"one").is_ok();
        let is_wanted = writer.bytes.as_slice() == want.as_bytes();
        assert!(rt; is_wanted && is_whole == (want == "one"), "{want}");
    }
}

const FOLDER: &str = "qz_io_test";

const NAME: &str = "qz_io_test/a";

#[test]
fn files_of_the_system(rt: HostRuntime) -> Result<(), Fail> {
    let alloc = rt.alloc();
    let _ = fs::remove_dir_all(&rt, FOLDER);
    fs::create_dir(&rt, FOLDER)?;
    let mut files = HostFiles::new(rt);
    assert_gets(&rt, alloc, &mut files, &[(NAME, 3, "absent")]);
    files.put(alloc, NAME, b"longer")?;
    files.put(alloc, NAME, b"one")?;
    files.put(alloc, "qz_io_test/ b ", b"two")?;
    assert!(rt; files.put(alloc, FOLDER, b"one").is_err());
    let table = [
        (NAME, 3, "one"),
        (NAME, 2, "too long"),
        (FOLDER, 3, "failed"),
        ("qz_io_test/a/b", 3, "failed"),
        ("qz_io_test/ b ", 3, "two"),
        ("qz_io_test/b", 3, "absent"),
    ];
    assert_gets(&rt, alloc, &mut files, &table);
    fs::remove_dir_all(&rt, FOLDER)?;
    Ok(())
}

#[test]
fn many_bytes_are_put_whole(rt: HostRuntime) -> Result<(), Fail> {
    let alloc = rt.alloc();
    let name = "qz_io_test_many";
    let mut bytes = vec![in alloc; b'a'; 200_000]?;
    bytes.push(b'b')?;
    let mut files = HostFiles::new(rt);
    files.put(alloc, name, bytes.as_slice())?;
    let is_whole = shown(&files.get(alloc, name, 200_001)) == bytes.as_slice();
    assert!(rt; is_whole, "other bytes than were put");
    fs::remove_file(&rt, name)?;
    Ok(())
}

/// The system's files, but none that is made can be written.
#[derive(Drop)]
struct FullDisk {
    rt: HostRuntime,
}

impl rt::Files for FullDisk {
    type File = File;

    type Dir = <HostRuntime as rt::Files>::Dir;

    fn open_file(&self, how: &OpenOptions, path: &str) -> io::Result<File> {
        let _made = self.rt.open_file(how, path)?;
        fs::open(&self.rt, path)
    }

    fn open_dir(&self, path: &str) -> io::Result<Self::Dir> {
        self.rt.open_dir(path)
    }

    fn metadata(&self, path: &str) -> io::Result<Metadata> {
        rt::Files::metadata(&self.rt, path)
    }

    fn symlink_metadata(&self, path: &str) -> io::Result<Metadata> {
        self.rt.symlink_metadata(path)
    }

    fn copy(&self, from: &str, to: &str) -> io::Result<u64> {
        self.rt.copy(from, to)
    }

    fn rename(&self, from: &str, to: &str) -> io::Result<()> {
        self.rt.rename(from, to)
    }

    fn remove_file(&self, path: &str) -> io::Result<()> {
        self.rt.remove_file(path)
    }

    fn create_dir(&self, path: &str) -> io::Result<()> {
        self.rt.create_dir(path)
    }

    fn remove_dir(&self, path: &str) -> io::Result<()> {
        self.rt.remove_dir(path)
    }

    fn remove_dir_all<B: Allocator>(&self, alloc: B, path: &str) -> io::Result<()> {
        self.rt.remove_dir_all(alloc, path)
    }
}

#[test]
fn what_a_failed_put_began_is_removed(rt: HostRuntime) -> Result<(), Fail> {
    let alloc = rt.alloc();
    let name = "qz_io_test_begun";
    let mut files = HostFiles::new(FullDisk { rt });
    assert!(rt; files.put(alloc, name, b"one").is_err());
    assert_gets(&rt, alloc, &mut files, &[(name, 3, "absent")]);
    symlink(&rt, "/dev/full", name)?;
    assert!(rt; HostFiles::new(rt).put(alloc, name, b"one").is_err());
    assert!(rt;
        fs::symlink_metadata(&rt, name).is_ok(),
        "the way to a device was removed"
    );
    fs::remove_file(&rt, name)?;
    Ok(())
}

/// Prints nothing, and fails.
#[derive(Drop)]
struct Broken;

impl Print for Broken {
    fn print<D: Display + Drop>(&self, _value: D) -> io::Result<()> {
        Err(io::Error::from(ErrorKind::BrokenPipe))
    }

    fn println<D: Display + Drop>(&self, _value: D) -> io::Result<()> {
        Err(io::Error::from(ErrorKind::BrokenPipe))
    }

    fn write_all(&self, _bytes: &[u8]) -> io::Result<()> {
        Err(io::Error::from(ErrorKind::BrokenPipe))
    }
}

#[test]
fn standard_output(rt: HostRuntime) -> Result<(), Fail> {
    let alloc = rt.alloc();
    HostSink::new(rt).put(alloc, b"a line\n")?;
    assert!(rt; HostSink::new(Broken).put(alloc, b"a line\n").is_err());
    Ok(())
}
