//! The files of the system.
ghost use Rattle.std.specs.Prelude.{ℕ, ◌≡◌, ◌≢◌, ◌<◌, ◌≤◌, length, Some, None, Ok, Err, IfOk, IfErr, IfSome, OnOk, OnErr, IsErr};
ghost use Rattle.std.specs.IoError.{error_kind};
ghost use Rattle.qz_io.specs.Answers.{OnFailed, UnlessFailed, IsAbsent, IsTooLong, IfBytes};
ghost use Rattle.qz_io.specs.Counts.{raised};
ghost use Rattle.qz_io.specs.Entries.{kept_name};

use crate::answers::{FileFault, Got};
use crate::counts::next_count;
use crate::files_trait::Files;
use crate::reading::read_all;
use crate::writing::write_bytes;
use std::alloc::Global;
use std::fs::OpenFile;
use std::io::{ErrorKind, Read};
use std::{fs, io, rt};

/// The files of the system, through the program's runtime.
///
/// They don't tell what is held, since other programs write the same files. `get` reads a file in at
/// most `max + 1` turns of at least a byte each, and answers `Absent` where the system finds no file.
/// `put` makes the file, or empties the one that is there, and writes all the bytes; where that fails
/// once the file is open, it removes what it began. Any other error is a fault, but a read or a write
/// that a signal interrupts is tried again. What the system finds amiss only as a file closes isn't
/// seen. Both counts stay at `u64::MAX` once they stand there.
#[derive(Debug, Drop)]
pub struct HostFiles<R> {
    rt: R,
    read_faults: u64,
    write_faults: u64,
    missed: Option<String>,
}

impl<R: rt::Files> HostFiles<R> {
    /// The files that the runtime reaches. No call has failed.
    pub fn new(rt: R) -> Self
        ensures read_faults { ⟦<HostFiles<R> as Files>⟧.read_faults result ≡ 0 }
        ensures write_faults { ⟦<HostFiles<R> as Files>⟧.write_faults result ≡ 0 }
        ensures missed { ⟦<HostFiles<R> as Files>⟧.missed result ≡ None }
    {
        HostFiles {
            rt,
            read_faults: 0,
            write_faults: 0,
            missed: None,
        }
    }
}

impl<R: rt::Files> Files for HostFiles<R> {
    ghost held = { λ _. None };

    ghost read_faults = { λ files. files.read_faults };

    ghost write_faults = { λ files. files.write_faults };

    ghost missed = { λ files. kept_name files.missed };

    fn get(&mut self, alloc: Global, name: &str, max: u64) -> Result<Got, FileFault> {
        let opened = fs::open(&self.rt, name);
        self.answer_get(alloc, name, read_opened(alloc, opened, max))
    }

    fn put(&mut self, _alloc: Global, name: &str, bytes: &[u8]) -> Result<(), FileFault> {
        let wrote = write_file(&self.rt, name, bytes);
        self.answer_put(wrote)
    }
}

impl<R> HostFiles<R> {
    /// What a `get` of this name answers that found this: a fault is counted, and its name kept.
    fn answer_get(
        &mut self,
        alloc: Global,
        name: &str,
        found: Result<Got, FileFault>,
    ) -> Result<Got, FileFault>
        ensures same { UnlessFailed found (result ≡ found) }
        ensures failed { OnFailed found (IsErr result) }
        ensures failed_only { OnFailed result (found ≡ Err FileFault.Failed) }
        ensures failed_count { OnFailed result (self.new.read_faults ≡ raised self.old.read_faults) }
        ensures failed_missed { OnFailed result (kept_name self.new.missed ≡ Some name.now) }
        ensures read_faults_stay { UnlessFailed result (self.new.read_faults ≡ self.old.read_faults) }
        ensures missed_stays { UnlessFailed result (self.new.missed ≡ self.old.missed) }
        ensures never_falls { self.old.read_faults ≤ self.new.read_faults }
        ensures write_faults_stay { self.new.write_faults ≡ self.old.write_faults }
    {
        if let Err(FileFault::Failed) = found {
            let missed = String::from_str(alloc, name)?;
            self.missed = Some(missed);
            self.read_faults = next_count(self.read_faults);
        }
        found
    }

    /// What a `put` answers that wrote, or failed to: a fault is counted.
    fn answer_put(&mut self, wrote: io::Result<()>) -> Result<(), FileFault>
        ensures ok { OnOk wrote (result ≡ Ok tt) }
        ensures failed { OnErr wrote (result ≡ Err FileFault.Failed) }
        ensures failed_count { OnFailed result (self.new.write_faults ≡ raised self.old.write_faults) }
        ensures write_faults_stay { UnlessFailed result (self.new.write_faults ≡ self.old.write_faults) }
        ensures never_falls { self.old.write_faults ≤ self.new.write_faults }
        ensures read_faults_stay { self.new.read_faults ≡ self.old.read_faults }
        ensures missed_stays { self.new.missed ≡ self.old.missed }
    {
        if wrote.is_err() {
            self.write_faults = next_count(self.write_faults);
            return Err(FileFault::Failed);
        }
        Ok(())
    }
}

/// What is found in a file of at most `max` bytes, by what opening it came to. It is `Absent` exactly
/// where the system found none.
///
/// # Errors
///
/// `Failed` where opening failed otherwise or a read failed, `Memory` where what was read finds no
/// memory.
fn read_opened<F: Read + Drop>(
    alloc: Global,
    opened: io::Result<F>,
    max: u64,
) -> Result<Got, FileFault>
    ensures absent { IfErr opened (λ error.
        error_kind error ≡ ErrorKind.NotFound → result ≡ Ok Got.Absent) }
    ensures failed { IfErr opened (λ error.
        error_kind error ≢ ErrorKind.NotFound → result ≡ Err FileFault.Failed) }
    ensures present { OnOk opened (IfOk result (λ got. IsAbsent got → ⊥)) }
    ensures within { IfOk result (λ got. IfBytes got (λ bytes. length bytes ≤ max)) }
    ensures bytes { IfOk opened (λ file. IfOk result (λ got. IfBytes got
        (λ bytes. IfSome (F.remaining file) (λ left. bytes ≡ left)))) }
    ensures too_long { IfOk opened (λ file. IfOk result (λ got. IsTooLong got →
        IfSome (F.remaining file) (λ left. max < length left))) }
{
    match opened {
        Ok(mut file) => read_all(alloc, &mut file, max),
        Err(error) => {
            if error.kind() == ErrorKind::NotFound {
                Ok(Got::Absent)
            } else {
                Err(FileFault::Failed)
            }
        }
    }
}

/// Makes the file, or empties the one that is there, and writes all the bytes. Where that fails once
/// the file is open, what was begun is removed, so that nothing takes a part for the whole.
fn write_file<R: rt::Files>(rt: &R, name: &str, bytes: &[u8]) -> io::Result<()> {
    let mut file = fs::create(rt, name)?;
    let wrote = write_bytes(&mut file, bytes);
    if wrote.is_err() && is_regular(&file) {
        // Where removing fails too, a part of the bytes is left, and the fault says that it may be.
        let _ = fs::remove_file(rt, name);
    }
    wrote
}

/// Whether this is a file with bytes on a disk, and no device or pipe, which isn't ours to remove.
fn is_regular<F: OpenFile>(file: &F) -> bool {
    match file.metadata() {
        Ok(metadata) => metadata.is_file(),
        Err(_) => false,
    }
}
