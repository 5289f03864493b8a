//! A sink in memory, which fails where it is told to.
ghost use Rattle.std.specs.Prelude.{◌≡◌, ◌≤◌, ◌↔◌, [], ◌++◌, Some, Err, Contains, IsTrue, OnOk, OnErr};
ghost use Rattle.qz_io.specs.Answers.{OnFailed, UnlessFailed};
ghost use Rattle.qz_io.specs.Counts.{raised};

use crate::answers::FileFault;
use crate::counts::next_count;
use crate::sink_trait::Sink;
use std::alloc::Global;

/// A sink in memory, which fails each call whose number is in `fail` and leaves its bytes.
///
/// Calls are counted from 0. Both counts stay at `u64::MAX` once they stand there.
#[derive(Debug, Drop)]
pub struct MemSink {
    /// The bytes that were written.
    pub bytes: Vec<u8>,
    /// The numbers of the calls that fail.
    pub fail: Vec<u64>,
    /// How many calls were made, which is the number of the next one.
    pub calls: u64,
    /// How many calls failed.
    pub faults: u64,
}

impl MemSink {
    /// A sink without bytes that never fails, until its fields say otherwise.
    pub fn new(alloc: Global) -> Self
        ensures bytes { result.bytes.items ≡ [] }
        ensures fail { result.fail.items ≡ [] }
        ensures calls { result.calls ≡ 0 }
        ensures faults { result.faults ≡ 0 }
    {
        MemSink {
            bytes: Vec::new(alloc),
            fail: Vec::new(alloc),
            calls: 0,
            faults: 0,
        }
    }

    /// Counts a call, and says whether it fails.
    fn begin_call(&mut self) -> bool
        ensures fails { IsTrue result ↔ Contains self.old.fail.items self.old.calls }
        ensures counted { self.new ≡ record self.old { calls = raised self.old.calls } }
    {
        let fails = self.fail.contains(&self.calls);
        self.calls = next_count(self.calls);
        fails
    }
}

impl Sink for MemSink {
    ghost written = { λ sink. Some sink.bytes.items };

    ghost faults = { λ sink. sink.faults };

    fn put(&mut self, _alloc: Global, bytes: &[u8]) -> Result<(), FileFault>
        // A call fails exactly where its number is listed, and then leaves the bytes.
        ensures failing { Contains self.old.fail.items self.old.calls → result ≡ Err FileFault.Failed }
        ensures failed_only { OnFailed result (Contains self.old.fail.items self.old.calls) }
        ensures failed_count { OnFailed result (self.new.faults ≡ raised self.old.faults) }
        ensures faults_stay { UnlessFailed result (self.new.faults ≡ self.old.faults) }
        ensures never_falls { self.old.faults ≤ self.new.faults }
        ensures err { OnErr result (self.new.bytes.items ≡ self.old.bytes.items) }

        // At `Ok` all the bytes were appended.
        ensures appended { OnOk result (self.new.bytes.items ≡ self.old.bytes.items ++ bytes.now) }

        // Each call is counted, and the list of those that fail stays.
        ensures calls { self.new.calls ≡ raised self.old.calls }
        ensures fail_stays { self.new.fail ≡ self.old.fail }
    {
        if self.begin_call() {
            self.faults = next_count(self.faults);
            return Err(FileFault::Failed);
        }
        self.bytes.extend_from_slice(bytes)?;
        Ok(())
    }
}
