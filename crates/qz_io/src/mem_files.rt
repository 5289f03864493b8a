//! Files in memory, which fail where they are told to.
ghost use Rattle.std.specs.Prelude.{◌≡◌, ◌≢◌, ℕ, ◌<◌, ◌≤◌, ◌↔◌, List, [], Some, None, Err, length, Contains, IsSomeAnd, IsErr, IsTrue, IfOk, OnOk, OnErr};
ghost use Rattle.qz_io.specs.Answers.{OnFailed, UnlessFailed, IsAbsent, IsTooLong, IfBytes};
ghost use Rattle.qz_io.specs.Counts.{raised};
ghost use Rattle.qz_io.specs.Entries.{held_in, kept_name};

use crate::answers::{FileFault, Got};
use crate::counts::next_count;
use crate::entries::{get_entry, put_entry};
use crate::files_trait::Files;
use std::alloc::Global;

/// Files in memory, which fail each call whose number is in `fail` and leave what is held.
///
/// Calls of `get` and of `put` are counted together, from 0. The three counts stay at `u64::MAX`
/// once they stand there.
#[derive(Debug, Drop)]
pub struct MemFiles {
    /// Names and their bytes. Of two entries with one name the first counts.
    pub held: Vec<(String, Vec<u8>)>,
    /// The numbers of the calls that fail.
    pub fail: Vec<u64>,
    /// How many calls were made, which is the number of the next one.
    pub calls: u64,
    /// How many calls of `get` failed.
    pub read_faults: u64,
    /// How many calls of `put` failed.
    pub write_faults: u64,
    /// The name that the last call of `get` to fail was asked for.
    pub missed: Option<String>,
}

impl MemFiles {
    /// Files that hold nothing and never fail, until their fields say otherwise.
    pub fn new(alloc: Global) -> Self
        ensures held { result.held.items ≡ [] }
        ensures fail { result.fail.items ≡ [] }
        ensures calls { result.calls ≡ 0 }
        ensures read_faults { result.read_faults ≡ 0 }
        ensures write_faults { result.write_faults ≡ 0 }
        ensures missed { result.missed ≡ None }
    {
        MemFiles {
            held: Vec::new(alloc),
            fail: Vec::new(alloc),
            calls: 0,
            read_faults: 0,
            write_faults: 0,
            missed: None,
        }
    }

    /// Counts a call, and says whether it fails.
    fn begin_call(&mut self) -> bool
        ensures fails { IsTrue result ↔ Contains self.old.fail.items self.old.calls }
        ensures counted { self.new ≡ record self.old { calls = raised self.old.calls } }
    {
        let fails = self.fail.contains(&self.calls);
        self.calls = next_count(self.calls);
        fails
    }
}

impl Files for MemFiles {
    ghost held = { λ files. Some (held_in files.held.items) };

    ghost read_faults = { λ files. files.read_faults };

    ghost write_faults = { λ files. files.write_faults };

    ghost missed = { λ files. kept_name files.missed };

    fn get(&mut self, alloc: Global, name: &str, max: u64) -> Result<Got, FileFault>
        // A call fails where its number is listed, or finds no memory to keep the name.
        ensures failing { Contains self.old.fail.items self.old.calls → IsErr result }
        ensures failed_only { OnFailed result (Contains self.old.fail.items self.old.calls) }
        ensures failed_count { OnFailed result (self.new.read_faults ≡ raised self.old.read_faults) }
        ensures failed_missed { OnFailed result (kept_name self.new.missed ≡ Some name.now) }
        ensures read_faults_stay { UnlessFailed result (self.new.read_faults ≡ self.old.read_faults) }
        ensures missed_stays { UnlessFailed result (self.new.missed ≡ self.old.missed) }
        ensures never_falls { self.old.read_faults ≤ self.new.read_faults }

        // Each call is counted, and nothing else changes.
        ensures calls { self.new.calls ≡ raised self.old.calls }
        ensures fail_stays { self.new.fail ≡ self.old.fail }
        ensures held_stays { self.new.held ≡ self.old.held }
        ensures write_faults_stay { self.new.write_faults ≡ self.old.write_faults }

        // What is held decides which answer comes at `Ok`.
        ensures absent { IfOk result (λ got. IsAbsent got ↔ (held_in self.old.held.items name.now ≡ None)) }
        ensures too_long { IfOk result (λ got. IsTooLong got ↔
            IsSomeAnd (held_in self.old.held.items name.now) (λ bytes. max < length bytes)) }
        ensures bytes { IfOk result (λ got. IfBytes got
            (λ bytes. held_in self.old.held.items name.now ≡ Some bytes)) }
        ensures within { IfOk result (λ got. IfBytes got (λ bytes. length bytes ≤ max)) }
    {
        if !self.begin_call() {
            return get_entry(alloc, &self.held, name, max);
        }
        let missed = String::from_str(alloc, name)?;
        self.missed = Some(missed);
        self.read_faults = next_count(self.read_faults);
        Err(FileFault::Failed)
    }

    fn put(&mut self, alloc: Global, name: &str, bytes: &[u8]) -> Result<(), FileFault>
        // A call fails exactly where its number is listed, and then leaves what is held.
        ensures failing { Contains self.old.fail.items self.old.calls → result ≡ Err FileFault.Failed }
        ensures failed_only { OnFailed result (Contains self.old.fail.items self.old.calls) }
        ensures failed_count { OnFailed result (self.new.write_faults ≡ raised self.old.write_faults) }
        ensures write_faults_stay { UnlessFailed result (self.new.write_faults ≡ self.old.write_faults) }
        ensures never_falls { self.old.write_faults ≤ self.new.write_faults }
        ensures err { OnErr result (self.new.held.items ≡ self.old.held.items) }

        // At `Ok` only this name changes.
        ensures put { OnOk result (held_in self.new.held.items name.now ≡ Some bytes.now) }
        ensures others { (other : List ℕ) → other ≢ name.now →
            held_in self.new.held.items other ≡ held_in self.old.held.items other }

        // Each call is counted, and nothing else changes.
        ensures calls { self.new.calls ≡ raised self.old.calls }
        ensures fail_stays { self.new.fail ≡ self.old.fail }
        ensures read_faults_stay { self.new.read_faults ≡ self.old.read_faults }
        ensures missed_stays { self.new.missed ≡ self.old.missed }
    {
        if self.begin_call() {
            self.write_faults = next_count(self.write_faults);
            return Err(FileFault::Failed);
        }
        put_entry(alloc, &mut self.held, name, bytes)
    }
}
