//! Files in memory that never fail.
ghost use Rattle.std.specs.Prelude.{◌≡◌, ◌≢◌, ℕ, ◌<◌, ◌≤◌, ◌↔◌, List, [], Some, None, length, IsSomeAnd, IfOk, OnOk, OnErr};
ghost use Rattle.qz_io.specs.Answers.{OnFailed, IsAbsent, IsTooLong, IfBytes};
ghost use Rattle.qz_io.specs.Entries.{held_in, kept_name};

use crate::answers::{FileFault, Got};
use crate::entries::{get_entry, put_entry};
use crate::files_trait::Files;
use std::alloc::Global;

/// Files in memory that never fail, so that their two counts of faults are always 0.
#[derive(Debug, Drop)]
pub struct SureFiles {
    /// Names and their bytes. Of two entries with one name the first counts.
    pub held: Vec<(String, Vec<u8>)>,
    /// A name that no call changes, since none fails.
    pub missed: Option<String>,
}

impl SureFiles {
    /// Files that hold nothing.
    pub fn new(alloc: Global) -> Self
        ensures held { result.held.items ≡ [] }
        ensures missed { result.missed ≡ None }
    {
        SureFiles {
            held: Vec::new(alloc),
            missed: None,
        }
    }
}

impl Files for SureFiles {
    ghost held = { λ files. Some (held_in files.held.items) };

    ghost read_faults = { λ _. 0 };

    ghost write_faults = { λ _. 0 };

    ghost missed = { λ files. kept_name files.missed };

    fn get(&mut self, alloc: Global, name: &str, max: u64) -> Result<Got, FileFault>
        ensures never_fails { OnFailed result ⊥ }
        ensures stays { self.new ≡ self.old }

        // What is held decides which answer comes at `Ok`.
        ensures absent { IfOk result (λ got. IsAbsent got ↔ (held_in self.old.held.items name.now ≡ None)) }
        ensures too_long { IfOk result (λ got. IsTooLong got ↔
            IsSomeAnd (held_in self.old.held.items name.now) (λ bytes. max < length bytes)) }
        ensures bytes { IfOk result (λ got. IfBytes got
            (λ bytes. held_in self.old.held.items name.now ≡ Some bytes)) }
        ensures within { IfOk result (λ got. IfBytes got (λ bytes. length bytes ≤ max)) }
    {
        get_entry(alloc, &self.held, name, max)
    }

    fn put(&mut self, alloc: Global, name: &str, bytes: &[u8]) -> Result<(), FileFault>
        ensures never_fails { OnFailed result ⊥ }
        ensures missed_stays { self.new.missed ≡ self.old.missed }
        ensures err { OnErr result (self.new.held.items ≡ self.old.held.items) }

        // At `Ok` only this name changes.
        ensures put { OnOk result (held_in self.new.held.items name.now ≡ Some bytes.now) }
        ensures others { (other : List ℕ) → other ≢ name.now →
            held_in self.new.held.items other ≡ held_in self.old.held.items other }
    {
        put_entry(alloc, &mut self.held, name, bytes)
    }
}
