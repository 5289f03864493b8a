//! Files as a compiler sees them.
ghost use Rattle.std.specs.Prelude.{◌≡◌, ◌≢◌, ℕ, ◌<◌, ◌≤◌, ◌↔◌, List, Option, Some, None, length, IsSome, IsSomeAnd, IfOk, OnOk};
ghost use Rattle.qz_io.specs.Answers.{OnFailed, OnMemory, UnlessFailed, IsAbsent, IsTooLong, IfBytes};
ghost use Rattle.qz_io.specs.Counts.{Rose};
ghost use Rattle.qz_io.specs.Held.{Held, held_under};

use crate::answers::{FileFault, Got};
use std::alloc::Global;

/// Files that are read and written whole, by their names.
///
/// A count *rose* in a call where it is larger after the call than before it, or stands at
/// `u64::MAX`. No count ever falls.
pub trait Files {
    // What is held under each name, where an implementor tells it. Whether it does never changes.
    ghost held: { Self → Option Held };

    // How many calls of `get` failed, and of `put`.
    ghost read_faults: { Self → ℕ };

    ghost write_faults: { Self → ℕ };

    // The bytes of the name that the last call of `get` to fail was asked for.
    ghost missed: { Self → Option (List ℕ) };

    /// Reads all that is held under `name`, if it is at most `max` bytes.
    ///
    /// # Errors
    ///
    /// `Failed` where reading failed, and the name is then kept as missed. `Memory` where the bytes
    /// or the missed name find no memory.
    fn get(&mut self, alloc: Global, name: &str, max: u64) -> Result<Got, FileFault>
        ensures held_stays { held self.new ≡ held self.old }

        // Failing raises the count and keeps the name. No other answer changes either.
        ensures failed_rose { OnFailed result (Rose (read_faults self.old) (read_faults self.new)) }
        ensures failed_missed { OnFailed result (missed self.new ≡ Some name.now) }
        ensures read_faults_stay { UnlessFailed result (read_faults self.new ≡ read_faults self.old) }
        ensures missed_stays { UnlessFailed result (missed self.new ≡ missed self.old) }
        ensures never_falls { read_faults self.old ≤ read_faults self.new }
        ensures write_faults_stay { write_faults self.new ≡ write_faults self.old }

        // Where what is held is told, it decides which answer comes at `Ok`.
        ensures absent { IsSome (held self.old) → IfOk result (λ got. IsAbsent got ↔
            (held_under (held self.old) name.now ≡ None)) }
        ensures too_long { IsSome (held self.old) → IfOk result (λ got. IsTooLong got ↔
            IsSomeAnd (held_under (held self.old) name.now) (λ bytes. max < length bytes)) }
        ensures bytes { IsSome (held self.old) → IfOk result (λ got. IfBytes got
            (λ bytes. held_under (held self.old) name.now ≡ Some bytes)) }
        ensures within { IfOk result (λ got. IfBytes got (λ bytes. length bytes ≤ max)) };

    /// Writes `bytes` under `name`, in place of what was held there.
    ///
    /// # Errors
    ///
    /// `Failed` where writing failed: what is then held under this one name is open. `Memory` where
    /// no memory was left, and then nothing that is held changed.
    fn put(&mut self, alloc: Global, name: &str, bytes: &[u8]) -> Result<(), FileFault>
        ensures told { IsSome (held self.new) ↔ IsSome (held self.old) }
        ensures put { IsSome (held self.old) → OnOk result
            (held_under (held self.new) name.now ≡ Some bytes.now) }
        ensures others { (other : List ℕ) → other ≢ name.now →
            held_under (held self.new) other ≡ held_under (held self.old) other }
        ensures memory { OnMemory result (held self.new ≡ held self.old) }

        // Failing raises the count. No other answer changes it.
        ensures failed_rose { OnFailed result (Rose (write_faults self.old) (write_faults self.new)) }
        ensures write_faults_stay { UnlessFailed result (write_faults self.new ≡ write_faults self.old) }
        ensures never_falls { write_faults self.old ≤ write_faults self.new }
        ensures read_faults_stay { read_faults self.new ≡ read_faults self.old }
        ensures missed_stays { missed self.new ≡ missed self.old };
}
