//! A sink as a compiler sees it.
ghost use Rattle.std.specs.Prelude.{◌≡◌, ℕ, ◌≤◌, List, Option, take, OnOk};
ghost use Rattle.std.specs.Io.KnownBytes.{append_known};
ghost use Rattle.qz_io.specs.Answers.{OnFailed, OnMemory, UnlessFailed};
ghost use Rattle.qz_io.specs.Counts.{Rose};

use crate::answers::FileFault;
use std::alloc::Global;

/// An output to which bytes are appended.
///
/// A count *rose* in a call where it is larger after the call than before it, or stands at
/// `u64::MAX`. No count ever falls.
pub trait Sink {
    // The bytes that were written, where an implementor tells them. Whether it does never changes.
    ghost written: { Self → Option (List ℕ) };

    // How many calls failed.
    ghost faults: { Self → ℕ };

    /// Appends `bytes`.
    ///
    /// # Errors
    ///
    /// `Failed` where writing failed: some first part of `bytes` was appended. `Memory` where no
    /// memory was left, and then nothing was.
    fn put(&mut self, alloc: Global, bytes: &[u8]) -> Result<(), FileFault>
        ensures appended { OnOk result (written self.new ≡ append_known (written self.old) bytes.now) }
        ensures prefix { OnFailed result ((n : ℕ) ×
            (written self.new ≡ append_known (written self.old) (take n bytes.now))) }
        ensures memory { OnMemory result (written self.new ≡ written self.old) }

        // Failing raises the count. No other answer changes it.
        ensures failed_rose { OnFailed result (Rose (faults self.old) (faults self.new)) }
        ensures faults_stay { UnlessFailed result (faults self.new ≡ faults self.old) }
        ensures never_falls { faults self.old ≤ faults self.new };
}
