//! The standard output of the system.
ghost use Rattle.std.specs.Prelude.{◌≡◌, None};

use crate::answers::FileFault;
use crate::counts::next_count;
use crate::sink_trait::Sink;
use crate::writing::write_bytes;
use std::alloc::Global;
use std::io;

/// The standard output, through the program's runtime.
///
/// It doesn't tell what was written. Any error of a write is a fault, and so is a write that takes
/// nothing, but one that a signal interrupts is tried again. The count stays at `u64::MAX` once it
/// stands there.
#[derive(Debug, Drop)]
pub struct HostSink<R> {
    rt: R,
    faults: u64,
}

impl<R: Print> HostSink<R> {
    /// The output to which the runtime prints. No call has failed.
    pub fn new(rt: R) -> Self
        ensures { ⟦<HostSink<R> as Sink>⟧.faults result ≡ 0 }
    {
        HostSink { rt, faults: 0 }
    }
}

impl<R: Print> Sink for HostSink<R> {
    ghost written = { λ _. None };

    ghost faults = { λ sink. sink.faults };

    fn put(&mut self, _alloc: Global, bytes: &[u8]) -> Result<(), FileFault> {
        match print_bytes(&self.rt, bytes) {
            Ok(()) => Ok(()),
            Err(_) => {
                self.faults = next_count(self.faults);
                Err(FileFault::Failed)
            }
        }
    }
}

/// Prints all the bytes.
fn print_bytes<R: Print>(rt: &R, bytes: &[u8]) -> io::Result<()> {
    let mut output = io::writer(rt);
    write_bytes(&mut output, bytes)
}
