//! What the calls on files and on a sink answer.
ghost use Rattle.std.specs.Prelude.{◌≡◌};
ghost use Rattle.qz_io.specs.declared.answers.FileFault.TheVariants.{Failed, Memory};

use std::alloc::{AllocError, AllocFailed};
use std::io;
use thiserror::Error;

/// What a call of `get` found under a name.
#[derive(Debug, PartialEq, Eq, Drop)]
pub enum Got {
    /// All the bytes that are held under the name, at most as many as were asked for.
    Bytes(Vec<u8>),
    /// Nothing is held under the name.
    Absent,
    /// More bytes are held under the name than were asked for.
    TooLong,
}

/// Why a call on files or on a sink gave up.
#[derive(Clone, Copy, Debug, PartialEq, Eq, Error)]
pub enum FileFault {
    /// The file or the output failed, and its count of faults rose.
    #[error("reading or writing failed")]
    Failed,
    /// No memory was left, and nothing that is held or written changed.
    #[error("out of memory")]
    Memory,
}

impl From<AllocError> for FileFault {
    ghost from_gives = { λ _ fault. fault ≡ Memory };

    fn from(_error: AllocError) -> FileFault {
        FileFault::Memory
    }
}

impl<T: Drop> From<AllocFailed<T>> for FileFault {
    ghost from_gives = { λ _ fault. fault ≡ Memory };

    fn from(_error: AllocFailed<T>) -> FileFault {
        FileFault::Memory
    }
}

impl From<io::Error> for FileFault {
    ghost from_gives = { λ _ fault. fault ≡ Failed };

    fn from(_error: io::Error) -> FileFault {
        FileFault::Failed
    }
}
