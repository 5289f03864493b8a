//! What a mode comes to before anything is put or said: the file that it puts, or why it puts none.

use qz_diag::Refusal;
use std::alloc::AllocError;

/// A file that is to be put.
#[derive(Debug, Drop)]
pub struct Output {
    pub name: String,
    pub bytes: Vec<u8>,
}

/// Why no file is put.
#[derive(Debug, Drop)]
pub enum Stop {
    /// This stands against the input.
    Refused(Refusal),
    /// A file couldn't be read.
    Unread,
    Memory,
}

impl From<AllocError> for Stop {
    ghost use Rattle.std.specs.Prelude.{◌≡◌};
    ghost use Rattle.qz_driver.specs.declared.work.Stop.TheVariants.{Memory};

    ghost from_gives = { λ _ stop. stop ≡ Memory };

    fn from(_: AllocError) -> Self {
        Stop::Memory
    }
}
