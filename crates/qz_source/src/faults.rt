//! Why bytes spell no file.

ghost use Rattle.std.specs.Prelude.{◌≡◌};
ghost use Rattle.qz_source.specs.declared.faults.SourceFault.TheVariants.{Memory};

use qz_lexer::LexFault;
use std::alloc::AllocError;
use thiserror::Error;

/// Why bytes spell no file. Offsets are in bytes from 0.
#[derive(Debug, Drop, Clone, Copy, PartialEq, Eq, Error)]
pub enum SourceFault {
    /// The bytes are no UTF-8. The offset is the length of the longest front that is.
    #[error("no UTF-8 from byte {offset} on")]
    NotUtf8 { offset: u32 },
    /// No token, white space or comment begins here, after those before it.
    #[error("no token begins at byte {offset}")]
    Lex { offset: u32 },
    /// No file begins with the tokens up to and with the one here. At the text's length: the tokens begin a
    /// file and are none.
    #[error("no file goes on with the token at byte {offset}")]
    Parse { offset: u32 },
    /// Only files with a level above 128 begin with the tokens up to and with the one here.
    #[error("the token at byte {offset} is nested too deep")]
    Deep { offset: u32 },
    /// Memory ran out.
    #[error("out of memory")]
    Memory,
}

impl From<AllocError> for SourceFault {
    ghost from_gives = { λ _ fault. fault ≡ Memory };

    fn from(_error: AllocError) -> SourceFault {
        SourceFault::Memory
    }
}

impl From<LexFault> for SourceFault {
    ghost use Rattle.qz_source.specs.Sources.{source_fault_of};

    ghost from_gives = { λ fault given. given ≡ source_fault_of fault };

    fn from(fault: LexFault) -> SourceFault {
        match fault {
            LexFault::At { offset } => SourceFault::Lex { offset },
            LexFault::Memory => SourceFault::Memory,
        }
    }
}
