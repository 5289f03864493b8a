//! Why bytes make no program.

ghost use Rattle.std.specs.Prelude.{◌≡◌};
ghost use Rattle.qz_program.specs.Causes.{source_cause};

use qz_source::SourceFault;
use qz_syntax::Name;
use qz_types::TypeKind;

/// What stands against the bytes of a source. Offsets are in bytes from 0, sizes in units of a module's size.
#[derive(Debug, Drop)]
pub enum NoProgram {
    /// The bytes are no UTF-8 from this offset on.
    NotUtf8 { offset: u32 },
    /// No token begins at this offset.
    Lex { offset: u32 },
    /// The token at this offset is the first with which no file begins.
    Parse { offset: u32 },
    /// The token at this offset is the first with which no file within the levels begins, but one with more does.
    Deep { offset: u32 },
    /// The first fault of types.
    Types { offset: u32, kind: TypeKind },
    /// The source has prototypes.
    Prototypes,
    /// The file's module is too large.
    FileSize { units: u64 },
    /// The module has another name than the one that is wanted.
    Missing,
    /// The body of this loop, by its number in the module, may end at once.
    InstantLoop { module: Name, number: u32 },
    /// The whole program is too large.
    Size { units: u64 },
    /// Memory ran out.
    Memory,
}

/// The cause that a fault of the bytes is.
pub(crate) fn source_cause(fault: SourceFault) -> NoProgram
    ensures { result ≡ source_cause fault }
{
    match fault {
        SourceFault::NotUtf8 { offset } => NoProgram::NotUtf8 { offset },
        SourceFault::Lex { offset } => NoProgram::Lex { offset },
        SourceFault::Parse { offset } => NoProgram::Parse { offset },
        SourceFault::Deep { offset } => NoProgram::Deep { offset },
        SourceFault::Memory => NoProgram::Memory,
    }
}
