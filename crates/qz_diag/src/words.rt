//! What is at fault, in words.

ghost use Rattle.std.specs.Prelude.{◌≡◌};
ghost use Rattle.qz_diag.specs.Causes.{byte_fault_text, type_fault_text, trace_fault_text, doubt_text};

use qz_syntax::Doubt;
use qz_trace::TraceKind;
use qz_types::TypeKind;

/// What is at fault at a byte of a source.
#[derive(Clone, Copy, Debug, PartialEq, Eq)]
pub enum ByteFault {
    /// The bytes are no UTF-8 from here on.
    NotUtf8,
    /// No token begins here.
    Lex,
    /// No file begins with the tokens up to and with this one.
    Parse,
    /// Only files with more levels than may be begin with the tokens up to and with this one.
    Deep,
    /// A fault of types.
    Types(TypeKind),
}

/// What is at fault at a byte of a source, in words.
pub(crate) fn text_of_byte_fault(fault: ByteFault) -> &'static str
    ensures { result.now ≡ byte_fault_text fault }
{
    match fault {
        ByteFault::NotUtf8 => "not UTF-8",
        ByteFault::Lex => "no token",
        ByteFault::Parse => "syntax",
        ByteFault::Deep => "nested too deep",
        ByteFault::Types(kind) => text_of_type_fault(kind),
    }
}

/// A fault of types, in words.
fn text_of_type_fault(kind: TypeKind) -> &'static str
    ensures { result.now ≡ type_fault_text kind }
{
    match kind {
        TypeKind::UnknownName => "unknown name",
        TypeKind::DoubleName => "name declared twice",
        TypeKind::TypeDiffers => "types differ",
        TypeKind::WidthRange => "width out of range",
        TypeKind::LiteralRange => "literal out of range",
        TypeKind::WriteToInput => "write to an input",
        TypeKind::NotWritable => "argument isn't writable",
        TypeKind::ArgCount => "wrong number of arguments",
        TypeKind::ArgClass => "class differs",
        TypeKind::SliceRange => "index out of range",
        TypeKind::TooMany => "too many formals",
    }
}

/// What is at fault in a line of a trace, in words.
pub(crate) fn text_of_trace_fault(kind: TraceKind) -> &'static str
    ensures { result.now ≡ trace_fault_text kind }
{
    match kind {
        TraceKind::End => "unended",
        TraceKind::Count => "wrong count",
        TraceKind::Form => "not a number",
        TraceKind::Range => "out of range",
    }
}

/// Why an instance isn't definite, in words.
pub(crate) fn text_of_doubt(doubt: Doubt) -> &'static str
    ensures { result.now ≡ doubt_text doubt }
{
    match doubt {
        Doubt::Unknown => "unknown",
        Doubt::Clash => "clash",
    }
}
