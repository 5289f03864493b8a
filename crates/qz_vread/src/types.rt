//! Reading types and constants.

ghost use Rattle.std.specs.Prelude.{◌≡◌, ◌++◌, MatchOption};
ghost use Rattle.qz_values.specs.Types.{IsType};
ghost use Rattle.qz_values.specs.Values.{type_of, IsValue};
ghost use Rattle.qz_vtext.specs.Spelling.{mark_text, constant_text};
ghost use Rattle.qz_vread.specs.Parts.{NoFront};
ghost use Rattle.qz_vread.specs.Reading.{Reads, HasType, IsUntyped, IsRange, IsNoRange};

use crate::bytes::{split_at, strip};
use crate::numbers::{number, strip_numbered};
use qz_values::{Ty, Value};

/// A type before what is declared, and what follows it. A bool has no text there.
pub(crate) fn declared_type(bytes: &[u8]) -> Option<(Ty, &[u8])>
    ensures { MatchOption result (IsUntyped bytes.now) (λ read. HasType bytes.now read.0 read.1.now) }
{
    match strip(bytes, b"[") {
        Some(range) => vector(range),
        None => Some((Ty::Bool, bytes)),
    }
}

/// The type of a vector, of whose range the `[` was read, and what follows.
fn vector(bytes: &[u8]) -> Option<(Ty, &[u8])>
    ensures { MatchOption result (IsNoRange bytes.now) (λ read. IsRange bytes.now read.0 read.1.now) }
{
    let (high, rest) = split_at(bytes, b':')?;
    let high = number(high)?;
    if high > 63 {
        return None;
    }
    Some((Ty::Bv(high as u8 + 1), strip(rest, b"0] ")?))
}

/// The constant of this type that the bytes are.
pub(crate) fn constant(ty: Ty, bytes: &[u8]) -> Option<Value>
    ensures { Reads (λ value. IsValue value × (type_of value ≡ ty)) constant_text bytes.now result }
{
    Value::new(ty, number(strip_mark(ty, bytes)?)?)
}

/// What follows that which stands before the number of a constant of this type.
fn strip_mark(ty: Ty, bytes: &[u8]) -> Option<&[u8]>
    ensures { MatchOption result (NoFront bytes.now (mark_text ty)) (λ rest. bytes.now ≡ mark_text ty ++ rest.now) }
{
    match ty {
        Ty::Bool => strip(bytes, b"1'b"),
        Ty::Bv(width) => strip(strip_numbered(bytes, b"", u64::from(width), b'\'')?, b"d"),
    }
}
