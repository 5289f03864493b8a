//! The parts of a text, and the number that a field is.

ghost use Rattle.std.specs.Prelude.{◌≡◌, ◌↔◌, ◌≤◌, ◌-◌, ◌^◌, map, OnOk, IfSome, IfNone, IsTrue};
ghost use Rattle.std.specs.Str.Parse.{digits_value};
ghost use Rattle.qz_values.specs.Types.{width_of, IsType};
ghost use Rattle.qz_trace.specs.Lines.{parts_of};
ghost use Rattle.qz_trace.specs.Faults.{AreDigits, IsDecimal};
ghost use Rattle.qz_trace.specs.Reading.{IsCut, IsFree, IsFieldAnswer};

use crate::faults::TraceKind;
use qz_values::Ty;
use std::alloc::AllocFailed;
use std::str;

/// What stands before the first of these bytes and what follows it, or none where there is no such byte.
pub(crate) fn cut(bytes: &[u8], separator: u8) -> Option<(&[u8], &[u8])>
    ensures some { IfSome result (λ cut. IsCut separator bytes.now cut.0.now cut.1.now) }
    ensures none { IfNone result (IsFree separator bytes.now) }
{
    for (at, byte) in bytes.iter().enumerate() {
        if *byte == separator {
            return Some((&bytes[..at], &bytes[at + 1..]));
        }
    }
    None
}

/// Takes the parts of a line between its spaces into `fields`, in place of what was there.
pub(crate) fn split<'t>(
    line: &'t [u8],
    fields: &mut Vec<&'t [u8]>,
) -> Result<(), AllocFailed<&'t [u8]>>
    ensures { OnOk result (map (λ field. field.now) fields.new.items ≡ parts_of 32 line.now) }
{
    fields.clear();
    let mut rest = line;
    while let Some((field, after)) = cut(rest, b' ') {
        fields.push(field)?;
        rest = after;
    }
    fields.push(rest)?;
    Ok(())
}

/// Whether a field is decimal digits, without a zero before others.
fn is_decimal(field: &[u8]) -> bool
    ensures { IsTrue result ↔ IsDecimal field.now }
{
    let Some(first) = field.first() else {
        return false;
    };
    if *first == b'0' && field.len() != 1 {
        return false;
    }
    are_digits(field)
}

/// Whether each byte is a decimal digit.
fn are_digits(field: &[u8]) -> bool
    ensures { IsTrue result ↔ AreDigits field.now }
{
    for byte in field {
        if !byte.is_ascii_digit() {
            return false;
        }
    }
    true
}

/// The number that a field of this type is, or what is at fault in it.
pub(crate) fn number_of(field: &[u8], ty: Ty) -> Result<u64, TraceKind>
    requires { IsType ty }
    ensures { IsFieldAnswer ty field.now result }
{
    if !is_decimal(field) {
        return Err(TraceKind::Form);
    }
    match parsed(field) {
        Some(number) if number <= largest(ty) => Ok(number),
        _ => Err(TraceKind::Range),
    }
}

/// The largest number of the type.
fn largest(ty: Ty) -> u64
    requires { IsType ty }
    ensures { result ≡ 2 ^ width_of ty - 1 }
{
    match ty {
        Ty::Bool => 1,
        Ty::Bv(width) => u64::MAX >> (64 - width),
    }
}

/// The number that decimal digits are, or none where it isn't below 2 to the power of 64.
fn parsed(field: &[u8]) -> Option<u64>
    requires { IsDecimal field.now }
    ensures some { IfSome result (λ number. number ≡ digits_value 10 field.now) }
    ensures none { IfNone result (2 ^ 64 ≤ digits_value 10 field.now) }
{
    match str::from_utf8(field) {
        Ok(text) => text.parse().ok(),
        Err(_) => None,
    }
}
