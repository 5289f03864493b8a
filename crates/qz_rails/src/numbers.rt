//! The bits of numbers that are the same at every valuation.

ghost use Rattle.std.specs.Prelude.{length, ◌≡◌, ◌<◌, IfOk};
ghost use Rattle.std.specs.List.{All};
ghost use Rattle.qz_dd.specs.Tables.{Reading, Reads, count};
ghost use Rattle.qz_values.specs.Types.{width_of};
ghost use Rattle.qz_rails.specs.Bits.{bits_in, digits_of, number_of};

use qz_dd::{DdId, Diagrams};
use qz_values::Ty;
use std::alloc::{AllocError, Global};

/// The bits of the default of a type, each of them false at every valuation.
pub fn zeros(diagrams: &Diagrams, alloc: Global, ty: Ty) -> Result<Vec<DdId>, AllocError>
    ensures below { IfOk result (λ r. All (λ x. x.0 < count diagrams.now) r.items) }
    ensures size { IfOk result (λ r. length r.items ≡ width_of ty) }
    ensures means { IfOk result (λ r. (reading : Reading) → Reads reading diagrams.now → number_of (bits_in reading r.items) ≡ 0) }
{
    let bits = digits(diagrams, alloc, 0, width(ty))?;
    Ok(bits)
}

/// The lowest `width` bits of a number, as constants.
pub fn digits(
    diagrams: &Diagrams,
    alloc: Global,
    number: u64,
    width: u8,
) -> Result<Vec<DdId>, AllocError>
    ensures below { IfOk result (λ r. All (λ x. x.0 < count diagrams.now) r.items) }
    ensures size { IfOk result (λ r. length r.items ≡ width) }
    ensures means { IfOk result (λ r. (reading : Reading) → Reads reading diagrams.now →
        bits_in reading r.items ≡ digits_of width number) }
{
    let mut all = Vec::new(alloc);
    let mut rest = number;
    for i in 0..width {
        all.push(diagrams.constant(rest % 2 == 1))?;
        rest /= 2;
    }
    Ok(all)
}

/// How many bits a value of the type has.
pub fn width(ty: Ty) -> u8
    ensures { result ≡ width_of ty }
{
    match ty {
        Ty::Bool => 1,
        Ty::Bv(width) => width,
    }
}
