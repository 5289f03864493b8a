//! Parts of vectors, and vectors put together. The bits of the result are bits of the operands, so
//! `bit` and `slice` add nothing to the table.

ghost use Rattle.std.specs.Prelude.{◌≡◌, ◌<◌, ◌≤◌, ◌+◌, ◌-◌, IfOk};
ghost use Rattle.qz_dd.specs.Tables.{Reading, Extends};
ghost use Rattle.qz_values.specs.declared.Ty.TheVariants.{Bool as Truth, Bv};
ghost use Rattle.qz_values.specs.Types.{width_of};
ghost use Rattle.qz_values.specs.Knowledge.{bit_of, slice_of, concat_of};
ghost use Rattle.qz_rails.specs.Rails.{IsRail, CarriesKnow, know_in};

use crate::bits::single;
use crate::rail::Rail;
use qz_dd::{DdOp, Diagrams};
use qz_values::Ty;
use std::alloc::{AllocError, Global};

/// The rail of `a{i}`, a bool; bit 0 is the lowest, and there is a bit `i`.
pub fn bit(diagrams: &Diagrams, alloc: Global, ty: Ty, a: &Rail, i: u8) -> Result<Rail, AllocError>
    requires within { i < width_of ty }
    requires a { IsRail diagrams.now ty a.now }
    ensures rail { IfOk result (λ r. IsRail diagrams.now Truth r) }
    ensures means { IfOk result (λ r. (reading : Reading) → know_in reading Truth r ≡ bit_of (know_in reading ty a.now) i) }
{
    let bits = single(alloc, a.bits[i as usize])?;
    Ok(Rail {
        clash: a.clash,
        known: a.known,
        bits,
    })
}

/// The rail of `a{high:low}`, the bits from `low` to `high`, both of them included.
pub fn slice(
    diagrams: &Diagrams,
    alloc: Global,
    ty: Ty,
    a: &Rail,
    high: u8,
    low: u8,
) -> Result<Rail, AllocError>
    requires within { high < width_of ty }
    requires some { low ≤ high }
    requires a { IsRail diagrams.now ty a.now }
    ensures rail { IfOk result (λ r. IsRail diagrams.now (Bv (high - low + 1)) r) }
    ensures means { IfOk result (λ r. (reading : Reading) →
        know_in reading (Bv (high - low + 1)) r ≡ slice_of (know_in reading ty a.now) high low) }
{
    let mut bits = Vec::new(alloc);
    let part = &a.bits[low as usize..high as usize + 1];
    bits.extend_from_slice(part)?;
    Ok(Rail {
        clash: a.clash,
        known: a.known,
        bits,
    })
}

/// The rail of `a @ b`, the bits of `a` above those of `b`, of these types.
pub fn concat(
    diagrams: &mut Diagrams,
    alloc: Global,
    a_ty: Ty,
    b_ty: Ty,
    a: &Rail,
    b: &Rail,
) -> Result<Rail, AllocError>
    requires a { IsRail diagrams.old a_ty a.now }
    requires b { IsRail diagrams.old b_ty b.now }
    ensures extends { Extends diagrams.old diagrams.new }
    ensures rail { IfOk result (λ r. IsRail diagrams.new (Bv (width_of a_ty + width_of b_ty)) r) }
    ensures means { IfOk result (λ r. CarriesKnow diagrams.new (Bv (width_of a_ty + width_of b_ty)) r (λ reading.
        concat_of (know_in reading a_ty a.now) (know_in reading b_ty b.now))) }
{
    let clash = diagrams.apply(alloc, DdOp::Or, a.clash, b.clash)?;
    let known = diagrams.apply(alloc, DdOp::And, a.known, b.known)?;
    let mut bits = Vec::new(alloc);
    bits.extend_from_slice(&b.bits)?;
    bits.extend_from_slice(&a.bits)?;
    Ok(Rail { clash, known, bits })
}
