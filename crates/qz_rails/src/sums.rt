//! Sums and orders of numbers whose bits are diagrams, from the lowest bit up.

ghost use Rattle.std.specs.Prelude.{length, ◌≡◌, ◌<◌, IfOk};
ghost use Rattle.std.specs.List.{All};
ghost use Rattle.qz_dd.specs.Tables.{Reading, Reads, count, Extends, Carries};
ghost use Rattle.qz_rails.specs.Bits.{bits_in};
ghost use Rattle.qz_rails.specs.Sums.{parity_of, most_of, less_from, sums_from};

use qz_dd::{DdId, DdOp, Diagrams};
use std::alloc::{AllocError, Global};

/// Where the first number is less than the second, or where they are equal if `or_equal`.
pub fn less(
    diagrams: &mut Diagrams,
    alloc: Global,
    or_equal: bool,
    xs: &[DdId],
    ys: &[DdId],
) -> Result<DdId, AllocError>
    requires size { length xs.now ≡ length ys.now }
    requires xs { All (λ x. x.0 < count diagrams.old) xs.now }
    requires ys { All (λ y. y.0 < count diagrams.old) ys.now }
    ensures extends { Extends diagrams.old diagrams.new }
    ensures below { IfOk result (λ r. r.0 < count diagrams.new) }
    ensures means { IfOk result (λ r. Carries diagrams.new r.0 (λ reading.
        less_from or_equal (bits_in reading xs.now) (bits_in reading ys.now))) }
{
    let mut less = diagrams.constant(or_equal);
    for (i, x) in xs.iter().enumerate() {
        let y = ys[i];
        let differ = diagrams.apply(alloc, DdOp::Xor, *x, y)?;
        less = diagrams.ite(alloc, differ, y, less)?;
    }
    Ok(less)
}

/// The bits of the sum of both numbers and the carry, modulo 2 to the power of how many bits they
/// have.
pub fn sum(
    diagrams: &mut Diagrams,
    alloc: Global,
    carried: bool,
    xs: &[DdId],
    ys: &[DdId],
) -> Result<Vec<DdId>, AllocError>
    requires size { length xs.now ≡ length ys.now }
    requires xs { All (λ x. x.0 < count diagrams.old) xs.now }
    requires ys { All (λ y. y.0 < count diagrams.old) ys.now }
    ensures extends { Extends diagrams.old diagrams.new }
    ensures below { IfOk result (λ r. All (λ x. x.0 < count diagrams.new) r.items) }
    ensures size { IfOk result (λ r. length r.items ≡ length xs.now) }
    ensures means { IfOk result (λ r. (reading : Reading) → Reads reading diagrams.new →
        bits_in reading r.items ≡ sums_from carried (bits_in reading xs.now) (bits_in reading ys.now)) }
{
    let mut sums = Vec::new(alloc);
    let mut carry = diagrams.constant(carried);
    for (i, x) in xs.iter().enumerate() {
        let y = ys[i];
        let sum = parity(diagrams, alloc, *x, y, carry)?;
        carry = majority(diagrams, alloc, *x, y, carry)?;
        sums.push(sum)?;
    }
    Ok(sums)
}

/// The sum's bit of two bits and a carry.
fn parity(
    diagrams: &mut Diagrams,
    alloc: Global,
    a: DdId,
    b: DdId,
    carry: DdId,
) -> Result<DdId, AllocError>
    requires a { a.0 < count diagrams.old }
    requires b { b.0 < count diagrams.old }
    requires carry { carry.0 < count diagrams.old }
    ensures extends { Extends diagrams.old diagrams.new }
    ensures below { IfOk result (λ r. r.0 < count diagrams.new) }
    ensures means { IfOk result (λ r. Carries diagrams.new r.0 (λ reading.
        parity_of (reading.values a.0) (reading.values b.0) (reading.values carry.0))) }
{
    let half = diagrams.apply(alloc, DdOp::Xor, a, b)?;
    let sum = diagrams.apply(alloc, DdOp::Xor, half, carry)?;
    Ok(sum)
}

/// The next carry of two bits and a carry: what most of them are.
fn majority(
    diagrams: &mut Diagrams,
    alloc: Global,
    a: DdId,
    b: DdId,
    carry: DdId,
) -> Result<DdId, AllocError>
    requires a { a.0 < count diagrams.old }
    requires b { b.0 < count diagrams.old }
    requires carry { carry.0 < count diagrams.old }
    ensures extends { Extends diagrams.old diagrams.new }
    ensures below { IfOk result (λ r. r.0 < count diagrams.new) }
    ensures means { IfOk result (λ r. Carries diagrams.new r.0 (λ reading.
        most_of (reading.values a.0) (reading.values b.0) (reading.values carry.0))) }
{
    let half = diagrams.apply(alloc, DdOp::Xor, a, b)?;
    let most = diagrams.ite(alloc, half, carry, b)?;
    Ok(most)
}
