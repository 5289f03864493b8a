//! Lists of diagrams, the bits of a number from the lowest up, and what is done to them bit by bit.

ghost use Rattle.std.specs.Prelude.{length, [], ◌∷◌, true, false, ◌≡◌, ◌<◌, not, IfOk, map};
ghost use Rattle.std.specs.List.{All};
ghost use Rattle.qz_dd.specs.Calls.{op_value};
ghost use Rattle.qz_dd.specs.Tables.{Reading, Reads, count, Extends, Carries};
ghost use Rattle.qz_rails.specs.Bits.{bits_in, lowest, pairwise, choices, same_from};

use qz_dd::{DdId, DdOp, Diagrams};
use std::alloc::{AllocError, Global};

/// True where `a` is not.
pub fn opposite(diagrams: &mut Diagrams, alloc: Global, a: DdId) -> Result<DdId, AllocError>
    requires a { a.0 < count diagrams.old }
    ensures extends { Extends diagrams.old diagrams.new }
    ensures below { IfOk result (λ r. r.0 < count diagrams.new) }
    ensures means { IfOk result (λ r. Carries diagrams.new r.0 (λ reading. not (reading.values a.0))) }
{
    let always = diagrams.constant(true);
    let r = diagrams.apply(alloc, DdOp::Xor, always, a)?;
    Ok(r)
}

/// Each bit inverted.
pub fn inverted(
    diagrams: &mut Diagrams,
    alloc: Global,
    xs: &[DdId],
) -> Result<Vec<DdId>, AllocError>
    requires xs { All (λ x. x.0 < count diagrams.old) xs.now }
    ensures extends { Extends diagrams.old diagrams.new }
    ensures below { IfOk result (λ r. All (λ x. x.0 < count diagrams.new) r.items) }
    ensures size { IfOk result (λ r. length r.items ≡ length xs.now) }
    ensures means { IfOk result (λ r. (reading : Reading) → Reads reading diagrams.new →
        bits_in reading r.items ≡ map not (bits_in reading xs.now)) }
{
    let mut all = Vec::new(alloc);
    for (i, x) in xs.iter().enumerate() {
        let y = opposite(diagrams, alloc, *x)?;
        all.push(y)?;
    }
    Ok(all)
}

/// What the operation gives of each two bits.
pub fn each(
    diagrams: &mut Diagrams,
    alloc: Global,
    op: DdOp,
    xs: &[DdId],
    ys: &[DdId],
) -> Result<Vec<DdId>, AllocError>
    requires size { length xs.now ≡ length ys.now }
    requires xs { All (λ x. x.0 < count diagrams.old) xs.now }
    requires ys { All (λ y. y.0 < count diagrams.old) ys.now }
    ensures extends { Extends diagrams.old diagrams.new }
    ensures below { IfOk result (λ r. All (λ x. x.0 < count diagrams.new) r.items) }
    ensures size { IfOk result (λ r. length r.items ≡ length xs.now) }
    ensures means { IfOk result (λ r. (reading : Reading) → Reads reading diagrams.new →
        bits_in reading r.items ≡ pairwise (op_value op) (bits_in reading xs.now) (bits_in reading ys.now)) }
{
    let mut all = Vec::new(alloc);
    for (i, x) in xs.iter().enumerate() {
        let y = diagrams.apply(alloc, op, *x, ys[i])?;
        all.push(y)?;
    }
    Ok(all)
}

/// Bit by bit the first number where `c` is true, else the second.
pub fn chosen(
    diagrams: &mut Diagrams,
    alloc: Global,
    c: DdId,
    xs: &[DdId],
    ys: &[DdId],
) -> Result<Vec<DdId>, AllocError>
    requires size { length xs.now ≡ length ys.now }
    requires c { c.0 < count diagrams.old }
    requires xs { All (λ x. x.0 < count diagrams.old) xs.now }
    requires ys { All (λ y. y.0 < count diagrams.old) ys.now }
    ensures extends { Extends diagrams.old diagrams.new }
    ensures below { IfOk result (λ r. All (λ x. x.0 < count diagrams.new) r.items) }
    ensures size { IfOk result (λ r. length r.items ≡ length xs.now) }
    ensures means { IfOk result (λ r. (reading : Reading) → Reads reading diagrams.new →
        bits_in reading r.items ≡ choices (reading.values c.0) (bits_in reading xs.now) (bits_in reading ys.now)) }
{
    let mut all = Vec::new(alloc);
    for (i, x) in xs.iter().enumerate() {
        let y = diagrams.ite(alloc, c, *x, ys[i])?;
        all.push(y)?;
    }
    Ok(all)
}

/// Where the two numbers are equal.
pub fn equal(
    diagrams: &mut Diagrams,
    alloc: Global,
    xs: &[DdId],
    ys: &[DdId],
) -> Result<DdId, AllocError>
    requires size { length xs.now ≡ length ys.now }
    requires xs { All (λ x. x.0 < count diagrams.old) xs.now }
    requires ys { All (λ y. y.0 < count diagrams.old) ys.now }
    ensures extends { Extends diagrams.old diagrams.new }
    ensures below { IfOk result (λ r. r.0 < count diagrams.new) }
    ensures means { IfOk result (λ r. Carries diagrams.new r.0 (λ reading.
        same_from true (bits_in reading xs.now) (bits_in reading ys.now))) }
{
    let mut same = diagrams.constant(true);
    for (i, x) in xs.iter().enumerate() {
        let differ = diagrams.apply(alloc, DdOp::Xor, *x, ys[i])?;
        let alike = opposite(diagrams, alloc, differ)?;
        same = diagrams.apply(alloc, DdOp::And, same, alike)?;
    }
    Ok(same)
}

/// The list of this bit alone.
pub fn single(alloc: Global, x: DdId) -> Result<Vec<DdId>, AllocError>
    ensures { IfOk result (λ r. r.items ≡ x ∷ []) }
{
    let mut all = Vec::new(alloc);
    all.push(x)?;
    Ok(all)
}

/// The lowest bit.
pub fn first(diagrams: &Diagrams, xs: &[DdId]) -> DdId
    requires some { 0 < length xs.now }
    requires xs { All (λ x. x.0 < count diagrams.now) xs.now }
    ensures below { result.0 < count diagrams.now }
    ensures means { (reading : Reading) → lowest (bits_in reading xs.now) ≡ reading.values result.0 }
{
    xs[0]
}
