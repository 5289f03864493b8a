//! The operators on rails: at every valuation what the operator on knowledge gives.

ghost use Rattle.std.specs.Prelude.{length, true, not, ◌≡◌, ◌<◌, IfOk, IsTrue};
ghost use Rattle.std.specs.List.{All};
ghost use Rattle.qz_dd.specs.Tables.{Reading, Reads, count, Extends, Carries};
ghost use Rattle.qz_values.specs.declared.Ty.TheVariants.{Bool as Truth};
ghost use Rattle.qz_values.specs.Types.{IsType, width_of};
ghost use Rattle.qz_values.specs.Tables.{takes1, takes2, gives2};
ghost use Rattle.qz_values.specs.Knowledge.{apply1_of, apply2_of, choose_of};
ghost use Rattle.qz_rails.specs.Bits.{bits_in, same_from};
ghost use Rattle.qz_values.specs.declared.Op2.TheVariants.{Imp, Sub};
ghost use Rattle.qz_rails.specs.Operators.{bits2};
ghost use Rattle.qz_rails.specs.Rails.{IsRail, CarriesKnow, know_in};

use crate::bits::{chosen, each, equal, first, inverted, opposite, single};
use crate::early::where_known;
use crate::rail::Rail;
use crate::sums::{less, sum};
use qz_dd::{DdId, DdOp, Diagrams};
use qz_values::{Op1, Op2, Ty};
use std::alloc::{AllocError, Global};

/// The rail of what an operator gives of one operand of this type, which the operator takes. `!` and
/// `~` both invert each bit.
pub fn apply1(
    diagrams: &mut Diagrams,
    alloc: Global,
    op: Op1,
    ty: Ty,
    a: &Rail,
) -> Result<Rail, AllocError>
    requires takes { IsTrue (takes1 op ty) }
    requires a { IsRail diagrams.old ty a.now }
    ensures extends { Extends diagrams.old diagrams.new }
    ensures rail { IfOk result (λ r. IsRail diagrams.new ty r) }
    ensures means { IfOk result (λ r. CarriesKnow diagrams.new ty r (λ reading. apply1_of op (know_in reading ty a.now))) }
{
    let bits = inverted(diagrams, alloc, &a.bits)?;
    Ok(Rail {
        clash: a.clash,
        known: a.known,
        bits,
    })
}

/// The rail of what an operator gives of two operands of this type, which the operator takes.
pub fn apply2(
    diagrams: &mut Diagrams,
    alloc: Global,
    op: Op2,
    ty: Ty,
    a: &Rail,
    b: &Rail,
) -> Result<Rail, AllocError>
    requires takes { IsTrue (takes2 op ty) }
    requires ty { IsType ty }
    requires a { IsRail diagrams.old ty a.now }
    requires b { IsRail diagrams.old ty b.now }
    ensures extends { Extends diagrams.old diagrams.new }
    ensures rail { IfOk result (λ r. IsRail diagrams.new (gives2 op ty) r) }
    ensures means { IfOk result (λ r. CarriesKnow diagrams.new (gives2 op ty) r (λ reading.
        apply2_of op (know_in reading ty a.now) (know_in reading ty b.now))) }
{
    let clash = diagrams.apply(alloc, DdOp::Or, a.clash, b.clash)?;
    let known = where_known(diagrams, alloc, op, ty, a, b)?;
    let bits = given_bits(diagrams, alloc, op, ty, &a.bits, &b.bits)?;
    Ok(Rail { clash, known, bits })
}

/// The rail of `c ? a : b`, of a bool and two sides of this type.
pub fn choose(
    diagrams: &mut Diagrams,
    alloc: Global,
    ty: Ty,
    c: &Rail,
    a: &Rail,
    b: &Rail,
) -> Result<Rail, AllocError>
    requires c { IsRail diagrams.old Truth c.now }
    requires a { IsRail diagrams.old ty a.now }
    requires b { IsRail diagrams.old ty b.now }
    ensures extends { Extends diagrams.old diagrams.new }
    ensures rail { IfOk result (λ r. IsRail diagrams.new ty r) }
    ensures means { IfOk result (λ r. CarriesKnow diagrams.new ty r (λ reading.
        choose_of (know_in reading Truth c.now) (know_in reading ty a.now) (know_in reading ty b.now))) }
{
    let side = first(diagrams, &c.bits);
    let clash_there = diagrams.ite(alloc, side, a.clash, b.clash)?;
    let chosen_clash = diagrams.apply(alloc, DdOp::And, c.known, clash_there)?;
    let clash = diagrams.apply(alloc, DdOp::Or, c.clash, chosen_clash)?;
    let known_there = diagrams.ite(alloc, side, a.known, b.known)?;
    let known = diagrams.apply(alloc, DdOp::And, c.known, known_there)?;
    let bits = chosen(diagrams, alloc, side, &a.bits, &b.bits)?;
    Ok(Rail { clash, known, bits })
}

/// The bits of what an operator gives of two values.
fn given_bits(
    diagrams: &mut Diagrams,
    alloc: Global,
    op: Op2,
    ty: Ty,
    xs: &[DdId],
    ys: &[DdId],
) -> Result<Vec<DdId>, AllocError>
    requires takes { IsTrue (takes2 op ty) }
    requires wide_x { length xs.now ≡ width_of ty }
    requires wide_y { length ys.now ≡ width_of ty }
    requires xs { All (λ x. x.0 < count diagrams.old) xs.now }
    requires ys { All (λ y. y.0 < count diagrams.old) ys.now }
    ensures extends { Extends diagrams.old diagrams.new }
    ensures below { IfOk result (λ r. All (λ x. x.0 < count diagrams.new) r.items) }
    ensures size { IfOk result (λ r. length r.items ≡ width_of (gives2 op ty)) }
    ensures means { IfOk result (λ r. (reading : Reading) → Reads reading diagrams.new →
        bits_in reading r.items ≡ bits2 op (bits_in reading xs.now) (bits_in reading ys.now)) }
{
    match op {
        Op2::And => each(diagrams, alloc, DdOp::And, xs, ys),
        Op2::Or => each(diagrams, alloc, DdOp::Or, xs, ys),
        Op2::Xor => each(diagrams, alloc, DdOp::Xor, xs, ys),
        Op2::Imp => implied(diagrams, alloc, xs, ys),
        Op2::Add => sum(diagrams, alloc, false, xs, ys),
        Op2::Sub => difference(diagrams, alloc, xs, ys),
        Op2::Eq => single(alloc, equal(diagrams, alloc, xs, ys)?),
        Op2::Ne => single(alloc, unequal(diagrams, alloc, xs, ys)?),
        Op2::Lt => single(alloc, less(diagrams, alloc, false, xs, ys)?),
        Op2::Le => single(alloc, less(diagrams, alloc, true, xs, ys)?),
        Op2::Gt => single(alloc, less(diagrams, alloc, false, ys, xs)?),
        Op2::Ge => single(alloc, less(diagrams, alloc, true, ys, xs)?),
    }
}

/// The bits of `x -> y`, that is of `!x | y`.
fn implied(
    diagrams: &mut Diagrams,
    alloc: Global,
    xs: &[DdId],
    ys: &[DdId],
) -> Result<Vec<DdId>, AllocError>
    requires size { length xs.now ≡ length ys.now }
    requires xs { All (λ x. x.0 < count diagrams.old) xs.now }
    requires ys { All (λ y. y.0 < count diagrams.old) ys.now }
    ensures extends { Extends diagrams.old diagrams.new }
    ensures below { IfOk result (λ r. All (λ x. x.0 < count diagrams.new) r.items) }
    ensures size { IfOk result (λ r. length r.items ≡ length xs.now) }
    ensures means { IfOk result (λ r. (reading : Reading) → Reads reading diagrams.new →
        bits_in reading r.items ≡ bits2 Imp (bits_in reading xs.now) (bits_in reading ys.now)) }
{
    let opposites = inverted(diagrams, alloc, xs)?;
    let all = each(diagrams, alloc, DdOp::Or, &opposites, ys)?;
    Ok(all)
}

/// The bits of `x - y`, that is of the sum of `x`, of `y` inverted and of 1.
fn difference(
    diagrams: &mut Diagrams,
    alloc: Global,
    xs: &[DdId],
    ys: &[DdId],
) -> Result<Vec<DdId>, AllocError>
    requires size { length xs.now ≡ length ys.now }
    requires xs { All (λ x. x.0 < count diagrams.old) xs.now }
    requires ys { All (λ y. y.0 < count diagrams.old) ys.now }
    ensures extends { Extends diagrams.old diagrams.new }
    ensures below { IfOk result (λ r. All (λ x. x.0 < count diagrams.new) r.items) }
    ensures size { IfOk result (λ r. length r.items ≡ length xs.now) }
    ensures means { IfOk result (λ r. (reading : Reading) → Reads reading diagrams.new →
        bits_in reading r.items ≡ bits2 Sub (bits_in reading xs.now) (bits_in reading ys.now)) }
{
    let opposites = inverted(diagrams, alloc, ys)?;
    let all = sum(diagrams, alloc, true, xs, &opposites)?;
    Ok(all)
}

/// Where the two numbers are not equal.
fn unequal(
    diagrams: &mut Diagrams,
    alloc: Global,
    xs: &[DdId],
    ys: &[DdId],
) -> Result<DdId, AllocError>
    requires size { length xs.now ≡ length ys.now }
    requires xs { All (λ x. x.0 < count diagrams.old) xs.now }
    requires ys { All (λ y. y.0 < count diagrams.old) ys.now }
    ensures extends { Extends diagrams.old diagrams.new }
    ensures below { IfOk result (λ r. r.0 < count diagrams.new) }
    ensures means { IfOk result (λ r. Carries diagrams.new r.0 (λ reading.
        not (same_from true (bits_in reading xs.now) (bits_in reading ys.now)))) }
{
    let same = equal(diagrams, alloc, xs, ys)?;
    let r = opposite(diagrams, alloc, same)?;
    Ok(r)
}
