//! Where the result of an operator with two operands is known, be it that one of them decides alone.

ghost use Rattle.std.specs.Prelude.{length, ◌≡◌, ◌<◌, IfOk, Bool, ◌&&◌, ◌||◌};
ghost use Rattle.qz_dd.specs.Tables.{Reading, Reads, count, Extends, Carries};
ghost use Rattle.qz_values.specs.Types.{IsType};
ghost use Rattle.qz_rails.specs.Bits.{bits_in, lowest};
ghost use Rattle.qz_rails.specs.Operators.{is_early, left_bit, right_bit, known_early, known_by};
ghost use Rattle.qz_rails.specs.Rails.{IsRail};

use crate::bits::{first, opposite};
use crate::rail::Rail;
use qz_dd::{DdId, DdOp, Diagrams};
use qz_values::{Op2, Ty};
use std::alloc::{AllocError, Global};

/// Where the result is known, unless an operand's writers contradict one another.
pub fn where_known(
    diagrams: &mut Diagrams,
    alloc: Global,
    op: Op2,
    ty: Ty,
    a: &Rail,
    b: &Rail,
) -> Result<DdId, AllocError>
    requires ty { IsType ty }
    requires a { IsRail diagrams.old ty a.now }
    requires b { IsRail diagrams.old ty b.now }
    ensures extends { Extends diagrams.old diagrams.new }
    ensures below { IfOk result (λ r. r.0 < count diagrams.new) }
    ensures means { IfOk result (λ r. Carries diagrams.new r.0 (λ reading. known_by op ty
        (reading.values a.now.known.0) (bits_in reading a.now.bits.items)
        (reading.values b.now.known.0) (bits_in reading b.now.bits.items))) }
{
    if may_decide(op, ty) {
        known_soon(diagrams, alloc, op, ty, a, b)
    } else {
        diagrams.apply(alloc, DdOp::And, a.known, b.known)
    }
}

/// Whether one operand of these may decide alone.
fn may_decide(op: Op2, ty: Ty) -> bool
    ensures { result ≡ is_early op ty }
{
    match op {
        Op2::And | Op2::Or | Op2::Imp => ty == Ty::Bool,
        _ => false,
    }
}

/// Where both operands are known, or one of them decides alone.
fn known_soon(
    diagrams: &mut Diagrams,
    alloc: Global,
    op: Op2,
    ty: Ty,
    a: &Rail,
    b: &Rail,
) -> Result<DdId, AllocError>
    requires ty { IsType ty }
    requires a { IsRail diagrams.old ty a.now }
    requires b { IsRail diagrams.old ty b.now }
    ensures extends { Extends diagrams.old diagrams.new }
    ensures below { IfOk result (λ r. r.0 < count diagrams.new) }
    ensures means { IfOk result (λ r. Carries diagrams.new r.0 (λ reading. known_early op
        (reading.values a.now.known.0) (lowest (bits_in reading a.now.bits.items))
        (reading.values b.now.known.0) (lowest (bits_in reading b.now.bits.items)))) }
{
    let x = first(diagrams, &a.bits);
    let y = first(diagrams, &b.bits);
    let both = diagrams.apply(alloc, DdOp::And, a.known, b.known)?;
    let left = decided_left(diagrams, alloc, op, a.known, x)?;
    let right = decided_right(diagrams, alloc, op, b.known, y)?;
    let either = diagrams.apply(alloc, DdOp::Or, left, right)?;
    let known = diagrams.apply(alloc, DdOp::Or, both, either)?;
    Ok(known)
}

/// Where the left operand is known and decides alone: `false` of `&` and of `->`, `true` of `|`.
fn decided_left(
    diagrams: &mut Diagrams,
    alloc: Global,
    op: Op2,
    known: DdId,
    x: DdId,
) -> Result<DdId, AllocError>
    requires known { known.0 < count diagrams.old }
    requires x { x.0 < count diagrams.old }
    ensures extends { Extends diagrams.old diagrams.new }
    ensures below { IfOk result (λ r. r.0 < count diagrams.new) }
    ensures means { IfOk result (λ r. Carries diagrams.new r.0 (λ reading.
        reading.values known.0 && left_bit op (reading.values x.0))) }
{
    match op {
        Op2::Or => diagrams.apply(alloc, DdOp::And, known, x),
        _ => {
            let off = opposite(diagrams, alloc, x)?;
            let r = diagrams.apply(alloc, DdOp::And, known, off)?;
            Ok(r)
        }
    }
}

/// Where the right operand is known and decides alone: `false` of `&`, `true` of `|` and of `->`.
fn decided_right(
    diagrams: &mut Diagrams,
    alloc: Global,
    op: Op2,
    known: DdId,
    y: DdId,
) -> Result<DdId, AllocError>
    requires known { known.0 < count diagrams.old }
    requires y { y.0 < count diagrams.old }
    ensures extends { Extends diagrams.old diagrams.new }
    ensures below { IfOk result (λ r. r.0 < count diagrams.new) }
    ensures means { IfOk result (λ r. Carries diagrams.new r.0 (λ reading.
        reading.values known.0 && right_bit op (reading.values y.0))) }
{
    match op {
        Op2::And => {
            let off = opposite(diagrams, alloc, y)?;
            let r = diagrams.apply(alloc, DdOp::And, known, off)?;
            Ok(r)
        }
        _ => diagrams.apply(alloc, DdOp::And, known, y),
    }
}
