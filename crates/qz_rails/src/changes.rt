//! Where two rails differ.

ghost use Rattle.std.specs.Prelude.{length, ◌≡◌, ◌<◌, ◌↔◌, IfOk, IsTrue, Bool, List, false};
ghost use Rattle.qz_dd.specs.Tables.{Reading, Reads, count, value_in, Extends, Carries};
ghost use Rattle.qz_rails.specs.Bits.{bits_in};
ghost use Rattle.qz_rails.specs.Rails.{IsRail};
ghost use Rattle.qz_rails.specs.Changes.{are_unlike, IsDifference, AreSame};

use crate::bits::{equal, opposite};
use crate::rail::Rail;
use qz_dd::{DdId, DdOp, Diagrams};
use qz_values::Ty;
use std::alloc::{AllocError, Global};

/// Where two rails of one type say different things.
pub fn differ(
    diagrams: &mut Diagrams,
    alloc: Global,
    ty: Ty,
    a: &Rail,
    b: &Rail,
) -> Result<DdId, AllocError>
    requires a { IsRail diagrams.old ty a.now }
    requires b { IsRail diagrams.old ty b.now }
    ensures extends { Extends diagrams.old diagrams.new }
    ensures below { IfOk result (λ r. r.0 < count diagrams.new) }
    ensures means { IfOk result (λ r. IsDifference diagrams.new ty a.now b.now r.0) }
{
    let unlike = unlike(diagrams, alloc, ty, a, b)?;
    let no_clash = opposite(diagrams, alloc, a.clash)?;
    let seen = diagrams.apply(alloc, DdOp::And, no_clash, unlike)?;
    let other_clash = diagrams.apply(alloc, DdOp::Xor, a.clash, b.clash)?;
    let r = diagrams.apply(alloc, DdOp::Or, other_clash, seen)?;
    Ok(r)
}

/// Where two rails differ in whether a value is known or, where it is, in the value. What they say
/// of a contradiction isn't looked at.
fn unlike(
    diagrams: &mut Diagrams,
    alloc: Global,
    ty: Ty,
    a: &Rail,
    b: &Rail,
) -> Result<DdId, AllocError>
    requires a { IsRail diagrams.old ty a.now }
    requires b { IsRail diagrams.old ty b.now }
    ensures extends { Extends diagrams.old diagrams.new }
    ensures below { IfOk result (λ r. r.0 < count diagrams.new) }
    ensures means { IfOk result (λ r. Carries diagrams.new r.0 (λ reading.
        are_unlike (reading.values a.now.known.0) (bits_in reading a.now.bits.items)
        (reading.values b.now.known.0) (bits_in reading b.now.bits.items))) }
{
    let same_bits = equal(diagrams, alloc, &a.bits, &b.bits)?;
    let other_bits = opposite(diagrams, alloc, same_bits)?;
    let other_value = diagrams.apply(alloc, DdOp::And, a.known, other_bits)?;
    let other_known = diagrams.apply(alloc, DdOp::Xor, a.known, b.known)?;
    let r = diagrams.apply(alloc, DdOp::Or, other_known, other_value)?;
    Ok(r)
}

/// Whether a function is false at every valuation.
pub fn is_nowhere(diagrams: &Diagrams, x: DdId) -> bool
    requires { x.0 < count diagrams.now }
    ensures { IsTrue result ↔ ((bits : List Bool) → length bits ≡ diagrams.now.vars → value_in diagrams.now x.0 bits ≡ false) }
{
    let never = diagrams.constant(false);
    diagrams.are_equal(x, never)
}

/// Whether two rails of one type say the same at each valuation at which `permitted` is true.
pub fn are_same(
    diagrams: &mut Diagrams,
    alloc: Global,
    ty: Ty,
    permitted: DdId,
    a: &Rail,
    b: &Rail,
) -> Result<bool, AllocError>
    requires permitted { permitted.0 < count diagrams.old }
    requires a { IsRail diagrams.old ty a.now }
    requires b { IsRail diagrams.old ty b.now }
    ensures extends { Extends diagrams.old diagrams.new }
    ensures same { IfOk result (λ r. IsTrue r ↔ AreSame diagrams.new ty permitted.0 a.now b.now) }
{
    let difference = differ(diagrams, alloc, ty, a, b)?;
    let there = diagrams.apply(alloc, DdOp::And, permitted, difference)?;
    let r = is_nowhere(diagrams, there);
    Ok(r)
}
