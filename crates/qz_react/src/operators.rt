//! The operators on knowledge, where it isn't known that their operands have the types that they
//! must have: others are refused.

ghost use Rattle.std.specs.Prelude.{◌≡◌, ◌<◌, ◌≤◌, ◌&&◌, IsTrue, IfOk};
ghost use Rattle.qz_values.specs.Values.{yes, no};
ghost use Rattle.qz_values.specs.Types.{width_of, is_vector};
ghost use Rattle.qz_values.specs.Tables.{has_room};
ghost use Rattle.qz_values.specs.Knowledge.{apply1_of, apply2_of, choose_of, bit_of, slice_of, concat_of, both, either, opposite, knows_yes};
ghost use Rattle.qz_values.specs.Fits.{Fits1, Fits2, FitsChoose, FitsBit, FitsSlice, FitsConcat};

use qz_values::{
    Know, Op1, Op2, Ty, Value, apply1, apply2, bit, choose, concat, slice, type1, type2,
};
use std::alloc::AllocError;

/// Known to be `true`.
pub fn yes() -> Know
    ensures { result ≡ Know.Known yes }
{
    Know::Known(Value::truth(true))
}

/// Known to be `false`.
pub fn no() -> Know
    ensures { result ≡ Know.Known no }
{
    Know::Known(Value::truth(false))
}

/// `a & b`
pub fn and(a: Know, b: Know) -> Result<Know, AllocError>
    ensures { IfOk result (λ k. k ≡ both a b) }
{
    binary(Op2::And, a, b)
}

/// `a | b`
pub fn or(a: Know, b: Know) -> Result<Know, AllocError>
    ensures { IfOk result (λ k. k ≡ either a b) }
{
    binary(Op2::Or, a, b)
}

/// `!a`
pub fn not(a: Know) -> Result<Know, AllocError>
    ensures { IfOk result (λ k. k ≡ opposite a) }
{
    unary(Op1::Not, a)
}

/// Whether it is known to be `true`.
pub fn holds(k: Know) -> bool
    ensures { result ≡ knows_yes k }
{
    match k {
        Know::Known(v) => v.ty() == Ty::Bool && v.bits() == 1,
        Know::Unknown | Know::Clash => false,
    }
}

/// An operator with one operand.
pub fn unary(op: Op1, a: Know) -> Result<Know, AllocError>
    ensures { IfOk result (λ k. k ≡ apply1_of op a) }
{
    if fits1(op, a) {
        Ok(apply1(op, a))
    } else {
        Err(AllocError)
    }
}

/// An operator with two operands.
pub fn binary(op: Op2, a: Know, b: Know) -> Result<Know, AllocError>
    ensures { IfOk result (λ k. k ≡ apply2_of op a b) }
{
    if fits2(op, a, b) {
        Ok(apply2(op, a, b))
    } else {
        Err(AllocError)
    }
}

/// `c ? a : b`
pub fn chosen(c: Know, a: Know, b: Know) -> Result<Know, AllocError>
    ensures { IfOk result (λ k. k ≡ choose_of c a b) }
{
    if fits1(Op1::Not, c) && fits2(Op2::Eq, a, b) {
        Ok(choose(c, a, b))
    } else {
        Err(AllocError)
    }
}

fn fits1(op: Op1, a: Know) -> bool
    ensures { IsTrue result → Fits1 op a }
{
    match a {
        Know::Known(v) => type1(op, v.ty()).is_some(),
        Know::Unknown | Know::Clash => true,
    }
}

fn fits2(op: Op2, a: Know, b: Know) -> bool
    ensures { IsTrue result → Fits2 op a b }
{
    match a {
        Know::Known(v) => match b {
            Know::Known(w) => type2(op, v.ty(), w.ty()).is_some(),
            Know::Unknown | Know::Clash => type2(op, v.ty(), v.ty()).is_some(),
        },
        Know::Unknown | Know::Clash => match b {
            Know::Known(w) => type2(op, w.ty(), w.ty()).is_some(),
            Know::Unknown | Know::Clash => true,
        },
    }
}

/// Bit `i`, of which bit 0 is the lowest.
pub fn bit_in(a: Know, i: u8) -> Result<Know, AllocError>
    ensures { IfOk result (λ k. k ≡ bit_of a i) }
{
    if fits_bit(a, i) {
        Ok(bit(a, i))
    } else {
        Err(AllocError)
    }
}

/// The bits from `low` to `high`.
pub fn slice_in(a: Know, high: u8, low: u8) -> Result<Know, AllocError>
    ensures { IfOk result (λ k. k ≡ slice_of a high low) }
{
    if low <= high && fits_bit(a, high) {
        Ok(slice(a, high, low))
    } else {
        Err(AllocError)
    }
}

/// `a @ b`
pub fn joined(a: Know, b: Know) -> Result<Know, AllocError>
    ensures { IfOk result (λ k. k ≡ concat_of a b) }
{
    if fits_concat(a, b) {
        Ok(concat(a, b))
    } else {
        Err(AllocError)
    }
}

/// Whether a known operand is a vector with more than `i` bits.
fn fits_bit(a: Know, i: u8) -> bool
    ensures { IsTrue result → FitsBit a i }
{
    match a {
        Know::Known(v) => i < width(v.ty()),
        Know::Unknown | Know::Clash => true,
    }
}

/// Whether known operands are vectors that have room in one.
fn fits_concat(a: Know, b: Know) -> bool
    ensures { IsTrue result → FitsConcat a b }
{
    match a {
        Know::Known(v) => match b {
            Know::Known(w) => has_room(v.ty(), w.ty()),
            Know::Unknown | Know::Clash => 0 < width(v.ty()),
        },
        Know::Unknown | Know::Clash => match b {
            Know::Known(w) => 0 < width(w.ty()),
            Know::Unknown | Know::Clash => true,
        },
    }
}

/// The width of a vector type that there is, and 0 for every other type.
fn width(ty: Ty) -> u8
    ensures vector { 0 < result → IsTrue (is_vector ty) }
    ensures wide { 0 < result → width_of ty ≡ result }
    ensures limit { result ≤ 64 }
{
    match ty {
        Ty::Bv(w) if w <= 64 => w,
        Ty::Bv(_) | Ty::Bool => 0,
    }
}

/// Whether two types are vectors that have room in one.
fn has_room(a: Ty, b: Ty) -> bool
    ensures vectors { IsTrue result → IsTrue (is_vector a && is_vector b) }
    ensures room { IsTrue result → IsTrue (has_room a b) }
{
    let low = width(b);
    if low == 0 {
        return false;
    }
    let high = width(a);
    if high == 0 {
        return false;
    }
    high + low <= 64
}
