//! Which operands the operators, choices and selections take, and the types of their results.

ghost use Rattle.std.specs.Prelude.{◌≡◌};
ghost use Rattle.qz_values.specs.Types.{is_type, is_vector, is_same_type};
ghost use Rattle.qz_values.specs.Tables.{type1_of, type2_of, takes2, gives2, choose_type, bit_type, slice_type, concat_type, has_bit, has_slice};

use crate::words::width;
use crate::{Op1, Op2, Ty};

/// The type of what an operator with one operand gives. `None` where it takes no operand of this
/// type, or where this is no type, its width being outside 1 to 64.
pub fn type1(op: Op1, a: Ty) -> Option<Ty>
    ensures { result ≡ type1_of op a }
{
    let taken = match op {
        Op1::Not => a == Ty::Bool,
        Op1::Invert => is_vector(a),
    };
    if taken { Some(a) } else { None }
}

/// The type of what an operator with two operands gives. `None` where it takes no operands of these
/// types, or where one of them is no type, its width being outside 1 to 64.
pub fn type2(op: Op2, a: Ty, b: Ty) -> Option<Ty>
    ensures { result ≡ type2_of op a b }
{
    if is_same_type(a, b) && takes(op, a) {
        Some(gives(op, a))
    } else {
        None
    }
}

/// The type of `c ? a : b`, whose sides are of one type. `None` where there is no such choice.
pub fn choose_type(c: Ty, a: Ty, b: Ty) -> Option<Ty>
    ensures { result ≡ choose_type c a b }
{
    let chooses = match c {
        Ty::Bool => is_same_type(a, b) && is_type(a),
        Ty::Bv(_) => false,
    };
    if chooses { Some(a) } else { None }
}

/// The type of bit `i` of a vector. `None` where it has no such bit.
pub fn bit_type(a: Ty, i: u8) -> Option<Ty>
    ensures { result ≡ bit_type a i }
{
    if is_vector(a) && i < width(a) {
        Some(Ty::Bool)
    } else {
        None
    }
}

/// The type of the bits of a vector from `low` to `high`. `None` where it has no such bits.
pub fn slice_type(a: Ty, high: u8, low: u8) -> Option<Ty>
    ensures { result ≡ slice_type a high low }
{
    if is_vector(a) && low <= high && high < width(a) {
        Some(Ty::Bv(high - low + 1))
    } else {
        None
    }
}

/// The type of two vectors joined. `None` where one is no vector, or where they have more than 64
/// bits together.
pub fn concat_type(a: Ty, b: Ty) -> Option<Ty>
    ensures { result ≡ concat_type a b }
{
    if is_vector(a) && is_vector(b) && width(a) <= 64 - width(b) {
        Some(Ty::Bv(width(a) + width(b)))
    } else {
        None
    }
}

/// Whether there is such a type, its width being from 1 to 64.
pub fn is_type(ty: Ty) -> bool
    ensures { result ≡ is_type ty }
{
    let width = width(ty);
    1 <= width && width <= 64
}

/// Whether it is a vector type that there is.
fn is_vector(ty: Ty) -> bool
    ensures { result ≡ is_vector ty }
{
    match ty {
        Ty::Bool => false,
        Ty::Bv(_) => is_type(ty),
    }
}

/// Whether two types are one.
pub fn is_same_type(a: Ty, b: Ty) -> bool
    ensures { result ≡ is_same_type a b }
{
    a == b
}

/// Whether an operator takes two operands of this type.
fn takes(op: Op2, ty: Ty) -> bool
    ensures { result ≡ takes2 op ty }
{
    match op {
        Op2::And | Op2::Or | Op2::Xor | Op2::Eq | Op2::Ne => is_type(ty),
        Op2::Imp => is_same_type(ty, Ty::Bool),
        Op2::Add | Op2::Sub | Op2::Lt | Op2::Le | Op2::Gt | Op2::Ge => is_vector(ty),
    }
}

/// The type of what an operator gives of two operands of this type.
fn gives(op: Op2, ty: Ty) -> Ty
    ensures { result ≡ gives2 op ty }
{
    match op {
        Op2::And | Op2::Or | Op2::Xor | Op2::Add | Op2::Sub => ty,
        Op2::Imp | Op2::Eq | Op2::Ne | Op2::Lt | Op2::Le | Op2::Gt | Op2::Ge => Ty::Bool,
    }
}
