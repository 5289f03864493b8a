//! What the operators compute of values whose types are right, in machine words.

ghost use Rattle.std.specs.Prelude.{◌≡◌, ℕ, ◌+◌, ◌-◌, ◌≤◌, ◌<◌, ◌^◌, IsTrue};
ghost use Rattle.qz_values.specs.Types.{width_of, IsType, is_vector, is_same_type};
ghost use Rattle.qz_values.specs.Values.{type_of, wrapped, is_yes, is_no};
ghost use Rattle.qz_values.specs.Tables.{takes1, takes2, has_bit, has_slice, has_room};
ghost use Rattle.qz_values.specs.Operators.{value1, value2, value_bit, value_slice, value_concat};

use crate::{Op1, Op2, Ty, Value};

/// How many bits a value of the type has.
pub fn width(ty: Ty) -> u8
    ensures { result ≡ width_of ty }
{
    match ty {
        Ty::Bool => 1,
        Ty::Bv(w) => w,
    }
}

/// The largest number of `width` bits, 1 to 64.
pub fn ones(width: u8) -> u64
    requires at_least_1 { 1 ≤ width }
    requires at_most_64 { width ≤ 64 }
    ensures { result ≡ 2 ^ width - 1 }
{
    u64::MAX >> (64 - width)
}

/// The value of the low bits of `n`, as many as the type has.
pub fn cut(ty: Ty, n: u64) -> Value
    requires { IsType ty }
    ensures { result ≡ wrapped ty n }
{
    Value {
        ty,
        bits: n & ones(width(ty)),
    }
}

/// Whether it is the bool `true`.
pub fn is_true(v: Value) -> bool
    ensures { result ≡ is_yes v }
{
    match v.ty {
        Ty::Bool => v.bits == 1,
        Ty::Bv(_) => false,
    }
}

/// Whether it is the bool `false`.
pub fn is_false(v: Value) -> bool
    ensures { result ≡ is_no v }
{
    match v.ty {
        Ty::Bool => v.bits == 0,
        Ty::Bv(_) => false,
    }
}

/// An operator's result of one value.
pub fn of_one(op: Op1, v: Value) -> Value
    requires { IsTrue (takes1 op (type_of v)) }
    ensures { result ≡ value1 op v }
{
    match op {
        Op1::Not => Value::truth(v.bits == 0),
        Op1::Invert => cut(v.ty, !v.bits),
    }
}

/// An operator's result of two values of one type.
pub fn of_two(op: Op2, v: Value, w: Value) -> Value
    requires taken { IsTrue (takes2 op (type_of v)) }
    requires alike { IsTrue (is_same_type (type_of v) (type_of w)) }
    ensures { result ≡ value2 op v w }
{
    match op {
        Op2::And => cut(v.ty, v.bits & w.bits),
        Op2::Or => cut(v.ty, v.bits | w.bits),
        Op2::Xor => cut(v.ty, v.bits ^ w.bits),
        Op2::Imp => Value::truth(is_false(v) || is_true(w)),
        Op2::Add => cut(v.ty, v.bits.wrapping_add(w.bits)),
        Op2::Sub => cut(v.ty, v.bits.wrapping_sub(w.bits)),
        Op2::Eq => Value::truth(v.bits == w.bits),
        Op2::Ne => Value::truth(v.bits != w.bits),
        Op2::Lt => Value::truth(v.bits < w.bits),
        Op2::Le => Value::truth(v.bits <= w.bits),
        Op2::Gt => Value::truth(v.bits > w.bits),
        Op2::Ge => Value::truth(v.bits >= w.bits),
    }
}

/// Bit `i` of a vector, bit 0 being the lowest.
pub fn bit_at(v: Value, i: u8) -> Value
    requires { IsTrue (has_bit i (type_of v)) }
    ensures { result ≡ value_bit v i }
{
    cut(Ty::Bool, v.bits >> i)
}

/// The bits of a vector from `low` to `high`, both of them included.
pub fn bits_between(v: Value, high: u8, low: u8) -> Value
    requires { IsTrue (has_slice high low (type_of v)) }
    ensures { result ≡ value_slice v high low }
{
    cut(Ty::Bv(high - low + 1), v.bits >> low)
}

/// The bits of `v` above those of `w`.
pub fn joined(v: Value, w: Value) -> Value
    requires left { IsTrue (is_vector (type_of v)) }
    requires right { IsTrue (is_vector (type_of w)) }
    requires room { IsTrue (has_room (type_of v) (type_of w)) }
    ensures { result ≡ value_concat v w }
{
    let low = width(w.ty);
    cut(
        Ty::Bv(width(v.ty) + low),
        (v.bits << low).wrapping_add(w.bits),
    )
}
