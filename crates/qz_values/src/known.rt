//! The operators on knowledge.

ghost use Rattle.std.specs.Prelude.{◌≡◌};
ghost use Rattle.qz_values.specs.Fits.{Fits1, Fits2, FitsChoose, FitsBit, FitsSlice, FitsConcat};
ghost use Rattle.qz_values.specs.Knowledge.{apply1_of, apply2_of, choose_of, bit_of, slice_of, concat_of, knows_yes, knows_no, left_decides, right_decides, decided};

use crate::words::{bit_at, bits_between, is_false, is_true, joined, of_one, of_two};
use crate::{Know, Op1, Op2, Value};

/// What is known of an operator's result. A known operand is of a type that the operator takes.
pub fn apply1(op: Op1, a: Know) -> Know
    requires { Fits1 op a }
    ensures { result ≡ apply1_of op a }
{
    match a {
        Know::Unknown => Know::Unknown,
        Know::Known(v) => Know::Known(of_one(op, v)),
        Know::Clash => Know::Clash,
    }
}

/// What is known of an operator's result. Known operands are of types that the operator takes, and
/// two of them are of one type. A bool `&` with an operand `false` is `false`, a bool `|` with an
/// operand `true` is `true`, and `->` is `true` where the left one is `false` or the right one is
/// `true`, even while the other one is unknown.
pub fn apply2(op: Op2, a: Know, b: Know) -> Know
    requires { Fits2 op a b }
    ensures { result ≡ apply2_of op a b }
{
    match a {
        Know::Clash => Know::Clash,
        Know::Unknown => match b {
            Know::Clash => Know::Clash,
            Know::Known(_) if decides_right(op, b) => Know::Known(decision(op)),
            Know::Known(_) | Know::Unknown => Know::Unknown,
        },
        Know::Known(v) => match b {
            Know::Clash => Know::Clash,
            Know::Unknown if decides_left(op, a) => Know::Known(decision(op)),
            Know::Unknown => Know::Unknown,
            Know::Known(w) => {
                if decides_left(op, a) || decides_right(op, b) {
                    Know::Known(decision(op))
                } else {
                    Know::Known(of_two(op, v, w))
                }
            }
        },
    }
}

/// What is known of `c ? a : b`: the knowledge of the side that a known `c` chooses, whatever is
/// known of the other. A known `c` is a bool, and known sides are of one type.
pub fn choose(c: Know, a: Know, b: Know) -> Know
    requires { FitsChoose c a b }
    ensures { result ≡ choose_of c a b }
{
    match c {
        Know::Unknown => Know::Unknown,
        Know::Known(v) if is_true(v) => a,
        Know::Known(_) => b,
        Know::Clash => Know::Clash,
    }
}

/// What is known of bit `i`, of which bit 0 is the lowest, as a bool. A known operand is a vector
/// with more than `i` bits.
pub fn bit(a: Know, i: u8) -> Know
    requires { FitsBit a i }
    ensures { result ≡ bit_of a i }
{
    match a {
        Know::Unknown => Know::Unknown,
        Know::Known(v) => Know::Known(bit_at(v, i)),
        Know::Clash => Know::Clash,
    }
}

/// What is known of the bits from `low` to `high`, both of them included, as a vector. A known
/// operand is a vector with more than `high` bits, and `low` is at most `high`.
pub fn slice(a: Know, high: u8, low: u8) -> Know
    requires { FitsSlice a high low }
    ensures { result ≡ slice_of a high low }
{
    match a {
        Know::Unknown => Know::Unknown,
        Know::Known(v) => Know::Known(bits_between(v, high, low)),
        Know::Clash => Know::Clash,
    }
}

/// What is known of `a @ b`, the bits of `a` above those of `b`. Known operands are vectors, two of
/// them with at most 64 bits together.
pub fn concat(a: Know, b: Know) -> Know
    requires { FitsConcat a b }
    ensures { result ≡ concat_of a b }
{
    match a {
        Know::Clash => Know::Clash,
        Know::Unknown => match b {
            Know::Clash => Know::Clash,
            Know::Known(_) | Know::Unknown => Know::Unknown,
        },
        Know::Known(v) => match b {
            Know::Clash => Know::Clash,
            Know::Unknown => Know::Unknown,
            Know::Known(w) => Know::Known(joined(v, w)),
        },
    }
}

/// Whether the left operand alone decides what a bool operator gives.
fn decides_left(op: Op2, a: Know) -> bool
    ensures { result ≡ left_decides op a }
{
    match op {
        Op2::And | Op2::Imp => is_known_false(a),
        Op2::Or => is_known_true(a),
        _ => false,
    }
}

/// Whether the right operand alone decides what a bool operator gives.
fn decides_right(op: Op2, b: Know) -> bool
    ensures { result ≡ right_decides op b }
{
    match op {
        Op2::And => is_known_false(b),
        Op2::Or | Op2::Imp => is_known_true(b),
        _ => false,
    }
}

/// What an operator gives where one operand decides alone.
fn decision(op: Op2) -> Value
    ensures { result ≡ decided op }
{
    match op {
        Op2::And => Value::truth(false),
        _ => Value::truth(true),
    }
}

fn is_known_true(a: Know) -> bool
    ensures { result ≡ knows_yes a }
{
    match a {
        Know::Known(v) => is_true(v),
        Know::Unknown | Know::Clash => false,
    }
}

fn is_known_false(a: Know) -> bool
    ensures { result ≡ knows_no a }
{
    match a {
        Know::Known(v) => is_false(v),
        Know::Unknown | Know::Clash => false,
    }
}
