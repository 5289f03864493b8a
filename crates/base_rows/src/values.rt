//! Tables of what the operators give, worked out by hand.

ghost use Rattle.std.specs.Prelude.{◌≡◌};
ghost use Rattle.qz_values.specs.Fits.{HasType};

use qz_values::{
    Know, Op1, Op2, Ty, Value, apply1, apply2, bit, choose, concat, operators_are_monotone,
    operators_keep_types, order_is_partial, slice, type1, type2,
};
use std::test::Fail;

const MAX: u64 = u64::MAX;

const TOP: u64 = 1 << 63;

/// What an operator gives of two known values of one type, if it takes them.
fn of_pair(op: Op2, ty: Ty, a: u64, b: u64) -> Option<Know> {
    let v = Value::new(ty, a)?;
    let w = Value::new(ty, b)?;
    let _result = type2(op, ty, ty)?;
    Some(apply2(op, Know::Known(v), Know::Known(w)))
}

#[test]
fn both_operands_known(rt: HostRuntime) {
    let byte = Ty::Bv(8);
    let word = Ty::Bv(64);
    let digit = Ty::Bv(1);
    let table = [
        (Op2::Add, word, MAX, 1, word, 0),
        (Op2::Add, byte, 200, 100, byte, 44),
        (Op2::Add, digit, 1, 1, digit, 0),
        (Op2::Sub, word, 0, 1, word, MAX),
        (Op2::Sub, byte, 3, 5, byte, 254),
        (Op2::And, byte, 0x0f, 0x3c, byte, 0x0c),
        (Op2::Or, byte, 0x0f, 0x30, byte, 0x3f),
        (Op2::Xor, Ty::Bool, 1, 1, Ty::Bool, 0),
        (Op2::Xor, word, MAX, TOP, word, TOP - 1),
        (Op2::Lt, word, TOP, 1, Ty::Bool, 0),
        (Op2::Lt, byte, 1, 0x80, Ty::Bool, 1),
        (Op2::Le, byte, 7, 7, Ty::Bool, 1),
        (Op2::Gt, word, TOP, TOP - 1, Ty::Bool, 1),
        (Op2::Ge, byte, 6, 7, Ty::Bool, 0),
        (Op2::Eq, Ty::Bool, 0, 0, Ty::Bool, 1),
        (Op2::Ne, byte, 255, 255, Ty::Bool, 0),
        (Op2::Imp, Ty::Bool, 0, 0, Ty::Bool, 1),
        (Op2::Imp, Ty::Bool, 0, 1, Ty::Bool, 1),
        (Op2::Imp, Ty::Bool, 1, 0, Ty::Bool, 0),
        (Op2::Imp, Ty::Bool, 1, 1, Ty::Bool, 1),
    ];
    for (op, ty, a, b, result, bits) in table {
        let want = Value::new(result, bits).map(Know::Known);
        assert!(rt;
            want.is_some() && of_pair(op, ty, a, b) == want,
            "{op:?} of {a} and {b}"
        );
    }
}

/// What is known of a bool, which is unknown at `None`.
fn seen(b: Option<bool>) -> Know
    ensures { HasType Ty.Bool result }
{
    match b {
        Some(b) => Know::Known(Value::truth(b)),
        None => Know::Unknown,
    }
}

#[test]
fn an_operand_unknown(rt: HostRuntime) {
    let table = [
        (Op2::And, None, Some(false), Some(false)),
        (Op2::And, Some(true), None, None),
        (Op2::Or, Some(true), None, Some(true)),
        (Op2::Or, None, Some(false), None),
        (Op2::Xor, None, Some(true), None),
        (Op2::Imp, Some(false), None, Some(true)),
        (Op2::Imp, None, Some(true), Some(true)),
        (Op2::Imp, None, Some(false), None),
        (Op2::Imp, Some(true), None, None),
    ];
    for (op, a, b, want) in table {
        let taken = type2(op, Ty::Bool, Ty::Bool).is_some();
        assert!(rt;
            taken && apply2(op, seen(a), seen(b)) == seen(want),
            "{op:?} of {a:?} and {b:?}"
        );
    }
    let zero = Know::Known(Value::zero_of(Ty::Bv(4)));
    assert!(rt; apply2(Op2::And, zero, Know::Unknown) == Know::Unknown);
    assert!(rt; apply2(Op2::And, seen(Some(false)), Know::Clash) == Know::Clash);
}

#[test]
fn chosen(rt: HostRuntime) {
    let no = seen(Some(false));
    assert!(rt; choose(seen(Some(true)), no, Know::Clash) == no);
    assert!(rt; choose(seen(Some(false)), Know::Clash, Know::Unknown) == Know::Unknown);
    assert!(rt; choose(Know::Unknown, no, no) == Know::Unknown);
    assert!(rt; choose(Know::Clash, no, no) == Know::Clash);
}

/// The knowledge of a vector's bits, if it has them.
fn part(width: u8, bits: u64, high: u8, low: u8) -> Option<Know> {
    let v = Value::new(Ty::Bv(width), bits)?;
    if low <= high && high < width {
        Some(slice(Know::Known(v), high, low))
    } else {
        None
    }
}

/// The knowledge of a vector's bit, if it has it.
fn one_bit(width: u8, bits: u64, i: u8) -> Option<Know> {
    let v = Value::new(Ty::Bv(width), bits)?;
    if i < width {
        Some(bit(Know::Known(v), i))
    } else {
        None
    }
}

/// The knowledge of two vectors joined, if there is room for both.
fn joined(high: (u8, u64), low: (u8, u64)) -> Option<Know> {
    let v = Value::new(Ty::Bv(high.0), high.1)?;
    let w = Value::new(Ty::Bv(low.0), low.1)?;
    if high.0 <= 64 - low.0 {
        Some(concat(Know::Known(v), Know::Known(w)))
    } else {
        None
    }
}

#[test]
fn parts_of_vectors(rt: HostRuntime) {
    let parts = [
        (8, 0xa5, 7, 4, 4, 0xa),
        (8, 0xa5, 7, 0, 8, 0xa5),
        (64, MAX, 63, 0, 64, MAX),
        (64, TOP, 63, 63, 1, 1),
        (1, 1, 0, 0, 1, 1),
    ];
    for (width, bits, high, low, result, wanted) in parts {
        let want = Value::new(Ty::Bv(result), wanted).map(Know::Known);
        assert!(rt;
            want.is_some() && part(width, bits, high, low) == want,
            "bits {high} to {low} of {bits}"
        );
    }
    for (width, bits, i, want) in [(64, TOP, 63, true), (64, TOP, 62, false), (1, 1, 0, true)] {
        let want = Know::Known(Value::truth(want));
        assert!(rt; one_bit(width, bits, i) == Some(want), "bit {i} of {bits}");
    }
    let joins = [
        ((4, 0xa), (4, 0x5), 8, 0xa5),
        ((1, 1), (63, 0), 64, TOP),
        ((63, 0), (1, 1), 64, 1),
        ((32, 0xffff_ffff), (32, 0xffff_ffff), 64, MAX),
    ];
    for (high, low, width, bits) in joins {
        let want = Value::new(Ty::Bv(width), bits).map(Know::Known);
        assert!(rt; want.is_some() && joined(high, low) == want, "{bits}");
    }
}

/// What an operator gives of a known value, if it takes it.
fn of_one(op: Op1, ty: Ty, bits: u64) -> Option<Know> {
    let v = Value::new(ty, bits)?;
    let _result = type1(op, ty)?;
    Some(apply1(op, Know::Known(v)))
}

#[test]
fn one_operand(rt: HostRuntime) {
    let table = [
        (Op1::Not, Ty::Bool, 0, Some(1)),
        (Op1::Not, Ty::Bool, 1, Some(0)),
        (Op1::Not, Ty::Bv(1), 1, None),
        (Op1::Invert, Ty::Bv(64), 0, Some(MAX)),
        (Op1::Invert, Ty::Bv(64), MAX, Some(0)),
        (Op1::Invert, Ty::Bv(8), 0x0f, Some(0xf0)),
        (Op1::Invert, Ty::Bv(1), 1, Some(0)),
        (Op1::Invert, Ty::Bool, 1, None),
    ];
    for (op, ty, bits, wanted) in table {
        let want = match wanted {
            Some(bits) => Value::new(ty, bits).map(Know::Known),
            None => None,
        };
        assert!(rt; of_one(op, ty, bits) == want, "{op:?} of {bits}");
    }
}

#[test]
fn there_is_no_such(rt: HostRuntime) {
    for (ty, bits) in [
        (Ty::Bv(0), 0),
        (Ty::Bv(65), 0),
        (Ty::Bv(8), 256),
        (Ty::Bool, 2),
    ] {
        assert!(rt; Value::new(ty, bits).is_none(), "{ty:?}");
    }
    let table = [
        (Op2::And, Ty::Bool, Ty::Bv(1)),
        (Op2::Imp, Ty::Bv(1), Ty::Bv(1)),
        (Op2::Add, Ty::Bv(8), Ty::Bv(9)),
        (Op2::Lt, Ty::Bool, Ty::Bool),
        (Op2::Eq, Ty::Bv(65), Ty::Bv(65)),
    ];
    for (op, a, b) in table {
        assert!(rt; type2(op, a, b).is_none(), "{op:?}");
    }
}

#[test]
fn a_value_is_seen(rt: HostRuntime) -> Result<(), Fail> {
    let value = Value::new(Ty::Bv(64), MAX).ok_or("no such value")?;
    assert!(rt; value.ty() == Ty::Bv(64) && value.bits() == MAX);
    operators_are_monotone();
    operators_keep_types();
    order_is_partial();
    Ok(())
}
