//! A net over earlier nets, and the numbers by which nets are named.

use qz_values::{Op1, Op2, Ty, Value};

/// The number of a net in its table, counted from 0.
#[derive(Clone, Copy, Debug, PartialEq, Eq, Hash)]
pub struct NetId(pub u64);

/// A net: a formula over nets that are in the table before it.
#[derive(Clone, Copy, Debug, PartialEq, Eq, Hash)]
pub enum Net {
    /// A constant.
    Const(Value),
    /// What comes from outside: the leaf of this number, and its type.
    Leaf(u64, Ty),
    /// An operator with one operand.
    Un(Op1, NetId),
    /// An operator with two operands of one type.
    Bin(Op2, NetId, NetId),
    /// `c ? a : b`; the side that isn't chosen is hidden.
    Choose(NetId, NetId, NetId),
    /// `a{i}`, bit 0 being the lowest, as a bool.
    Bit(NetId, u8),
    /// `a{high:low}`, both bits included, as a vector.
    Slice(NetId, u8, u8),
    /// `a @ b`, the bits of `a` above those of `b`.
    Concat(NetId, NetId),
}
