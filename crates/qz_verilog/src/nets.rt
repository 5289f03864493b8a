//! Nets that are read, and what is assigned to wires.

use qz_values::{Op2, Value};

/// A net that is read. Numbers count from 0.
#[derive(Clone, Copy, Debug, PartialEq, Eq, Hash)]
pub enum Ref {
    /// An input, by its place in the list of inputs. The clock has no place there.
    Input(u64),
    /// A register.
    Reg(u64),
    /// A wire.
    Wire(u64),
}

/// The right side of a wire's assignment.
#[derive(Clone, Copy, Debug, PartialEq, Eq, Hash)]
pub enum Rhs {
    /// A constant.
    Const(Value),
    /// `~`, bit by bit, also of a bool.
    Invert(Ref),
    /// An operator between two nets of one type. Every one can be written but `Op2::Imp`.
    Bin(Op2, Ref, Ref),
    /// `c ? a : b`
    Choose(Ref, Ref, Ref),
    /// `a[i]`, bit 0 being the lowest, as a bool.
    Bit(Ref, u8),
    /// `a[high:low]`, both bits included, as a vector.
    Slice(Ref, u8, u8),
    /// `{a, b}`, the bits of `a` above those of `b`.
    Concat(Ref, Ref),
}
