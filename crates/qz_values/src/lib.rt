//! Values of the language, and what is known of them.
//!
//! A value is of type `bool`, or of a vector type `bv[w]` with `w` from 1 to 64. While a step of a
//! program settles, a value is not known yet, or known, or its writers contradict one another. Each
//! operator is defined on such knowledge, so that more knowledge of its operands never makes less
//! known of its result.
#![tactic(auto)]

ghost use Rattle.std.specs.Prelude.{◌≡◌, ◌↔◌, IsSome, IfSome};
ghost use Rattle.qz_values.specs.Types.{IsType};
ghost use Rattle.qz_values.specs.Values.{value_of, type_of, bits_of, truth_of, default_of, IsValue};

mod known;
mod laws;
mod typing;
mod words;

pub use known::{apply1, apply2, bit, choose, concat, slice};
pub use laws::{operators_are_monotone, operators_keep_types, order_is_partial};
pub use typing::{
    bit_type, choose_type, concat_type, is_same_type, is_type, slice_type, type1, type2,
};
use words::{ones, width};

/// The type of a value.
#[derive(Clone, Copy, Debug, PartialEq, Eq, Hash)]
pub enum Ty {
    /// `bool`: the values 0 (`false`) and 1 (`true`).
    Bool,
    /// `bv[w]`: the numbers below `2^w`, `w` from 1 to 64.
    Bv(u8),
}

/// A value with its type.
#[derive(Clone, Copy, Debug, PartialEq, Eq, Hash)]
pub struct Value {
    ty: Ty,
    bits: u64,
}

/// What is known of a value.
#[derive(Clone, Copy, Debug, PartialEq, Eq, Hash)]
pub enum Know {
    /// Nothing yet.
    Unknown,
    /// This value.
    Known(Value),
    /// Writers that contradict one another.
    Clash,
}

/// An operator with one operand.
#[derive(Clone, Copy, Debug, PartialEq, Eq, Hash)]
pub enum Op1 {
    /// `!` of a bool.
    Not,
    /// `~` of a vector, bit by bit.
    Invert,
}

/// An operator with two operands, which are of one type.
#[derive(Clone, Copy, Debug, PartialEq, Eq, Hash)]
pub enum Op2 {
    /// `&` of bools or, bit by bit, of vectors.
    And,
    /// `|` of bools or, bit by bit, of vectors.
    Or,
    /// `^` of bools or, bit by bit, of vectors.
    Xor,
    /// `->` of bools, `false` only for `true` and `false`.
    Imp,
    /// `+` of vectors, modulo `2^w`.
    Add,
    /// `-` of vectors, modulo `2^w`.
    Sub,
    /// `==` of bools or of vectors.
    Eq,
    /// `!=` of bools or of vectors.
    Ne,
    /// `<` of vectors, as numbers without sign.
    Lt,
    /// `<=` of vectors, as numbers without sign.
    Le,
    /// `>` of vectors, as numbers without sign.
    Gt,
    /// `>=` of vectors, as numbers without sign.
    Ge,
}

impl Value {
    /// The value of this type with these bits. `None` where the width is outside 1 to 64, or where
    /// the bits don't fit the type.
    pub fn new(ty: Ty, bits: u64) -> Option<Value>
        ensures some { IsSome result ↔ IsValue (value_of ty bits) }
        ensures value { IfSome result (λ v. v ≡ value_of ty bits) }
    {
        let width = width(ty);
        if 1 <= width && width <= 64 && bits <= ones(width) {
            Some(Value { ty, bits })
        } else {
            None
        }
    }

    /// The value of type `bool`.
    pub fn truth(b: bool) -> Value
        ensures { result ≡ truth_of b }
    {
        Value {
            ty: Ty::Bool,
            bits: b as u64,
        }
    }

    /// The value that a variable of this type has before any was written: 0, or `false`.
    pub fn zero_of(ty: Ty) -> Value
        requires { IsType ty }
        ensures { result ≡ default_of ty }
    {
        Value { ty, bits: 0 }
    }

    /// Its type.
    pub fn ty(&self) -> Ty
        ensures { result ≡ type_of self.now }
    {
        self.ty
    }

    /// Its number, below `2^w` for a vector of `w` bits, and 0 or 1 for a bool.
    pub fn bits(&self) -> u64
        ensures { result ≡ bits_of self.now }
    {
        self.bits
    }
}
