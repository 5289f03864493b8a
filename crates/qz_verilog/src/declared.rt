//! The nets that are declared, and the types of right sides that read them.

ghost use Rattle.std.specs.Prelude.{◌≡◌};
ghost use Rattle.qz_verilog.specs.Types.{net_type, right_side_type, inverted_type, constant_type, has_sign, is_value};
ghost use Rattle.qz_verilog.specs.Validity.{declared_types};

use crate::nets::{Ref, Rhs};
use qz_syntax::Port;
use qz_values::{
    Op1, Op2, Ty, Value, bit_type, choose_type, concat_type, slice_type, type1, type2,
};

/// The inputs, registers and wires that are declared so far.
#[derive(Clone, Copy, Debug)]
pub struct Declared<'a> {
    pub inputs: &'a [Port],
    /// A value of each register's type.
    pub regs: &'a [Value],
    pub wires: &'a [(Ty, Rhs)],
}

impl<'a> Declared<'a> {
    /// The type of a net. `None` where it isn't declared.
    pub fn net_type(&self, net: Ref) -> Option<Ty>
        ensures { result ≡ net_type (declared_types self.now.inputs.now self.now.regs.now self.now.wires.now) net }
    {
        match net {
            Ref::Input(number) => self.inputs.get(number as usize).map(|port| port.ty),
            Ref::Reg(number) => self.regs.get(number as usize).map(|value| value.ty()),
            Ref::Wire(number) => self.wires.get(number as usize).map(|wire| wire.0),
        }
    }

    /// The type of a right side. `None` where it can't be written, reads a net that isn't declared,
    /// or has operands of types that its operator doesn't take.
    pub fn right_side_type(&self, right: Rhs) -> Option<Ty>
        ensures { result ≡ right_side_type (declared_types self.now.inputs.now self.now.regs.now self.now.wires.now) right }
    {
        match right {
            Rhs::Const(value) => constant_type(value),
            Rhs::Invert(a) => inverted_type(self.net_type(a)?),
            Rhs::Bin(op, a, b) if has_sign(op) => type2(op, self.net_type(a)?, self.net_type(b)?),
            Rhs::Bin(..) => None,
            Rhs::Choose(c, a, b) => {
                choose_type(self.net_type(c)?, self.net_type(a)?, self.net_type(b)?)
            }
            Rhs::Bit(a, i) => bit_type(self.net_type(a)?, i),
            Rhs::Slice(a, high, low) => slice_type(self.net_type(a)?, high, low),
            Rhs::Concat(a, b) => concat_type(self.net_type(a)?, self.net_type(b)?),
        }
    }
}

/// The type of `~a`, also of a bool.
fn inverted_type(a: Ty) -> Option<Ty>
    ensures { result ≡ inverted_type a }
{
    match a {
        Ty::Bool => type1(Op1::Not, a),
        Ty::Bv(_) => type1(Op1::Invert, a),
    }
}

/// The type of a constant. `None` where its number doesn't fit its type.
fn constant_type(value: Value) -> Option<Ty>
    ensures { result ≡ constant_type value }
{
    if is_value(value) {
        Some(value.ty())
    } else {
        None
    }
}

/// Whether the number fits its type, and there is such a type.
pub fn is_value(value: Value) -> bool
    ensures { result ≡ is_value value }
{
    Value::new(value.ty(), value.bits()).is_some()
}

/// Whether there is a sign for the operator.
fn has_sign(op: Op2) -> bool
    ensures { result ≡ has_sign op }
{
    !matches!(op, Op2::Imp)
}
