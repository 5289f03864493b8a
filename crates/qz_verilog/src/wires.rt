//! The values to which wires settle.

ghost use Rattle.std.specs.Prelude.{◌≡◌, length, IsSome};
ghost use Rattle.qz_values.specs.Values.{type_of};
ghost use Rattle.qz_verilog.specs.Types.{inverted_type};
ghost use Rattle.qz_verilog.specs.Validity.{register_types, IsValid};
ghost use Rattle.qz_verilog.specs.Meaning.{value_at, inverted, right_side, Settles};
ghost use Rattle.qz_verilog.specs.Runs.{AreOf, IsRow, nets_of};
ghost use Rattle.qz_verilog.specs.Simulation.{CanBeRead, value_in};

use crate::modules::VModule;
use crate::nets::{Ref, Rhs};
use qz_values::{Know, Op1, Ty, Value, apply1, apply2, bit, choose, concat, slice};

/// Values of inputs, registers and wires, each at its number.
#[derive(Clone, Copy, Debug)]
pub struct Nets<'a> {
    pub inputs: &'a [Value],
    pub registers: &'a [Value],
    pub wires: &'a [Value],
}

impl<'a> Nets<'a> {
    /// The value of a net, and `false` where there is none.
    pub fn value(&self, net: Ref) -> Value
        ensures { result ≡ value_at (nets_of self.now.registers.now self.now.inputs.now self.now.wires.now) net }
    {
        let found = match net {
            Ref::Input(number) => self.inputs.get(number as usize),
            Ref::Reg(number) => self.registers.get(number as usize),
            Ref::Wire(number) => self.wires.get(number as usize),
        };
        found.copied().unwrap_or(Value::truth(false))
    }

    /// The value of a right side.
    fn right_side(&self, right: Rhs) -> Value
        requires { CanBeRead (nets_of self.now.registers.now self.now.inputs.now self.now.wires.now) right }
        ensures { result ≡ right_side (nets_of self.now.registers.now self.now.inputs.now self.now.wires.now) right }
    {
        match right {
            Rhs::Const(value) => value,
            Rhs::Invert(a) => inverted(self.value(a)),
            Rhs::Bin(op, a, b) => value_in(apply2(op, self.known(a), self.known(b))),
            Rhs::Choose(c, a, b) => value_in(choose(self.known(c), self.known(a), self.known(b))),
            Rhs::Bit(a, i) => value_in(bit(self.known(a), i)),
            Rhs::Slice(a, high, low) => value_in(slice(self.known(a), high, low)),
            Rhs::Concat(a, b) => value_in(concat(self.known(a), self.known(b))),
        }
    }

    /// The value of a net, which is known.
    fn known(&self, net: Ref) -> Know
        ensures { result ≡ Know.Known (value_at (nets_of self.now.registers.now self.now.inputs.now self.now.wires.now) net) }
    {
        Know::Known(self.value(net))
    }
}

/// The value of `~`, also of a bool.
fn inverted(value: Value) -> Value
    requires { IsSome (inverted_type (type_of value)) }
    ensures { result ≡ inverted value }
{
    let op = match value.ty() {
        Ty::Bool => Op1::Not,
        Ty::Bv(_) => Op1::Invert,
    };
    value_in(apply1(op, Know::Known(value)))
}

/// The value that is known, and `false` where none is.
fn value_in(know: Know) -> Value
    ensures { result ≡ value_in know }
{
    match know {
        Know::Known(value) => value,
        Know::Unknown | Know::Clash => Value::truth(false),
    }
}

/// Sets `values` to those to which the wires of a module settle.
pub fn settle(m: &VModule, registers: &[Value], inputs: &[Value], values: &mut [Value])
    requires valid { IsValid m.now }
    requires registers_typed { AreOf (register_types m.now.regs) registers.now }
    requires is_row { IsRow m.now inputs.now }
    requires room { length values.old ≡ length m.now.wires }
    ensures { Settles m.now.wires (nets_of registers.now inputs.now values.new) }
{
    for (number, (_, right)) in m.wires.as_slice().iter().enumerate() {
        let before = Nets {
            inputs,
            registers,
            wires: &values[..number],
        };
        values[number] = before.right_side(*right);
    }
}
