//! Nets and right sides, whose inputs are named as the module's ports.

ghost use Rattle.std.specs.Prelude.{◌≡◌, ◌++◌, string_bytes, OnOk};
ghost use Rattle.qz_vtext.specs.Spelling.{port_text, net_text, sign_text, binary_text, choice_text, bit_text, slice_text, concat_text, right_side_text};

use crate::spell::{push_constant, push_name, sign};
use qz_syntax::Port;
use qz_values::Op2;
use qz_verilog::{Ref, Rhs};
use std::alloc::{AllocError, Global};

/// Writes nets of a module with these inputs.
#[derive(Clone, Copy)]
pub(crate) struct Pen<'a> {
    pub alloc: Global,
    pub inputs: &'a [Port],
}

impl<'a> Pen<'a> {
    /// The name of the input with this number.
    fn input(&self, text: &mut String, number: u64) -> Result<(), AllocError>
        ensures { OnOk result (string_bytes text.new ≡ string_bytes text.old ++ port_text self.now.inputs.now number) }
    {
        match self.inputs.get(number as usize) {
            Some(port) => push_name(self.alloc, text, &port.name),
            None => Ok(()),
        }
    }

    pub fn net(&self, text: &mut String, net: Ref) -> Result<(), AllocError>
        ensures { OnOk result (string_bytes text.new ≡ string_bytes text.old ++ net_text self.now.inputs.now net) }
    {
        match net {
            Ref::Input(number) => {
                text.push_str("i_")?;
                self.input(text, number)
            }
            Ref::Reg(number) => write!(text, "r_{number}"),
            Ref::Wire(number) => write!(text, "w_{number}"),
        }
    }

    pub fn right_side(&self, text: &mut String, right: Rhs) -> Result<(), AllocError>
        ensures { OnOk result (string_bytes text.new ≡ string_bytes text.old ++ right_side_text self.now.inputs.now right) }
    {
        match right {
            Rhs::Const(value) => push_constant(text, value),
            Rhs::Invert(a) => {
                text.push_str("~")?;
                self.net(text, a)
            }
            Rhs::Bin(op, a, b) => self.binary(text, op, a, b),
            Rhs::Choose(c, a, b) => self.choice(text, c, a, b),
            Rhs::Bit(a, i) => self.bit(text, a, i),
            Rhs::Slice(a, high, low) => self.slice(text, a, high, low),
            Rhs::Concat(a, b) => self.concat(text, a, b),
        }
    }

    fn binary(&self, text: &mut String, op: Op2, a: Ref, b: Ref) -> Result<(), AllocError>
        ensures { OnOk result (string_bytes text.new ≡ string_bytes text.old ++ binary_text (net_text self.now.inputs.now a) (sign_text op) (net_text self.now.inputs.now b)) }
    {
        self.net(text, a)?;
        text.push_str(" ")?;
        text.push_str(sign(op))?;
        text.push_str(" ")?;
        self.net(text, b)
    }

    fn choice(&self, text: &mut String, c: Ref, a: Ref, b: Ref) -> Result<(), AllocError>
        ensures { OnOk result (string_bytes text.new ≡ string_bytes text.old ++ choice_text (net_text self.now.inputs.now c) (net_text self.now.inputs.now a) (net_text self.now.inputs.now b)) }
    {
        self.net(text, c)?;
        text.push_str(" ? ")?;
        self.net(text, a)?;
        text.push_str(" : ")?;
        self.net(text, b)
    }

    fn bit(&self, text: &mut String, a: Ref, i: u8) -> Result<(), AllocError>
        ensures { OnOk result (string_bytes text.new ≡ string_bytes text.old ++ bit_text (net_text self.now.inputs.now a) i) }
    {
        self.net(text, a)?;
        write!(text, "[{i}]")
    }

    fn slice(&self, text: &mut String, a: Ref, high: u8, low: u8) -> Result<(), AllocError>
        ensures { OnOk result (string_bytes text.new ≡ string_bytes text.old ++ slice_text (net_text self.now.inputs.now a) high low) }
    {
        self.net(text, a)?;
        write!(text, "[{high}:{low}]")
    }

    fn concat(&self, text: &mut String, a: Ref, b: Ref) -> Result<(), AllocError>
        ensures { OnOk result (string_bytes text.new ≡ string_bytes text.old ++ concat_text (net_text self.now.inputs.now a) (net_text self.now.inputs.now b)) }
    {
        text.push_str("{")?;
        self.net(text, a)?;
        text.push_str(", ")?;
        self.net(text, b)?;
        text.push_str("}")
    }
}
