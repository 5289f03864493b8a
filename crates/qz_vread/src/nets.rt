//! Reading nets and right sides.

ghost use Rattle.std.specs.Prelude.{◌≡◌, ◌↔◌, ◌<◌, Some, IsTrue};
ghost use Rattle.std.specs.Fmt.{decimal};
ghost use Rattle.qz_values.specs.Values.{type_of, IsValue};
ghost use Rattle.qz_verilog.specs.declared.nets.Rhs.TheVariants as rhs;
ghost use Rattle.qz_verilog.specs.Types.{has_sign, right_side_type};
ghost use Rattle.qz_verilog.specs.Validity.{declared_types, IsNetOf};
ghost use Rattle.qz_vtext.specs.Spelling.{net_text, sign_text, constant_text, right_side_text};
ghost use Rattle.qz_vread.specs.Reading.{Reads};
ghost use Rattle.qz_vread.specs.RightSides.{types_of, inputs_of, IsDeclared, AreDeclared2, AreDeclared3, ReadsForm, ReadsSelection, Makes, IsJoined, IsChoice, IsOperation, IsBinary, IsBitOf, IsBit, IsSliceOf, IsSlice};

use crate::bytes::{between, split_at, strip, strip_end};
use crate::numbers::number;
use crate::ports::Ports;
use crate::types::constant;
use qz_values::{Op2, Ty, Value};
use qz_verilog::{Declared, Ref, Rhs};

/// The nets that are declared so far.
#[derive(Clone, Copy)]
pub(crate) struct Nets<'a> {
    pub ports: &'a Ports,
    /// A value of each register's type.
    pub regs: &'a [Value],
    pub wires: &'a [(Ty, Rhs)],
}

impl<'a> Nets<'a> {
    fn declared(&self) -> Declared<'a>
        ensures { declared_types result.inputs.now result.regs.now result.wires.now ≡ types_of self.now }
    {
        Declared {
            inputs: self.ports.inputs(),
            regs: self.regs,
            wires: self.wires,
        }
    }

    /// The net that the bytes are.
    fn net(&self, bytes: &[u8]) -> Option<Ref>
        ensures { Reads (IsDeclared (types_of self.now)) (net_text (inputs_of self.now)) bytes.now result }
    {
        if let Some(name) = strip(bytes, b"i_") {
            return Some(Ref::Input(self.ports.input(name)?));
        }
        if let Some(digits) = strip(bytes, b"r_") {
            return Some(Ref::Reg(number_below(digits, self.regs.len())?));
        }
        Some(Ref::Wire(number_below(strip(bytes, b"w_")?, self.wires.len())?))
    }

    /// The net of this type that the bytes are.
    pub fn net_of(&self, ty: Ty, bytes: &[u8]) -> Option<Ref>
        ensures { Reads (IsNetOf (types_of self.now) ty) (net_text (inputs_of self.now)) bytes.now result }
    {
        let net = self.net(bytes)?;
        if is_of_type(self.declared().net_type(net), ty) {
            Some(net)
        } else {
            None
        }
    }

    /// The right side of this type that the bytes are.
    pub fn right_side(&self, ty: Ty, bytes: &[u8]) -> Option<Rhs>
        ensures { Reads (λ right. right_side_type (types_of self.now) right ≡ Some ty) (right_side_text (inputs_of self.now)) bytes.now result }
    {
        let right = self.form(ty, bytes)?;
        if is_of_type(self.declared().right_side_type(right), ty) {
            Some(right)
        } else {
            None
        }
    }

    /// The right side that the bytes are, if it is of this type.
    fn form(&self, ty: Ty, bytes: &[u8]) -> Option<Rhs>
        ensures { ReadsForm (types_of self.now) (inputs_of self.now) ty bytes.now result }
    {
        if let Some(net) = strip(bytes, b"~") {
            return self.inverted(net);
        }
        if let Some(nets) = strip(bytes, b"{") {
            return self.joined(nets);
        }
        match split_at(bytes, b' ') {
            Some((first, rest)) => match strip(rest, b"? ") {
                Some(sides) => self.choice(first, sides),
                None => self.binary(first, rest),
            },
            None => match split_at(bytes, b'[') {
                Some((net, indices)) => self.selection(net, indices),
                None => constant_side(ty, bytes),
            },
        }
    }

    fn inverted(&self, net: &[u8]) -> Option<Rhs>
        ensures { Makes (IsDeclared (types_of self.now)) (λ a. net.now ≡ net_text (inputs_of self.now) a) (λ a. rhs.Invert a) result }
    {
        Some(Rhs::Invert(self.net(net)?))
    }

    /// The nets of `a, b}`.
    fn joined(&self, nets: &[u8]) -> Option<Rhs>
        ensures { Makes (AreDeclared2 (types_of self.now)) (IsJoined (inputs_of self.now) nets.now) (λ nets. rhs.Concat nets.0 nets.1) result }
    {
        let (a, rest) = split_at(nets, b',')?;
        let b = between(rest, b" ", b"}")?;
        Some(Rhs::Concat(self.net(a)?, self.net(b)?))
    }

    /// The nets of a choice, of which the condition stands before ` ? ` and the sides after it.
    fn choice(&self, condition: &[u8], sides: &[u8]) -> Option<Rhs>
        ensures { Makes (AreDeclared3 (types_of self.now)) (IsChoice (inputs_of self.now) condition.now sides.now) (λ nets. rhs.Choose nets.0 nets.1 nets.2) result }
    {
        let (yes, rest) = split_at(sides, b' ')?;
        let no = strip(rest, b": ")?;
        Some(Rhs::Choose(self.net(condition)?, self.net(yes)?, self.net(no)?))
    }

    /// The sign and the nets of an operation. A space was read after the first net.
    fn binary(&self, first: &[u8], rest: &[u8]) -> Option<Rhs>
        ensures { Makes (IsOperation (types_of self.now)) (IsBinary (inputs_of self.now) first.now rest.now) (λ parts. rhs.Bin parts.0 parts.1 parts.2) result }
    {
        let (sign, second) = split_at(rest, b' ')?;
        Some(Rhs::Bin(operator(sign)?, self.net(first)?, self.net(second)?))
    }

    /// A bit, or the bits from one down to another. `[` was read after the net.
    fn selection(&self, net: &[u8], indices: &[u8]) -> Option<Rhs>
        ensures { ReadsSelection (types_of self.now) (inputs_of self.now) net.now indices.now result }
    {
        match split_at(indices, b':') {
            Some((high, low)) => self.slice(net, high, low),
            None => self.bit(net, indices),
        }
    }

    fn bit(&self, net: &[u8], index: &[u8]) -> Option<Rhs>
        ensures { Makes (IsBitOf (types_of self.now)) (IsBit (inputs_of self.now) net.now index.now) (λ bit. rhs.Bit bit.0 bit.1) result }
    {
        let number = bit_number(strip_end(index, b"]")?)?;
        Some(Rhs::Bit(self.net(net)?, number))
    }

    fn slice(&self, net: &[u8], high: &[u8], low: &[u8]) -> Option<Rhs>
        ensures { Makes (IsSliceOf (types_of self.now)) (IsSlice (inputs_of self.now) net.now high.now low.now) (λ slice. rhs.Slice slice.0 slice.1 slice.2) result }
    {
        let low = bit_number(strip_end(low, b"]")?)?;
        Some(Rhs::Slice(self.net(net)?, bit_number(high)?, low))
    }
}

/// Whether what was found is this type.
fn is_of_type(found: Option<Ty>, ty: Ty) -> bool
    ensures { IsTrue result ↔ (found ≡ Some ty) }
{
    found == Some(ty)
}

/// A constant of this type.
fn constant_side(ty: Ty, bytes: &[u8]) -> Option<Rhs>
    ensures { Makes (λ value. IsValue value × (type_of value ≡ ty)) (λ value. bytes.now ≡ constant_text value) (λ value. rhs.Const value) result }
{
    Some(Rhs::Const(constant(ty, bytes)?))
}

/// The number, where it is below the limit.
fn number_below(bytes: &[u8], limit: usize) -> Option<u64>
    ensures { Reads (λ n. n < limit) decimal bytes.now result }
{
    let number = number(bytes)?;
    if number < limit as u64 {
        Some(number)
    } else {
        None
    }
}

/// A bit's number, of which there are at most 64.
fn bit_number(bytes: &[u8]) -> Option<u8>
    ensures { Reads (λ n. n < 64) decimal bytes.now result }
{
    let index = number(bytes)?;
    if index < 64 { Some(index as u8) } else { None }
}

/// The operator with this sign.
fn operator(sign: &[u8]) -> Option<Op2>
    ensures { Reads (λ op. IsTrue (has_sign op)) sign_text sign.now result }
{
    match sign {
        b"&" => Some(Op2::And),
        b"|" => Some(Op2::Or),
        b"^" => Some(Op2::Xor),
        b"+" => Some(Op2::Add),
        b"-" => Some(Op2::Sub),
        b"==" => Some(Op2::Eq),
        b"!=" => Some(Op2::Ne),
        b"<" => Some(Op2::Lt),
        b"<=" => Some(Op2::Le),
        b">" => Some(Op2::Gt),
        b">=" => Some(Op2::Ge),
        _ => None,
    }
}
