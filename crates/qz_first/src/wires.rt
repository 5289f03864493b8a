//! The wires of a circuit that is being made: equal right sides have one wire.

ghost use Rattle.std.specs.Prelude.{◌≡◌, ℕ, ◌&&◌, ◌||◌, not, [], length, IfOk, IfSome};
ghost use Rattle.qz_values.specs.Values.{is_yes};
ghost use Rattle.qz_verilog.specs.declared.nets.Rhs.{Rhs};
ghost use Rattle.qz_first.specs.BitNets.{Nets, bit_at, right_bit, IsRightSide};
ghost use Rattle.qz_first.specs.WireTable.{rights, Reads, Extends, Has, IsSound, Declares, Carries};

use indexmap::IndexSet;
use qz_values::{Op2, Ty, Value};
use qz_verilog::{Ref, Rhs};
use std::alloc::{AllocError, Global};

/// The wires so far, each at its number.
#[derive(Drop)]
pub struct Wires {
    table: IndexSet<Rhs>,
}

impl Wires {
    pub fn new(alloc: Global) -> Wires
        ensures { rights result ≡ [] }
    {
        Wires {
            table: IndexSet::new(alloc),
        }
    }

    /// The right sides in the order of the wires' numbers.
    pub fn as_slice(&self) -> &[Rhs]
        ensures { result.now ≡ rights self.now }
    {
        self.table.as_slice()
    }

    /// The wire with this right side.
    fn add(&mut self, rhs: Rhs) -> Result<Ref, AllocError>
        ensures extends { Extends self.old self.new }
        ensures means { IfOk result (λ net. Carries self.new net (λ nets. right_bit nets rhs)) }
        ensures declares { IfOk result (λ net. (registers : ℕ) → IsSound registers self.old →
            IsRightSide registers (length (rights self.old)) rhs → Declares registers self.new net) }
    {
        let (number, _) = self.table.insert_full(rhs)?;
        Ok(Ref::Wire(number as u64))
    }

    /// The constant that the net is, if it is one.
    fn constant_of(&self, net: Ref) -> Option<bool>
        ensures { IfSome result (λ value. (nets : Nets) → Reads nets self.now → bit_at nets net ≡ value) }
    {
        let Ref::Wire(number) = net else { return None };
        match self.table.get_index(number as usize) {
            Some(Rhs::Const(value)) => Some(is_true(*value)),
            _ => None,
        }
    }

    pub fn constant(&mut self, value: bool) -> Result<Ref, AllocError>
        ensures extends { Extends self.old self.new }
        ensures means { IfOk result (λ net. Carries self.new net (λ nets. value)) }
        ensures declares { IfOk result (λ net. (registers : ℕ) → IsSound registers self.old →
            Declares registers self.new net) }
    {
        self.add(Rhs::Const(Value::truth(value)))
    }

    pub fn not(&mut self, a: Ref) -> Result<Ref, AllocError>
        ensures extends { Extends self.old self.new }
        ensures means { IfOk result (λ net. Carries self.new net (λ nets. not (bit_at nets a))) }
        ensures declares { IfOk result (λ net. (registers : ℕ) → IsSound registers self.old →
            Has registers self.old a →
            Declares registers self.new net) }
    {
        match self.constant_of(a) {
            Some(value) => {
                let inverted = self.constant(!value)?;
                Ok(inverted)
            }
            None => self.add(Rhs::Invert(a)),
        }
    }

    pub fn and(&mut self, a: Ref, b: Ref) -> Result<Ref, AllocError>
        ensures extends { Extends self.old self.new }
        ensures means { IfOk result (λ net. Carries self.new net (λ nets. bit_at nets a && bit_at nets b)) }
        ensures declares { IfOk result (λ net. (registers : ℕ) → IsSound registers self.old →
            Has registers self.old a →
            Has registers self.old b → Declares registers self.new net) }
    {
        if a == b {
            return Ok(a);
        }
        match self.constant_of(a) {
            Some(true) => Ok(b),
            Some(false) => Ok(a),
            None => match self.constant_of(b) {
                Some(true) => Ok(a),
                Some(false) => Ok(b),
                None => self.add(Rhs::Bin(Op2::And, a, b)),
            },
        }
    }

    pub fn or(&mut self, a: Ref, b: Ref) -> Result<Ref, AllocError>
        ensures extends { Extends self.old self.new }
        ensures means { IfOk result (λ net. Carries self.new net (λ nets. bit_at nets a || bit_at nets b)) }
        ensures declares { IfOk result (λ net. (registers : ℕ) → IsSound registers self.old →
            Has registers self.old a →
            Has registers self.old b → Declares registers self.new net) }
    {
        if a == b {
            return Ok(a);
        }
        match self.constant_of(a) {
            Some(true) => Ok(a),
            Some(false) => Ok(b),
            None => match self.constant_of(b) {
                Some(true) => Ok(b),
                Some(false) => Ok(a),
                None => self.add(Rhs::Bin(Op2::Or, a, b)),
            },
        }
    }
}

/// Whether the value is the bool `true`.
pub fn is_true(value: Value) -> bool
    ensures { result ≡ is_yes value }
{
    matches!(value.ty(), Ty::Bool) && value.bits() == 1
}
