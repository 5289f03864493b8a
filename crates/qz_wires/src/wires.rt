//! The table of wires.

ghost use Rattle.std.specs.Prelude.{◌≡◌, [], Some, IfOk, OnOk, IsTrue, IfSome};
ghost use Rattle.std.proofs.Props.{props};
ghost use Rattle.qz_values.specs.Values.{IsValue, type_of, truth_of};
ghost use Rattle.qz_values.specs.declared.Ty.TheVariants.{Bool as Truth};
ghost use Rattle.qz_verilog.specs.declared.nets.Ref.TheVariants as net;
ghost use Rattle.qz_verilog.specs.Types.{right_side_type};
ghost use Rattle.qz_verilog.specs.Validity.{IsNetOf};
ghost use Rattle.qz_wires.specs.Sound.{AreSound};
ghost use Rattle.qz_verilog.specs.Meaning.{Nets, right_side};

use indexmap::IndexSet;
use qz_syntax::Port;
use qz_values::{Ty, Value};
use qz_verilog::{Ref, Rhs};
use sqlite_items::Items;
use std::alloc::{AllocError, Global};

/// The wires of a module so far, over its inputs and its registers. Each is of its right side's type,
/// and reads inputs, registers and wires before it alone. No wire is there twice.
#[derive(Drop)]
pub struct Wires {
    inputs: Items<Port>,
    /// The initial values of the registers.
    regs: Items<Value>,
    table: IndexSet<(Ty, Rhs)>,
    ghost sound: { AreSound inputs regs table.keys } by { Prim.hlevel props },
}

impl Wires {
    ghost use Rattle.qz_wires.specs.WireTable.{rights, types_in, Extends, Carries};

    /// No wire, over these inputs and registers.
    pub fn new(alloc: Global, inputs: Items<Port>, regs: Items<Value>) -> Wires
        ensures none { rights result ≡ [] }
        ensures inputs { result.inputs ≡ inputs }
        ensures regs { result.regs ≡ regs }
    {
        Wires {
            inputs,
            regs,
            table: IndexSet::new(alloc),
        }
    }

    /// The wires in their order, each with its type.
    pub fn as_slice(&self) -> &[(Ty, Rhs)]
        ensures { result.now ≡ rights self.now }
    {
        self.table.as_slice()
    }

    /// The wire with this right side, which is of this type.
    ///
    /// # Errors
    ///
    /// Want of memory alone.
    pub fn add(&mut self, ty: Ty, right: Rhs) -> Result<Ref, AllocError>
        requires { right_side_type (types_in self.old) right ≡ Some ty }
        ensures extends { OnOk result (Extends self.old self.new) }
        ensures typed { IfOk result (λ net. IsNetOf (types_in self.new) ty net) }
        ensures means { IfOk result (λ net. Carries self.new net (λ nets. right_side nets right)) }
    {
        let (number, _) = self.table.insert_full((ty, right))?;
        Ok(Ref::Wire(number as u64))
    }

    /// The wire that is this constant.
    pub fn constant(&mut self, value: Value) -> Result<Ref, AllocError>
        requires { IsValue value }
        ensures extends { OnOk result (Extends self.old self.new) }
        ensures typed { IfOk result (λ net. IsNetOf (types_in self.new) (type_of value) net) }
        ensures means { IfOk result (λ net. Carries self.new net (λ nets. value)) }
    {
        self.add(value.ty(), Rhs::Const(value))
    }

    /// Whether the net is a wire that is this bool.
    pub(crate) fn is_constant(&self, net: Ref, value: bool) -> bool
        ensures { IsTrue result → Carries self.now net (λ nets. truth_of value) }
    {
        match self.right_of(net) {
            Some(Rhs::Const(constant)) => constant == Value::truth(value),
            _ => false,
        }
    }

    /// The right side of a net that is a wire.
    fn right_of(&self, net: Ref) -> Option<Rhs>
        ensures { IfSome result (λ right. Carries self.now net (λ nets. right_side nets right)) }
    {
        match net {
            Ref::Wire(number) => {
                let (_, right) = self.table.get_index(number as usize)?;
                Some(*right)
            }
            Ref::Input(_) | Ref::Reg(_) => None,
        }
    }
}
