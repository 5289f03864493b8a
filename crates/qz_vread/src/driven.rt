//! Whether outputs can be driven.

ghost use Rattle.std.specs.Prelude.{◌≡◌, ◌↔◌, ◌||◌, IsTrue};
ghost use Rattle.std.specs.List.{AllByRecursion, list_any, list_all};
ghost use Rattle.qz_values.specs.declared.Ty.{Ty};
ghost use Rattle.qz_values.specs.Types.{is_same_type};
ghost use Rattle.qz_verilog.specs.Validity.{port_types, register_types, wire_types};
ghost use Rattle.qz_vread.specs.RightSides.{types_of};
ghost use Rattle.qz_vread.specs.Drafts.{HasNet};
ghost use Rattle.qz_vread.specs.TypeSets.{has, Adds};

use crate::nets::Nets;
use qz_syntax::Port;
use qz_values::{Ty, Value};
use qz_verilog::Rhs;

/// Types, each of which is among them or not.
#[derive(Drop)]
struct TypeSet {
    has_bool: bool,
    /// For each width whether the vectors of this width are among them.
    widths: [bool; 256],
}

/// Whether for each output a net of its type is declared.
pub(crate) fn are_driven(nets: &Nets<'_>, outputs: &[Port]) -> bool
    ensures { IsTrue result ↔ AllByRecursion (HasNet (types_of nets.now)) (port_types outputs.now) }
{
    let mut types = TypeSet {
        has_bool: false,
        widths: [false; 256],
    };
    types.add_inputs(nets.ports.inputs());
    types.add_registers(nets.regs);
    types.add_wires(nets.wires);
    types.have_each(outputs)
}

impl TypeSet {
    /// Whether the type is among them.
    fn contains(&self, ty: Ty) -> bool
        ensures { result ≡ has self.now ty }
    {
        match ty {
            Ty::Bool => self.has_bool,
            Ty::Bv(width) => self.widths[width as usize],
        }
    }

    /// One type more, unless it is among them.
    fn add(&mut self, ty: Ty)
        ensures { (t : Ty) → has self.new t ≡ (has self.old t || is_same_type t ty) }
    {
        match ty {
            Ty::Bool => self.has_bool = true,
            Ty::Bv(width) => self.widths[width as usize] = true,
        }
    }

    fn add_inputs(&mut self, inputs: &[Port])
        ensures { Adds self.old self.new (port_types inputs.now) }
    {
        for input in inputs {
            self.add(input.ty);
        }
    }

    fn add_registers(&mut self, registers: &[Value])
        ensures { Adds self.old self.new (register_types registers.now) }
    {
        for register in registers {
            self.add(register.ty());
        }
    }

    fn add_wires(&mut self, wires: &[(Ty, Rhs)])
        ensures { Adds self.old self.new (wire_types wires.now) }
    {
        for (ty, _) in wires {
            self.add(*ty);
        }
    }

    /// Whether each port's type is among them.
    fn have_each(&self, ports: &[Port]) -> bool
        ensures { result ≡ list_all (λ t. has self.now t) (port_types ports.now) }
    {
        ports.iter().all(|port| self.contains(port.ty))
    }
}
