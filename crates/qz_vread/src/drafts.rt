//! What was read of a module.

ghost use Rattle.std.specs.Prelude.{◌≡◌, MatchOption, Some};
ghost use Rattle.qz_vread.specs.RightSides.{inputs_of, types_of};
ghost use Rattle.qz_vread.specs.Drafts.{types_in};
ghost use Rattle.qz_vread.specs.Drafted.{nothing_read, module_of, IsWhole};

use crate::nets::Nets;
use crate::ports::Ports;
use qz_syntax::Name;
use qz_values::{Ty, Value};
use qz_verilog::{Ref, Rhs, VModule};
use sqlite_items::Items;
use std::alloc::Global;

/// What comes next.
#[derive(Clone, Copy, Debug, PartialEq, Eq)]
pub(crate) enum Stage {
    /// The first line, with the module's name.
    Name,
    /// The clock, the first port.
    Clock,
    /// A port.
    Port,
    /// The end of the list of ports.
    PortsEnd,
    /// A register, if there is no wire so far, or a wire, or what comes after the wires.
    Net,
    /// What is assigned to a wire of this type, which was declared.
    Assign(Ty),
    /// What drives the next output, or what comes after the outputs.
    Output,
    /// The next register's initial value, or the end of them.
    Initial,
    /// The beginning of what happens at the clock.
    Always,
    /// What the next register takes, or the end of that.
    Next,
    /// The last line.
    ModuleEnd,
    /// Nothing.
    Nothing,
}

/// What was read of a module, up to the end of a line.
#[derive(Drop)]
pub(crate) struct Draft {
    pub stage: Stage,
    /// None before the first line.
    pub name: Option<Name>,
    pub ports: Ports,
    /// A value of each register's type.
    pub registers: Items<Value>,
    pub wires: Items<(Ty, Rhs)>,
    pub outs: Items<Ref>,
    /// The initial values so far.
    pub values: Items<Value>,
    pub nexts: Items<Ref>,
}

impl Draft {
    /// Nothing was read.
    pub fn new(alloc: Global) -> Draft
        ensures { result ≡ nothing_read }
    {
        Draft {
            stage: Stage::Name,
            name: None,
            ports: Ports::new(alloc),
            registers: Items::new(alloc),
            wires: Items::new(alloc),
            outs: Items::new(alloc),
            values: Items::new(alloc),
            nexts: Items::new(alloc),
        }
    }

    /// The nets that are declared.
    pub fn nets(&self) -> Nets<'_>
        ensures inputs { inputs_of result ≡ self.now.ports.inputs }
        ensures types { types_of result ≡ types_in self.now }
    {
        Nets {
            ports: &self.ports,
            regs: self.registers.as_slice(),
            wires: self.wires.as_slice(),
        }
    }

    /// The module, where the last line was read.
    pub fn whole(self) -> Option<VModule>
        ensures { MatchOption result (IsWhole self → ⊥) (λ m. IsWhole self × (m ≡ module_of self)) }
    {
        let Draft {
            stage,
            name,
            ports,
            registers: _,
            wires,
            outs,
            values,
            nexts,
        } = self;
        if stage != Stage::Nothing {
            return None;
        }
        let (inputs, outputs) = ports.into_lists();
        Some(VModule {
            name: name?,
            inputs,
            outputs,
            regs: values,
            wires,
            outs,
            nexts,
        })
    }
}
