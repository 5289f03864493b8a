//! The inputs and outputs of a module.

ghost use Rattle.std.specs.Prelude.{◌≡◌, ◌↔◌, ◌<◌, ◌++◌, ◌∷◌, [], false, not, List, ℕ, length, OnOk, OnErr, IsTrue};
ghost use Rattle.qz_syntax.specs.DoubleNames.{is_among};
ghost use Rattle.qz_verilog.specs.Validity.{port_names};
ghost use Rattle.qz_vtext.specs.Names.{name_text};
ghost use Rattle.qz_vtext.specs.Spelling.{port_text};
ghost use Rattle.qz_vread.specs.Naming.{IsNamed};
ghost use Rattle.qz_vread.specs.PortLists.{no_ports};
ghost use Rattle.qz_vread.specs.Reading.{Finds};

use indexmap::IndexSet;
use qz_syntax::Port;
use sqlite_items::Items;
use std::alloc::{AllocError, Global};
use std::marker::Model;

/// Inputs and outputs. An input is found by its spelled name.
#[derive(Drop)]
pub(crate) struct Ports {
    inputs: Items<Port>,
    outputs: Items<Port>,
    /// The names as they are spelled, the inputs' first.
    names: IndexSet<Vec<u8>>,
}

impl Model for Ports {
    ghost use Rattle.std.specs.Prelude.{◌++◌, map};
    ghost use Rattle.qz_vread.specs.PortLists.{PortLists, AreSpelled};

    ghost Value = { PortLists };

    ghost view = { λ p. record { inputs = p.inputs; outputs = p.outputs } };

    ghost invariant = { λ p. AreSpelled (p.inputs ++ p.outputs) (map (λ name. name.items) p.names.keys) };
}

impl Ports {
    /// No port.
    pub fn new(alloc: Global) -> Ports
        ensures { result ≡ no_ports }
    {
        Ports {
            inputs: Items::new(alloc),
            outputs: Items::new(alloc),
            names: IndexSet::new(alloc),
        }
    }

    pub fn inputs(&self) -> &[Port]
        ensures { result.now ≡ self.now.inputs }
    {
        self.inputs.as_slice()
    }

    pub fn outputs(&self) -> &[Port]
        ensures { result.now ≡ self.now.outputs }
    {
        self.outputs.as_slice()
    }

    /// The number of the input whose spelled name this is.
    pub fn input(&self, spelled: &[u8]) -> Option<u64>
        ensures { Finds (λ n. n < length self.now.inputs) (λ n. spelled.now ≡ port_text self.now.inputs n) result }
    {
        let number = self.names.get_index_of(spelled)?;
        if number < self.inputs.len() {
            Some(number as u64)
        } else {
            None
        }
    }

    /// Whether no port has this spelled name.
    pub fn is_free(&self, spelled: &[u8]) -> bool
        ensures { (name : List ℕ) → IsNamed name → spelled.now ≡ name_text name →
            result ≡ not (is_among (port_names (self.now.inputs ++ self.now.outputs)) name) }
    {
        !self.names.contains(spelled)
    }

    /// Whether this is the spelled name of the output with this number.
    pub fn is_output(&self, number: usize, spelled: &[u8]) -> bool
        ensures { IsTrue result ↔ ((number < length self.now.outputs) × (spelled.now ≡ port_text self.now.outputs number)) }
    {
        match self.names.get_index_of(spelled) {
            Some(at) => at >= self.inputs.len() && at - self.inputs.len() == number,
            None => false,
        }
    }

    /// One input more, before there are outputs. No port has its name. Nothing changes where no memory
    /// was left.
    pub fn add_input(&mut self, alloc: Global, port: Port, spelled: &[u8]) -> Result<(), AllocError>
        requires named { IsNamed port.name }
        requires new { is_among (port_names (self.old.inputs ++ self.old.outputs)) port.name ≡ false }
        requires spelled { spelled.now ≡ name_text port.name }
        requires first { self.old.outputs ≡ [] }
        ensures ok { OnOk result (self.new ≡ record { inputs = self.old.inputs ++ port ∷ []; outputs = self.old.outputs }) }
        ensures err { OnErr result (self.new ≡ self.old) }
    {
        self.names.insert(Vec::from_slice(alloc, spelled)?)?;
        match self.inputs.push(port) {
            Ok(()) => Ok(()),
            Err(error) => {
                self.names.pop();
                Err(error)
            }
        }
    }

    /// One output more. No port has its name. Nothing changes where no memory was left.
    pub fn add_output(
        &mut self,
        alloc: Global,
        port: Port,
        spelled: &[u8],
    ) -> Result<(), AllocError>
        requires named { IsNamed port.name }
        requires new { is_among (port_names (self.old.inputs ++ self.old.outputs)) port.name ≡ false }
        requires spelled { spelled.now ≡ name_text port.name }
        ensures ok { OnOk result (self.new ≡ record { inputs = self.old.inputs; outputs = self.old.outputs ++ port ∷ [] }) }
        ensures err { OnErr result (self.new ≡ self.old) }
    {
        self.names.insert(Vec::from_slice(alloc, spelled)?)?;
        match self.outputs.push(port) {
            Ok(()) => Ok(()),
            Err(error) => {
                self.names.pop();
                Err(error)
            }
        }
    }

    /// The inputs and the outputs.
    pub fn into_lists(self) -> (Items<Port>, Items<Port>)
        ensures inputs { result.0 ≡ self.inputs }
        ensures outputs { result.1 ≡ self.outputs }
    {
        let Ports {
            inputs,
            outputs,
            names: _,
        } = self;
        (inputs, outputs)
    }
}
