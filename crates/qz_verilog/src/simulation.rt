//! Running a module, clock by clock.

ghost use Rattle.std.specs.Prelude.{◌≡◌, ◌↔◌, IfOk, IsTrue, length, map};
ghost use Rattle.std.specs.List.{AllByRecursion};
ghost use Rattle.qz_values.specs.Types.{IsType};
ghost use Rattle.qz_values.specs.Values.{bits_of};
ghost use Rattle.qz_verilog.specs.Validity.{port_types, IsValid};
ghost use Rattle.qz_verilog.specs.Meaning.{value_at};
ghost use Rattle.qz_verilog.specs.Runs.{AreOf, IsRow, IsClock, nets_of};
ghost use Rattle.qz_verilog.specs.Simulation.{row_of, IsReady};

use crate::modules::VModule;
use crate::nets::Ref;
use crate::wires::{Nets, settle};
use qz_syntax::Port;
use qz_values::Value;
use std::alloc::{AllocError, Global};
use std::marker::Model;
use std::mem;

/// A module that runs, with what its registers hold. It keeps room for the values of one clock, so
/// that no clock needs memory.
#[derive(Drop)]
pub struct Sim {
    circuit: VModule,
    registers: Vec<Value>,
    inputs: Vec<Value>,
    wires: Vec<Value>,
    nexts: Vec<Value>,
}

impl Model for Sim {
    ghost use Rattle.qz_verilog.specs.Simulation.{SimState, IsReady};

    ghost Value = { SimState };

    ghost view = { λ s. record { circuit = s.circuit; registers = s.registers.items } };

    ghost invariant = { λ s. IsReady s.circuit s.inputs.items s.registers.items s.wires.items s.nexts.items };
}

impl Sim {
    /// A valid module before its first clock: the registers hold their initial values.
    ///
    /// # Errors
    ///
    /// Want of memory alone.
    pub fn make(alloc: Global, m: VModule) -> Result<Sim, AllocError>
        requires { IsValid m }
        ensures { IfOk result (λ sim. sim ≡ record { circuit = m; registers = m.regs }) }
    {
        let registers = Vec::from_slice(alloc, m.regs.as_slice())?;
        let inputs = blank(alloc, m.inputs.len())?;
        let wires = blank(alloc, m.wires.len())?;
        let nexts = blank(alloc, m.nexts.len())?;
        Ok(Sim {
            circuit: m,
            registers,
            inputs,
            wires,
            nexts,
        })
    }

    /// The module.
    pub fn circuit(&self) -> &VModule
        ensures { result.now ≡ self.now.circuit }
    {
        &self.circuit
    }

    /// Whether there is a number for each input, which fits the input's type.
    pub fn takes(&self, inputs: &[u64]) -> bool
        ensures { IsTrue result ↔ ((length inputs.now ≡ length self.now.circuit.inputs)
            × IsRow self.now.circuit (row_of (port_types self.now.circuit.inputs) inputs.now)) }
    {
        fit(self.circuit.inputs.as_slice(), inputs)
    }

    /// One clock. `inputs` has a number for each input, which fits the input's type. `outputs` has
    /// room for a number for each output, and gets the numbers of their values before the clock.
    pub fn clock(&mut self, inputs: &[u64], outputs: &mut [u64])
        requires inputs_count { length inputs.now ≡ length self.old.circuit.inputs }
        requires inputs_fit { IsRow self.old.circuit (row_of (port_types self.old.circuit.inputs) inputs.now) }
        requires outputs_count { length outputs.old ≡ length self.old.circuit.outputs }
        ensures clock { IsClock self.old.circuit self.old.registers (row_of (port_types self.old.circuit.inputs) inputs.now)
            (row_of (port_types self.old.circuit.outputs) outputs.new) self.new.registers }
        ensures circuit { self.new.circuit ≡ self.old.circuit }
    {
        take_inputs(self.circuit.inputs.as_slice(), inputs, &mut self.inputs);
        settle(
            &self.circuit,
            &self.registers,
            &self.inputs,
            &mut self.wires,
        );
        let nets = Nets {
            inputs: &self.inputs,
            registers: &self.registers,
            wires: &self.wires,
        };
        read_outputs(&nets, self.circuit.outs.as_slice(), outputs);
        read_nexts(&nets, self.circuit.nexts.as_slice(), &mut self.nexts);
        mem::swap(&mut self.registers, &mut self.nexts);
    }
}

/// So many values.
fn blank(alloc: Global, count: usize) -> Result<Vec<Value>, AllocError>
    ensures { IfOk result (λ values. length values.items ≡ count) }
{
    vec![in alloc; Value::truth(false); count]
}

/// Whether there is a number for each port, which fits the port's type.
fn fit(ports: &[Port], numbers: &[u64]) -> bool
    requires { AllByRecursion IsType (port_types ports.now) }
    ensures { IsTrue result ↔ ((length numbers.now ≡ length ports.now)
        × AreOf (port_types ports.now) (row_of (port_types ports.now) numbers.now)) }
{
    if numbers.len() != ports.len() {
        return false;
    }
    for (number, port) in ports.iter().enumerate() {
        if Value::new(port.ty, numbers[number]).is_none() {
            return false;
        }
    }
    true
}

/// Sets `values` to these numbers, each as a value of its input's type.
fn take_inputs(ports: &[Port], numbers: &[u64], values: &mut [Value])
    requires types { AllByRecursion IsType (port_types ports.now) }
    requires count { length numbers.now ≡ length ports.now }
    requires fit { AreOf (port_types ports.now) (row_of (port_types ports.now) numbers.now) }
    requires room { length values.old ≡ length ports.now }
    ensures { values.new ≡ row_of (port_types ports.now) numbers.now }
{
    for (number, port) in ports.iter().enumerate() {
        if let Some(value) = Value::new(port.ty, numbers[number]) {
            values[number] = value;
        }
    }
}

/// Sets `outputs` to the numbers of these nets.
fn read_outputs(nets: &Nets, sources: &[Ref], outputs: &mut [u64])
    requires { length outputs.old ≡ length sources.now }
    ensures { outputs.new ≡ map (λ net. bits_of (value_at (nets_of nets.now.registers.now nets.now.inputs.now nets.now.wires.now) net)) sources.now }
{
    for (number, source) in sources.iter().enumerate() {
        outputs[number] = nets.value(*source).bits();
    }
}

/// Sets `nexts` to the values of these nets.
fn read_nexts(nets: &Nets, sources: &[Ref], nexts: &mut [Value])
    requires { length nexts.old ≡ length sources.now }
    ensures { nexts.new ≡ map (value_at (nets_of nets.now.registers.now nets.now.inputs.now nets.now.wires.now)) sources.now }
{
    for (number, source) in sources.iter().enumerate() {
        nexts[number] = nets.value(*source);
    }
}
