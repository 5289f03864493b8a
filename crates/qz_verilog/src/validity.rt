//! Whether a module is valid.

ghost use Rattle.std.specs.Prelude.{◌≡◌, ◌↔◌, [], ◌++◌, ◌&&◌, map, Some, IsTrue};
ghost use Rattle.std.specs.List.{AllByRecursion};
ghost use Rattle.qz_values.specs.Types.{IsType};
ghost use Rattle.qz_values.specs.Values.{IsValue};
ghost use Rattle.qz_syntax.specs.DoubleNames.{is_among, are_distinct};
ghost use Rattle.qz_verilog.specs.Validity.{port_types, port_names, register_types, declared_types, types_of, AreWires, IsNetOf, AreNetsOf, IsValid};

use crate::declared::{Declared, is_value};
use crate::modules::VModule;
use crate::nets::{Ref, Rhs};
use qz_syntax::{Name, Port};
use qz_values::{Ty, Value, is_same_type, is_type};

/// Whether a module is valid: it can be written, and means what is written.
///
/// Names of inputs and outputs all differ; each input is of a type that there is, with a width from
/// 1 to 64; each initial value and each constant fits its type. A wire's right side reads inputs,
/// registers and earlier wires alone, its operands are of types that its operator takes, and the
/// wire is of its right side's type. There is a net for each output, of the output's type, and one
/// for each register, of the register's type.
///
/// The time is linear in the module, but for the names of inputs and outputs: each pair of them is
/// compared, since there is no memory for a table. A program has at most 512 of them.
pub fn validate(m: &VModule) -> bool
    ensures { IsTrue result ↔ IsValid m.now }
{
    declarations_fit(m.inputs.as_slice(), m.outputs.as_slice(), m.regs.as_slice()) && nets_fit(m)
}

/// Whether names differ, and inputs and registers are of types that there are.
fn declarations_fit(inputs: &[Port], outputs: &[Port], regs: &[Value]) -> bool
    ensures { IsTrue result ↔ (IsTrue (are_distinct (port_names (inputs.now ++ outputs.now)))
        × AllByRecursion IsType (port_types inputs.now) × AllByRecursion IsValue regs.now) }
{
    names_differ(inputs, outputs) && have_types(inputs) && are_values(regs)
}

/// Whether wires, outputs and registers have nets of their types.
fn nets_fit(m: &VModule) -> bool
    ensures { IsTrue result ↔ (AreWires (declared_types m.now.inputs m.now.regs []) m.now.wires
        × AreNetsOf (types_of m.now) (port_types m.now.outputs) m.now.outs
        × AreNetsOf (types_of m.now) (register_types m.now.regs) m.now.nexts) }
{
    let inputs = m.inputs.as_slice();
    let regs = m.regs.as_slice();
    let wires = m.wires.as_slice();
    let nets = Declared {
        inputs,
        regs,
        wires,
    };
    are_wires(inputs, regs, wires)
        && are_nets_of_ports(&nets, m.outputs.as_slice(), m.outs.as_slice())
        && are_nets_of_registers(&nets, regs, m.nexts.as_slice())
}

/// Whether no input and no output has the name of another.
fn names_differ(inputs: &[Port], outputs: &[Port]) -> bool
    ensures { result ≡ are_distinct (port_names (inputs.now ++ outputs.now)) }
{
    each_differs(inputs, outputs) && each_differs(outputs, &[])
}

/// Whether no port has the name of a later one, or of one of `others`.
fn each_differs(ports: &[Port], others: &[Port]) -> bool
    ensures { are_distinct (port_names (ports.now ++ others.now)) ≡ (result && are_distinct (port_names others.now)) }
{
    let mut rest = ports;
    while let Some((port, later)) = rest.split_first() {
        if is_among(later, &port.name) || is_among(others, &port.name) {
            return false;
        }
        rest = later;
    }
    true
}

/// Whether one of the ports has this name.
fn is_among(ports: &[Port], name: &Name) -> bool
    ensures { result ≡ is_among (port_names ports.now) name.now }
{
    ports.iter().any(|port| port.name == *name)
}

/// Whether each port is of a type that there is.
fn have_types(ports: &[Port]) -> bool
    ensures { IsTrue result ↔ AllByRecursion IsType (port_types ports.now) }
{
    ports.iter().all(|port| is_type(port.ty))
}

/// Whether each number fits its type.
fn are_values(values: &[Value]) -> bool
    ensures { IsTrue result ↔ AllByRecursion IsValue values.now }
{
    values.iter().all(|value| is_value(*value))
}

/// Whether each wire reads what is declared before it, and is of its right side's type.
fn are_wires(inputs: &[Port], regs: &[Value], wires: &[(Ty, Rhs)]) -> bool
    ensures { IsTrue result ↔ AreWires (declared_types inputs.now regs.now []) wires.now }
{
    for (number, (ty, right)) in wires.iter().enumerate() {
        let before = Declared {
            inputs,
            regs,
            wires: &wires[..number],
        };
        if !is_of_type(before.right_side_type(*right), *ty) {
            return false;
        }
    }
    true
}

/// Whether there is a net of its type for each port.
fn are_nets_of_ports(declared: &Declared, ports: &[Port], nets: &[Ref]) -> bool
    ensures { IsTrue result ↔ AreNetsOf (declared_types declared.now.inputs.now declared.now.regs.now declared.now.wires.now) (port_types ports.now) nets.now }
{
    if ports.len() != nets.len() {
        return false;
    }
    for (number, net) in nets.iter().enumerate() {
        if !is_of_type(declared.net_type(*net), ports[number].ty) {
            return false;
        }
    }
    true
}

/// Whether there is a net of its type for each register.
fn are_nets_of_registers(declared: &Declared, regs: &[Value], nets: &[Ref]) -> bool
    ensures { IsTrue result ↔ AreNetsOf (declared_types declared.now.inputs.now declared.now.regs.now declared.now.wires.now) (register_types regs.now) nets.now }
{
    if regs.len() != nets.len() {
        return false;
    }
    for (number, net) in nets.iter().enumerate() {
        if !is_of_type(declared.net_type(*net), regs[number].ty()) {
            return false;
        }
    }
    true
}

/// Whether what was found is this type.
fn is_of_type(found: Option<Ty>, ty: Ty) -> bool
    ensures { IsTrue result ↔ (found ≡ Some ty) }
{
    match found {
        Some(other) => is_same_type(other, ty),
        None => false,
    }
}
