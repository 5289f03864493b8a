//! The module that does what a system does.

ghost use Rattle.std.specs.Prelude.{◌≡◌, ◌≤◌, IfOk, List, length, map, take};
ghost use Rattle.qz_verilog.specs.Validity.{IsValid};
ghost use Rattle.qz_system.specs.Parts.{AreParts};
ghost use Rattle.qz_wires.specs.WireTable.{rights};
ghost use Rattle.qz_equations.specs.Does.{DoesSystem};
ghost use Rattle.qz_equations.specs.Modules.{IsModuleOf, rail_values};

use crate::nexts::nexts;
use crate::registers::initial;
use crate::rounds::last_rails;
use qz_syntax::Port;
use qz_system::{System, SystemParts};
use qz_verilog::{Ref, VModule};
use qz_wires::{Rail, Wires};
use sqlite_items::Items;
use std::alloc::{AllocError, Global};

/// The module of a system of which each permitted valuation is definite after so many rounds.
///
/// # Errors
///
/// Want of memory alone.
pub fn equations(alloc: Global, system: &System, rounds: u32) -> Result<VModule, AllocError>
    ensures valid { IfOk result (λ m. IsValid m) }
    ensures does { IfOk result (λ m. DoesSystem system.now.parts rounds m) }
{
    let m = unrolled(alloc, system.parts(), rounds)?;
    Ok(m)
}

/// The module of the parts of a system.
fn unrolled(alloc: Global, parts: &SystemParts, rounds: u32) -> Result<VModule, AllocError>
    requires { AreParts parts.now }
    ensures valid { IfOk result (λ m. IsValid m) }
    ensures does { IfOk result (λ m. DoesSystem parts.now rounds m) }
{
    let inputs = copy_ports(alloc, parts.inputs.as_slice())?;
    let regs = Items::from_vec(initial(alloc, parts)?);
    let mut wires = Wires::new(alloc, inputs, regs);
    let last = last_rails(alloc, &mut wires, parts, rounds)?;
    let taken = nexts(alloc, &mut wires, parts, &last)?;
    let outs = values_of(alloc, &last.instances, parts.outputs.len())?;
    let m = module_of(alloc, parts, &wires, outs, taken)?;
    Ok(m)
}

/// The values of the first rails.
fn values_of(alloc: Global, rails: &[Rail], count: usize) -> Result<Vec<Ref>, AllocError>
    requires { count ≤ length rails.now }
    ensures { IfOk result (λ row. row.items ≡ rail_values (take count rails.now)) }
{
    let mut row = Vec::new(alloc);
    for rail in &rails[..count] {
        row.push(rail.value)?;
    }
    Ok(row)
}

/// The module with a system's ports and registers, and these wires.
fn module_of(
    alloc: Global,
    parts: &SystemParts,
    wires: &Wires,
    outs: Vec<Ref>,
    nexts: Vec<Ref>,
) -> Result<VModule, AllocError>
    requires { AreParts parts.now }
    ensures { IfOk result (λ m. IsModuleOf parts.now (rights wires.now) outs.items nexts.items m) }
{
    Ok(VModule {
        name: parts.name.clone()?,
        inputs: copy_ports(alloc, parts.inputs.as_slice())?,
        outputs: copy_ports(alloc, parts.outputs.as_slice())?,
        regs: Items::from_vec(initial(alloc, parts)?),
        wires: Items::from_slice(alloc, wires.as_slice())?,
        outs: Items::from_vec(outs),
        nexts: Items::from_vec(nexts),
    })
}

/// The same ports.
fn copy_ports(alloc: Global, ports: &[Port]) -> Result<Items<Port>, AllocError>
    ensures { IfOk result (λ copy. copy ≡ ports.now) }
{
    let mut copy = Vec::new(alloc);
    for port in ports {
        copy.push(copy_port(port)?)?;
    }
    Ok(Items::from_vec(copy))
}

/// The same port.
fn copy_port(port: &Port) -> Result<Port, AllocError>
    ensures { IfOk result (λ copy. copy ≡ port.now) }
{
    let name = port.name.clone()?;
    Ok(Port { name, ty: port.ty })
}
