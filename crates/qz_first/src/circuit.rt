//! The circuit of a module: a register for each place, and one that says that it was started.

ghost use Rattle.std.specs.Prelude.{◌≡◌, ℕ, ◌+◌, true, ◌++◌, List, [], ◌∷◌, map, length, replicate, IfOk, OnOk};
ghost use Rattle.qz_values.specs.Values.{no};
ghost use Rattle.qz_first.specs.Does.{port_of};
ghost use Rattle.qz_first.specs.Driven.{rests_as_bits, writes_as_bits, AreDriven, IsDrivenMore, DeclaresRests, DeclaresWrites, DeclaresRow};
ghost use Rattle.qz_first.specs.Implements.{Implements};
ghost use Rattle.qz_first.specs.Mirror.{mirror_of};
ghost use Rattle.qz_first.specs.RestsBelow.{rests_below};
ghost use Rattle.qz_first.specs.BitNets.{Nets, bit_at, bool_wire};
ghost use Rattle.qz_first.specs.WireTable.{Reads, Extends, Has, IsSound};

use crate::control::{enter, moves};
use crate::depth::depth;
use crate::driven::{DrivenPlace, DrivenWrite};
use crate::surface::surface;
use crate::wires::Wires;
use qz_syntax::{Formal, Module, Port, Stmt};
use qz_values::{Ty, Value};
use qz_verilog::{Ref, Rhs, VModule};
use sqlite_items::Items;
use std::alloc::{AllocError, Global};

/// The circuit that does the module.
pub fn circuit(alloc: Global, m: Module) -> Result<VModule, AllocError>
    ensures { IfOk result (λ v. Implements v m) }
{
    let places = m.labels.len();
    let mut wires = Wires::new(alloc);
    let start = wires.not(Ref::Reg(places as u64))?;
    let always = wires.constant(true)?;
    let writes = all_writes(alloc, &mut wires, &m.body, start, always)?;
    let rests = all_rests(alloc, &mut wires, &m.body, start)?;
    let outputs = ports(alloc, m.formals.as_slice())?;
    let outs = outs(alloc, &mut wires, m.formals.len(), writes.as_slice())?;
    let nexts = nexts(alloc, &mut wires, places, rests.as_slice(), always)?;
    Ok(VModule {
        name: m.name,
        inputs: Items::new(alloc),
        outputs,
        regs: initial(alloc, places)?,
        wires: bool_wires(alloc, wires.as_slice())?,
        outs: Items::from_vec(outs),
        nexts: Items::from_vec(nexts),
    })
}

/// The writes of a start, and of a resume that may act.
fn all_writes(
    alloc: Global,
    wires: &mut Wires,
    body: &Stmt,
    start: Ref,
    always: Ref,
) -> Result<Vec<DrivenWrite>, AllocError>
    ensures extends { OnOk result (Extends wires.old wires.new) }
    ensures means { IfOk result (λ writes. (nets : Nets) → Reads nets wires.new →
        writes_as_bits nets writes.items ≡ (mirror_of body.now).start (bit_at nets start)
        ++ (mirror_of body.now).resume nets.registers (bit_at nets always)) }
    ensures declares { IfOk result (λ writes. (registers : ℕ) → rests_below registers body.now ≡ true →
        IsSound registers wires.old →
        Has registers wires.old start → Has registers wires.old always →
        DeclaresWrites registers wires.new writes.items) }
{
    let mut writes = Vec::new(alloc);
    surface(wires, &mut writes, body, start)?;
    depth(wires, &mut writes, body, always)?;
    Ok(writes)
}

/// The places where control rests after a start, and after a resume.
fn all_rests(
    alloc: Global,
    wires: &mut Wires,
    body: &Stmt,
    start: Ref,
) -> Result<Vec<DrivenPlace>, AllocError>
    ensures extends { OnOk result (Extends wires.old wires.new) }
    ensures means { IfOk result (λ rests. (nets : Nets) → Reads nets wires.new →
        rests_as_bits nets rests.items ≡ (mirror_of body.now).enter (bit_at nets start)
        ++ (mirror_of body.now).move nets.registers) }
    ensures declares { IfOk result (λ rests. (registers : ℕ) → rests_below registers body.now ≡ true →
        IsSound registers wires.old →
        Has registers wires.old start → DeclaresRests registers wires.new rests.items) }
{
    let mut rests = Vec::new(alloc);
    enter(wires, &mut rests, body, start)?;
    moves(wires, &mut rests, body)?;
    Ok(rests)
}

/// A net for each of so many numbers, with no driver yet.
fn undriven(alloc: Global, wires: &mut Wires, count: usize) -> Result<Vec<Ref>, AllocError>
    ensures extends { OnOk result (Extends wires.old wires.new) }
    ensures count { IfOk result (λ row. length row.items ≡ count) }
    ensures means { IfOk result (λ row. (nets : Nets) → Reads nets wires.new → AreDriven nets [] row.items) }
    ensures declares { IfOk result (λ row. (registers : ℕ) → IsSound registers wires.old →
        DeclaresRow registers wires.new row.items) }
{
    let never = wires.constant(false)?;
    let row = vec![in alloc; never; count]?;
    Ok(row)
}

/// What drives each output: it is true where some write with a true guard makes it so.
fn outs(
    alloc: Global,
    wires: &mut Wires,
    count: usize,
    writes: &[DrivenWrite],
) -> Result<Vec<Ref>, AllocError>
    ensures extends { OnOk result (Extends wires.old wires.new) }
    ensures count { IfOk result (λ row. length row.items ≡ count) }
    ensures means { IfOk result (λ row. (nets : Nets) → Reads nets wires.new →
        AreDriven nets (writes_as_bits nets writes.now) row.items) }
    ensures declares { IfOk result (λ row. (registers : ℕ) → DeclaresWrites registers wires.old writes.now →
        DeclaresRow registers wires.new row.items) }
{
    let mut outs = undriven(alloc, wires, count)?;
    for write in writes {
        let driven = wires.and(write.guard, write.value)?;
        drive(wires, outs.as_mut_slice(), write.output as usize, driven)?;
    }
    Ok(outs)
}

/// What each place's register takes at the clock, and last that of "started".
fn nexts(
    alloc: Global,
    wires: &mut Wires,
    places: usize,
    rests: &[DrivenPlace],
    started: Ref,
) -> Result<Vec<Ref>, AllocError>
    ensures extends { OnOk result (Extends wires.old wires.new) }
    ensures means { IfOk result (λ row. (nets : Nets) → Reads nets wires.new → (places_row : List Ref)
        × (row.items ≡ places_row ++ started ∷ []) × (length places_row ≡ places)
        × AreDriven nets (rests_as_bits nets rests.now) places_row) }
    ensures count { IfOk result (λ row. length row.items ≡ places + 1) }
    ensures declares { IfOk result (λ row. (registers : ℕ) → DeclaresRests registers wires.old rests.now →
        Has registers wires.old started →
        DeclaresRow registers wires.new row.items) }
{
    let mut nexts = next_places(alloc, wires, places, rests)?;
    nexts.push(started)?;
    Ok(nexts)
}

/// What each place's register takes at the clock: whether control rests there after the step.
fn next_places(
    alloc: Global,
    wires: &mut Wires,
    places: usize,
    rests: &[DrivenPlace],
) -> Result<Vec<Ref>, AllocError>
    ensures extends { OnOk result (Extends wires.old wires.new) }
    ensures count { IfOk result (λ row. length row.items ≡ places) }
    ensures means { IfOk result (λ row. (nets : Nets) → Reads nets wires.new →
        AreDriven nets (rests_as_bits nets rests.now) row.items) }
    ensures declares { IfOk result (λ row. (registers : ℕ) → DeclaresRests registers wires.old rests.now →
        DeclaresRow registers wires.new row.items) }
{
    let mut nexts = undriven(alloc, wires, places)?;
    for rest in rests {
        drive(wires, nexts.as_mut_slice(), rest.place as usize, rest.when)?;
    }
    Ok(nexts)
}

/// One more net that drives the number's.
fn drive(wires: &mut Wires, nets: &mut [Ref], number: usize, more: Ref) -> Result<(), AllocError>
    ensures extends { OnOk result (Extends wires.old wires.new) }
    ensures means { OnOk result ((values : Nets) → Reads values wires.new →
        IsDrivenMore values number more nets.old nets.new) }
    ensures declares { OnOk result ((registers : ℕ) → Has registers wires.old more →
        DeclaresRow registers wires.old nets.old →
        DeclaresRow registers wires.new nets.new) }
{
    if number < nets.len() {
        nets[number] = wires.or(nets[number], more)?;
    }
    Ok(())
}

/// Each right side as a wire of one bit.
fn bool_wires(alloc: Global, rights: &[Rhs]) -> Result<Items<(Ty, Rhs)>, AllocError>
    ensures { IfOk result (λ wires. wires ≡ map bool_wire rights.now) }
{
    let mut wires = Items::new(alloc);
    for right in rights {
        wires.push((Ty::Bool, *right))?;
    }
    Ok(wires)
}

/// The initial values: no place has control, and nothing is started.
fn initial(alloc: Global, places: usize) -> Result<Items<Value>, AllocError>
    ensures { IfOk result (λ regs. regs ≡ replicate places no ++ no ∷ []) }
{
    let mut regs = vec![in alloc; Value::truth(false); places]?;
    regs.push(Value::truth(false))?;
    Ok(Items::from_vec(regs))
}

/// The formals as ports.
fn ports(alloc: Global, formals: &[Formal]) -> Result<Items<Port>, AllocError>
    ensures { IfOk result (λ ports. ports ≡ map port_of formals.now) }
{
    let mut ports = Items::new(alloc);
    for formal in formals {
        ports.push(Port {
            name: formal.name.clone()?,
            ty: formal.ty,
        })?;
    }
    Ok(ports)
}
