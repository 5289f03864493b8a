//! What each instance settles to in a round.

ghost use Rattle.std.specs.Prelude.{◌≡◌, ◌<◌, ℕ, IfOk, OnOk, Some, length, slice_get};
ghost use Rattle.qz_values.specs.declared.Ty.{Ty as TyOf};
ghost use Rattle.qz_values.specs.Types.{IsType};
ghost use Rattle.qz_syntax.specs.declared.places.Store.{Store};
ghost use Rattle.qz_verilog.specs.Validity.{IsNetOf};
ghost use Rattle.qz_verilog.specs.Meaning.{Nets, value_at};
ghost use Rattle.qz_meaning.specs.Scenes.{default_store};
ghost use Rattle.qz_meaning.specs.Verdicts.{Verdict};
ghost use Rattle.qz_meaning.specs.Settling.{unwritten};
ghost use Rattle.qz_system.specs.declared.valuation.Valuation.{Valuation};
ghost use Rattle.qz_system.specs.Parts.{AreParts, instance_type};
ghost use Rattle.qz_system.specs.Rounds.{begins, settles};
ghost use Rattle.qz_wires.specs.WireTable.{types_in, Reads, Extends};
ghost use Rattle.qz_wires.specs.Rails.{Shows, ShowEach, IsRail};
ghost use Rattle.qz_equations.specs.Registers.{Holds, AreOver};
ghost use Rattle.qz_equations.specs.Tallies.{ShowsVerdict, ShowVerdicts, IsTally, ShowsStore, IsStoreOf};
ghost use Rattle.qz_equations.specs.Unrolled.{AreTallies, AreInstanceRails, is_kept, settles_at};

use crate::instances::{cell_of, instance_at};
use crate::tallies::{StoreNets, Tally, pending_with, settled};
use qz_syntax::Class;
use qz_system::{Cell, Inst, SystemParts};
use qz_values::Value;
use qz_verilog::Ref;
use qz_wires::{Rail, Wires};
use std::alloc::{AllocError, Global};

/// What each instance settles to by the verdict on its writers, by the instances' numbers.
pub fn settle_all(
    alloc: Global,
    wires: &mut Wires,
    parts: &SystemParts,
    writers: &[Tally],
) -> Result<Vec<Rail>, AllocError>
    requires parts { AreParts parts.now }
    requires over { AreOver parts.now wires.old }
    requires writers { AreTallies (types_in wires.old) parts.now writers.now }
    ensures extends { OnOk result (Extends wires.old wires.new) }
    ensures rails { IfOk result (λ rails. AreInstanceRails (types_in wires.new) parts.now rails.items) }
    ensures means { IfOk result (λ rails. (nets : Nets) → Reads nets wires.new → (v : Valuation) → Holds parts.now v nets →
        (verdicts : ℕ → Verdict) → ShowVerdicts nets writers.now verdicts →
        ShowEach nets rails.items (λ n. settles_at parts.now v n (verdicts n))) }
{
    let mut rails = Vec::new(alloc);
    for number in 0..parts.instances.len() {
        let rail = settle(wires, parts, number, writers[number])?;
        rails.push(rail)?;
    }
    Ok(rails)
}

/// What the instance with a number settles to.
fn settle(
    wires: &mut Wires,
    parts: &SystemParts,
    number: usize,
    writers: Tally,
) -> Result<Rail, AllocError>
    requires parts { AreParts parts.now }
    requires over { AreOver parts.now wires.old }
    requires within { number < length parts.now.instances }
    requires writers { (ty : TyOf) → instance_type parts.now number ≡ Some ty → IsTally (types_in wires.old) ty writers }
    ensures extends { OnOk result (Extends wires.old wires.new) }
    ensures rail { IfOk result (λ r. (ty : TyOf) → instance_type parts.now number ≡ Some ty → IsRail (types_in wires.new) ty r) }
    ensures means { IfOk result (λ r. (nets : Nets) → Reads nets wires.new → (v : Valuation) → Holds parts.now v nets →
        (k : Verdict) → ShowsVerdict nets writers k → Shows nets r (settles_at parts.now v number k)) }
{
    let one = instance_at(parts, number);
    let cell = cell_of(parts, number);
    let r = settle_cell(wires, parts, one, cell, writers)?;
    Ok(r)
}

/// What an instance of a cell settles to.
fn settle_cell(
    wires: &mut Wires,
    parts: &SystemParts,
    one: &Inst,
    cell: &Cell,
    writers: Tally,
) -> Result<Rail, AllocError>
    requires parts { AreParts parts.now }
    requires over { AreOver parts.now wires.old }
    requires cell { slice_get parts.now.cells one.now.cell ≡ Some cell.now }
    requires writers { IsTally (types_in wires.old) cell.now.ty writers }
    ensures extends { OnOk result (Extends wires.old wires.new) }
    ensures rail { IfOk result (λ r. IsRail (types_in wires.new) cell.now.ty r) }
    ensures means { IfOk result (λ r. (nets : Nets) → Reads nets wires.new → (v : Valuation) → Holds parts.now v nets →
        (k : Verdict) → ShowsVerdict nets writers k → Shows nets r (settles parts.now v one.now k)) }
{
    let store = begun(wires, parts, one, cell)?;
    let otherwise = unwritten(wires, cell, store.value)?;
    let tally = pending_with(wires, cell.ty, store, writers)?;
    let r = settled(wires, cell.ty, tally, otherwise)?;
    Ok(r)
}

/// The store with which an instance of a cell begins: what the cell's registers hold, or a new one.
fn begun(
    wires: &mut Wires,
    parts: &SystemParts,
    one: &Inst,
    cell: &Cell,
) -> Result<StoreNets, AllocError>
    requires parts { AreParts parts.now }
    requires over { AreOver parts.now wires.old }
    requires cell { slice_get parts.now.cells one.now.cell ≡ Some cell.now }
    ensures extends { OnOk result (Extends wires.old wires.new) }
    ensures store { IfOk result (λ r. IsStoreOf (types_in wires.new) cell.now.ty r) }
    ensures means { IfOk result (λ r. (nets : Nets) → Reads nets wires.new → (v : Valuation) → Holds parts.now v nets →
        ShowsStore nets r (begins parts.now v one.now cell.now)) }
{
    if is_kept(parts, one) {
        let mark = 1 + parts.places.len() + one.cell as usize;
        Ok(StoreNets {
            mark: Ref::Reg(mark as u64),
            value: Ref::Reg((mark + parts.cells.len()) as u64),
        })
    } else {
        let r = new_store(wires, cell)?;
        Ok(r)
    }
}

/// A new store of a cell's variable: its default without mark.
pub fn new_store(wires: &mut Wires, cell: &Cell) -> Result<StoreNets, AllocError>
    requires { IsType cell.now.ty }
    ensures extends { OnOk result (Extends wires.old wires.new) }
    ensures store { IfOk result (λ r. IsStoreOf (types_in wires.new) cell.now.ty r) }
    ensures means { IfOk result (λ r. (nets : Nets) → Reads nets wires.new → ShowsStore nets r (default_store cell.now.ty)) }
{
    let mark = wires.flag(false)?;
    let value = wires.constant(Value::zero_of(cell.ty))?;
    Ok(StoreNets { mark, value })
}

/// Whether an instance begins with what its cell's registers hold.
fn is_kept(parts: &SystemParts, one: &Inst) -> bool
    ensures { result ≡ is_kept parts.now one.now }
{
    (one.cell as usize) < parts.outputs.len() || one.zero
}

/// The value without a writer, of a variable of a cell that had this value: an event's default, or
/// what is kept.
pub fn unwritten(wires: &mut Wires, cell: &Cell, value: Ref) -> Result<Ref, AllocError>
    requires ty { IsType cell.now.ty }
    requires value { IsNetOf (types_in wires.old) cell.now.ty value }
    ensures extends { OnOk result (Extends wires.old wires.new) }
    ensures typed { IfOk result (λ r. IsNetOf (types_in wires.new) cell.now.ty r) }
    ensures means { IfOk result (λ r. (nets : Nets) → Reads nets wires.new → (store : Store) → value_at nets value ≡ store.value →
        value_at nets r ≡ unwritten cell.now.class cell.now.ty store) }
{
    match cell.class {
        Class::Event => {
            let r = wires.constant(Value::zero_of(cell.ty))?;
            Ok(r)
        }
        Class::Mem => Ok(value),
    }
}
