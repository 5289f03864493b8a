//! The next store of each cell: an output's from its own instance, a local's from that of its first
//! carry which holds.

ghost use Rattle.std.specs.Prelude.{◌≡◌, ◌<◌, ◌==◌, ◌&&◌, ℕ, Bool, true, None, Option, IfOk, OnOk, Some, List, length, slice_get, if◌then◌else◌};
ghost use Rattle.qz_values.specs.declared.Ty.TheVariants.{Bool as Truth};
ghost use Rattle.qz_values.specs.declared.Know.{Know};
ghost use Rattle.qz_values.specs.Types.{IsType};
ghost use Rattle.qz_values.specs.Values.{is_yes};
ghost use Rattle.qz_values.specs.Knowledge.{knows_yes};
ghost use Rattle.qz_syntax.specs.declared.places.Later.{Later};
ghost use Rattle.qz_syntax.specs.declared.places.Store.{Store};
ghost use Rattle.qz_verilog.specs.Validity.{IsNetOf};
ghost use Rattle.qz_verilog.specs.Meaning.{Nets, value_at};
ghost use Rattle.qz_meaning.specs.Scenes.{store_of, default_store};
ghost use Rattle.qz_meaning.specs.Settling.{settled_later};
ghost use Rattle.qz_meaning.specs.Verdicts.{Verdict};
ghost use Rattle.qz_system.specs.declared.parts.Inst.{Inst as InstOf};
ghost use Rattle.qz_system.specs.Parts.{AreParts, is_carry_right};
ghost use Rattle.qz_system.specs.Nexts.{is_known, is_told, first_carry};
ghost use Rattle.qz_wires.specs.WireTable.{types_in, Reads, Extends};
ghost use Rattle.qz_wires.specs.Rails.{Shows, IsRail};
ghost use Rattle.qz_equations.specs.Tallies.{ShowsVerdict, IsTally, ShowsStore, IsStoreOf};
ghost use Rattle.qz_equations.specs.Ends.{AreLast, Ends, store_at, AreStores, ShowStores};

use crate::ends::LastRails;
use crate::instances::cell_at;
use crate::settling::{new_store, unwritten};
use crate::tallies::{StoreNets, Tally};
use qz_system::{Carry, Cell, SystemParts};
use qz_values::Ty;
use qz_verilog::Ref;
use qz_wires::{Rail, Wires};
use std::alloc::{AllocError, Global};

/// The next store of each cell by its carries, the first that holds being taken; a new one where none
/// does.
pub fn carried_stores(
    alloc: Global,
    wires: &mut Wires,
    parts: &SystemParts,
    last: &LastRails,
) -> Result<Vec<StoreNets>, AllocError>
    requires parts { AreParts parts.now }
    requires last { AreLast (types_in wires.old) parts.now last.now }
    ensures extends { OnOk result (Extends wires.old wires.new) }
    ensures size { IfOk result (λ stores. length stores.items ≡ length parts.now.cells) }
    ensures typed { IfOk result (λ stores. AreStores (types_in wires.new) parts.now stores.items) }
    ensures means { IfOk result (λ stores. (settled : Nets) → Reads settled wires.new → (knows : List Know) (laters : List Later) (know : ℕ → Know) →
        Ends parts.now settled last.now knows laters know →
        ShowStores settled parts.now stores.items knows laters (λ n. first_carry know n parts.now.carries)) }
{
    let mut stores = new_stores(alloc, wires, parts)?;
    let carries = parts.carries.as_slice();
    for done in 0..carries.len() {
        let carry = carries[carries.len() - 1 - done];
        add_carry(wires, parts, last, carry, &mut stores)?;
    }
    Ok(stores)
}

/// A new store for each cell.
fn new_stores(
    alloc: Global,
    wires: &mut Wires,
    parts: &SystemParts,
) -> Result<Vec<StoreNets>, AllocError>
    requires { AreParts parts.now }
    ensures extends { OnOk result (Extends wires.old wires.new) }
    ensures size { IfOk result (λ stores. length stores.items ≡ length parts.now.cells) }
    ensures typed { IfOk result (λ stores. AreStores (types_in wires.new) parts.now stores.items) }
    ensures means { IfOk result (λ stores. (settled : Nets) → Reads settled wires.new → (knows : List Know) (laters : List Later) →
        ShowStores settled parts.now stores.items knows laters (λ n. None)) }
{
    let mut stores = Vec::new(alloc);
    for cell in parts.cells.as_slice() {
        let store = new_store(wires, cell)?;
        stores.push(store)?;
    }
    Ok(stores)
}

/// Takes a carry before those that are counted.
fn add_carry(
    wires: &mut Wires,
    parts: &SystemParts,
    last: &LastRails,
    carry: Carry,
    stores: &mut Vec<StoreNets>,
) -> Result<(), AllocError>
    requires parts { AreParts parts.now }
    requires last { AreLast (types_in wires.old) parts.now last.now }
    requires carry { is_carry_right parts.now carry ≡ true }
    requires size { length stores.old.items ≡ length parts.now.cells }
    requires stores { AreStores (types_in wires.old) parts.now stores.old.items }
    ensures extends { OnOk result (Extends wires.old wires.new) }
    ensures size { OnOk result (length stores.new.items ≡ length parts.now.cells) }
    ensures typed { OnOk result (AreStores (types_in wires.new) parts.now stores.new.items) }
    ensures means { OnOk result ((settled : Nets) → Reads settled wires.new → (knows : List Know) (laters : List Later) (know : ℕ → Know) →
        Ends parts.now settled last.now knows laters know → (from : ℕ → Option ℕ) → ShowStores settled parts.now stores.old.items knows laters from →
        ShowStores settled parts.now stores.new.items knows laters
        (λ n. if (carry.cell == n) && knows_yes (know carry.when.0) then Some carry.instance else from n)) }
{
    let number = carry.cell as usize;
    let cell = cell_at(parts, number);
    let from = store_from(wires, parts, last, cell, carry.instance as usize)?;
    let holds = last.nets[carry.when.0 as usize].value;
    let store = choose_store(wires, cell.ty, holds, from, stores[number])?;
    stores[number] = store;
    Ok(())
}

/// The store that comes from an instance of a cell.
pub fn store_from(
    wires: &mut Wires,
    parts: &SystemParts,
    last: &LastRails,
    cell: &Cell,
    instance: usize,
) -> Result<StoreNets, AllocError>
    requires last { AreLast (types_in wires.old) parts.now last.now }
    requires within { instance < length parts.now.instances }
    requires cell { (one : InstOf) → slice_get parts.now.instances instance ≡ Some one → slice_get parts.now.cells one.cell ≡ Some cell.now }
    ensures extends { OnOk result (Extends wires.old wires.new) }
    ensures typed { IfOk result (λ store. IsStoreOf (types_in wires.new) cell.now.ty store) }
    ensures means { IfOk result (λ store. (settled : Nets) → Reads settled wires.new → (knows : List Know) (laters : List Later) (know : ℕ → Know) →
        Ends parts.now settled last.now knows laters know → ShowsStore settled store (store_at knows laters cell.now instance)) }
{
    let r = store_of_cell(
        wires,
        cell,
        last.instances[instance],
        last.delayed[instance],
    )?;
    Ok(r)
}

/// The store that comes from a value and the verdict on the delayed ones.
fn store_of_cell(
    wires: &mut Wires,
    cell: &Cell,
    value: Rail,
    delayed: Tally,
) -> Result<StoreNets, AllocError>
    requires value { IsRail (types_in wires.old) cell.now.ty value }
    requires delayed { IsTally (types_in wires.old) cell.now.ty delayed }
    ensures extends { OnOk result (Extends wires.old wires.new) }
    ensures typed { IfOk result (λ store. IsStoreOf (types_in wires.new) cell.now.ty store) }
    ensures means { IfOk result (λ store. (settled : Nets) → Reads settled wires.new → (k : Know) (d : Verdict) →
        Shows settled value k → ShowsVerdict settled delayed d → is_known k ≡ true → is_told (settled_later d) ≡ true →
        ShowsStore settled store (store_of cell.now.class cell.now.ty k (settled_later d))) }
{
    let kept = unwritten(wires, cell, value.value)?;
    let chosen = wires.choose(cell.ty, delayed.decided, delayed.value, kept)?;
    Ok(StoreNets {
        mark: delayed.decided,
        value: chosen,
    })
}

/// One of two stores of a type, by a flag.
fn choose_store(
    wires: &mut Wires,
    ty: Ty,
    flag: Ref,
    first: StoreNets,
    second: StoreNets,
) -> Result<StoreNets, AllocError>
    requires flag { IsNetOf (types_in wires.old) Truth flag }
    requires first { IsStoreOf (types_in wires.old) ty first }
    requires second { IsStoreOf (types_in wires.old) ty second }
    ensures extends { OnOk result (Extends wires.old wires.new) }
    ensures typed { IfOk result (λ store. IsStoreOf (types_in wires.new) ty store) }
    ensures means { IfOk result (λ store. (settled : Nets) → Reads settled wires.new → (a b : Store) →
        ShowsStore settled first a → ShowsStore settled second b →
        ShowsStore settled store (if is_yes (value_at settled flag) then a else b)) }
{
    let mark = wires.choose(Ty::Bool, flag, first.mark, second.mark)?;
    let value = wires.choose(ty, flag, first.value, second.value)?;
    Ok(StoreNets { mark, value })
}
