//! What each register takes at the clock.

ghost use Rattle.std.specs.Prelude.{◌≡◌, ◌<◌, ◌++◌, ◌∷◌, ℕ, Bool, true, Option, IfOk, OnOk, Some, List, length, map, slice_get};
ghost use Rattle.qz_values.specs.declared.Know.{Know};
ghost use Rattle.qz_syntax.specs.declared.places.Later.{Later};
ghost use Rattle.qz_verilog.specs.Validity.{AreNetsOf, register_types};
ghost use Rattle.qz_verilog.specs.Meaning.{Nets, value_at};
ghost use Rattle.qz_system.specs.declared.parts.Cell.{Cell as CellOf};
ghost use Rattle.qz_system.specs.declared.valuation.Valuation.{Valuation};
ghost use Rattle.qz_system.specs.Parts.{AreParts};
ghost use Rattle.qz_system.specs.Nexts.{source, first_carry};
ghost use Rattle.qz_wires.specs.WireTable.{types_in, Reads, Extends};
ghost use Rattle.qz_equations.specs.declared.tallies.StoreNets.{StoreNets as StoreNetsOf};
ghost use Rattle.qz_equations.specs.Registers.{registers_at, initial_registers};
ghost use Rattle.qz_equations.specs.Tallies.{ShowsStore, IsStoreOf};
ghost use Rattle.qz_equations.specs.Ends.{AreLast, Ends, AreStores, ShowStores, coming, HaveValues, ComesNext};

use crate::carrying::{carried_stores, store_from};
use crate::ends::LastRails;
use crate::instances::cell_at;
use crate::resting::next_places;
use crate::tallies::StoreNets;
use qz_system::SystemParts;
use qz_verilog::Ref;
use qz_wires::Wires;
use std::alloc::{AllocError, Global};

/// What each register takes.
pub fn nexts(
    alloc: Global,
    wires: &mut Wires,
    parts: &SystemParts,
    last: &LastRails,
) -> Result<Vec<Ref>, AllocError>
    requires parts { AreParts parts.now }
    requires last { AreLast (types_in wires.old) parts.now last.now }
    ensures extends { OnOk result (Extends wires.old wires.new) }
    ensures typed { IfOk result (λ row. AreNetsOf (types_in wires.new) (register_types (initial_registers parts.now)) row.items) }
    ensures means { IfOk result (λ row. (settled : Nets) → Reads settled wires.new → HaveValues (types_in wires.new) settled →
        (knows : List Know) (laters : List Later) (know : ℕ → Know) → Ends parts.now settled last.now knows laters know →
        (w : Valuation) → ComesNext parts.now know knows laters w → map (value_at settled) row.items ≡ registers_at parts.now w) }
{
    let places = next_places(alloc, wires, parts, last)?;
    let stores = next_stores(alloc, wires, parts, last)?;
    let started = wires.flag(true)?;
    let row = row_of(alloc, started, &places, &stores)?;
    Ok(row)
}

/// The row of a flag, the flags of the places, the marks and the values of the stores.
fn row_of(
    alloc: Global,
    started: Ref,
    places: &[Ref],
    stores: &[StoreNets],
) -> Result<Vec<Ref>, AllocError>
    ensures { IfOk result (λ row. row.items ≡ started ∷ (places.now ++ (map (λ (s : StoreNetsOf). s.mark) stores.now ++ map (λ (s : StoreNetsOf). s.value) stores.now))) }
{
    let mut row = Vec::new(alloc);
    row.push(started)?;
    for place in places {
        row.push(*place)?;
    }
    for store in stores {
        row.push(store.mark)?;
    }
    for store in stores {
        row.push(store.value)?;
    }
    Ok(row)
}

/// The next store of each cell.
fn next_stores(
    alloc: Global,
    wires: &mut Wires,
    parts: &SystemParts,
    last: &LastRails,
) -> Result<Vec<StoreNets>, AllocError>
    requires parts { AreParts parts.now }
    requires last { AreLast (types_in wires.old) parts.now last.now }
    ensures extends { OnOk result (Extends wires.old wires.new) }
    ensures size { IfOk result (λ stores. length stores.items ≡ length parts.now.cells) }
    ensures typed { IfOk result (λ stores. AreStores (types_in wires.new) parts.now stores.items) }
    ensures means { IfOk result (λ stores. (settled : Nets) → Reads settled wires.new → (knows : List Know) (laters : List Later) (know : ℕ → Know) →
        Ends parts.now settled last.now knows laters know →
        ShowStores settled parts.now stores.items knows laters (λ n. source parts.now know n)) }
{
    let carried = carried_stores(alloc, wires, parts, last)?;
    let mut stores = Vec::new(alloc);
    for number in 0..parts.cells.len() {
        let store = next_store(wires, parts, last, &carried, number)?;
        stores.push(store)?;
    }
    Ok(stores)
}

/// The next store of a cell: an output's from its own instance, a local's as carried.
fn next_store(
    wires: &mut Wires,
    parts: &SystemParts,
    last: &LastRails,
    carried: &Vec<StoreNets>,
    number: usize,
) -> Result<StoreNets, AllocError>
    requires parts { AreParts parts.now }
    requires last { AreLast (types_in wires.old) parts.now last.now }
    requires within { number < length parts.now.cells }
    requires size { length carried.now.items ≡ length parts.now.cells }
    requires carried { AreStores (types_in wires.old) parts.now carried.now.items }
    ensures extends { OnOk result (Extends wires.old wires.new) }
    ensures typed { IfOk result (λ store. (cell : CellOf) → slice_get parts.now.cells number ≡ Some cell → IsStoreOf (types_in wires.new) cell.ty store) }
    ensures means { IfOk result (λ store. (settled : Nets) → Reads settled wires.new → (knows : List Know) (laters : List Later) (know : ℕ → Know) →
        Ends parts.now settled last.now knows laters know →
        ShowStores settled parts.now carried.now.items knows laters (λ n. first_carry know n parts.now.carries) →
        (cell : CellOf) → slice_get parts.now.cells number ≡ Some cell → ShowsStore settled store (coming knows laters cell (source parts.now know number))) }
{
    if number < parts.outputs.len() {
        let r = store_from(wires, parts, last, cell_at(parts, number), number)?;
        Ok(r)
    } else {
        Ok(carried[number])
    }
}
