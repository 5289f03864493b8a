//! What each instance settles to.

ghost use Rattle.std.specs.Prelude.{◌≡◌, ℕ, Some, length, slice_get};
ghost use Rattle.qz_values.specs.Types.{IsType};
ghost use Rattle.qz_values.specs.Values.{value_of, IsValue};
ghost use Rattle.qz_meaning.specs.Scenes.{default_store};
ghost use Rattle.qz_meaning.specs.Settling.{with_pending, settled, unwritten};
ghost use Rattle.qz_system.specs.declared.parts.Inst.{Inst as InstOf};
ghost use Rattle.qz_system.specs.Parts.{AreParts};
ghost use Rattle.qz_system.specs.Valuations.{Fits};
ghost use Rattle.qz_system.specs.Writers.{held};
ghost use Rattle.qz_system.specs.Rounds.{keeps, begins, stored, settles, AreSettled};

use crate::parts::{Cell, Inst, SystemParts};
use crate::permitting::store_of;
use crate::resting::living_in;
use crate::valuation::Valuation;
use crate::writers::after_value;
use qz_syntax::{Class, Later, Store};
use qz_values::{Know, Ty, Value};
use sqlite_items::at;

/// Settles each instance by the verdict on its writers.
pub(crate) fn settle_values(
    parts: &SystemParts,
    v: &Valuation,
    verdicts: &[Later],
    now: &mut [Know],
)
    requires parts { AreParts parts.now }
    requires fits { Fits parts.now v.now }
    requires verdicts { length verdicts.now ≡ length parts.now.instances }
    requires now { length now.old ≡ length parts.now.instances }
    ensures { AreSettled parts.now v.now verdicts.now now.new }
{
    for (number, one) in parts.instances.as_slice().iter().enumerate() {
        now[number] = settle(parts, v, one, verdicts[number]);
    }
}

/// What an instance settles to by the verdict on its writers.
fn settle(parts: &SystemParts, v: &Valuation, one: &Inst, writers: Later) -> Know
    requires parts { AreParts parts.now }
    requires fits { Fits parts.now v.now }
    ensures { result ≡ settles parts.now v.now one.now (held writers) }
{
    match at(parts.cells.as_slice(), one.cell as usize) {
        Some(cell) => {
            let store = begins(parts, v, one, cell);
            settle_cell(cell.class, cell.ty, store, writers)
        }
        None => Know::Unknown,
    }
}

/// The store with which an instance of a cell begins: the cell's, or a new one.
fn begins(parts: &SystemParts, v: &Valuation, one: &Inst, cell: &Cell) -> Store
    requires cell { slice_get parts.now.cells one.now.cell ≡ Some cell.now }
    requires parts { AreParts parts.now }
    requires fits { Fits parts.now v.now }
    ensures { result ≡ begins parts.now v.now one.now cell.now }
{
    if keeps(parts, v, one) {
        stored(cell.ty, store_of(v, one.cell as usize))
    } else {
        Store {
            value: Value::zero_of(cell.ty),
            pending: false,
        }
    }
}

/// Whether an instance begins with the store of its cell.
fn keeps(parts: &SystemParts, v: &Valuation, one: &Inst) -> bool
    ensures { result ≡ keeps parts.now v.now one.now }
{
    let cell = one.cell as usize;
    cell < parts.outputs.len() || (one.zero && living_in(&parts.shape, cell, &v.places).lives)
}

/// A cell's store as a store of its type.
fn stored(ty: Ty, store: (bool, u64)) -> Store
    requires { IsValue (value_of ty store.1) }
    ensures { result ≡ stored ty store }
{
    let (pending, bits) = store;
    Store {
        value: Value::new(ty, bits).unwrap(),
        pending,
    }
}

/// What a variable settles to that begins with this store, by the verdict on its writers. A pending
/// delayed value is one more writer.
fn settle_cell(class: Class, ty: Ty, store: Store, writers: Later) -> Know
    requires { IsType ty }
    ensures { result ≡ settled class ty store (with_pending store (held writers)) }
{
    match pending_with(store, writers) {
        Later::Absent => Know::Known(unwritten(class, ty, store)),
        Later::Unknown => Know::Unknown,
        Later::Known(v) => Know::Known(v),
        Later::Clash => Know::Clash,
    }
}

/// The verdict on the writers and on what is pending in the store.
fn pending_with(store: Store, writers: Later) -> Later
    ensures { held result ≡ with_pending store (held writers) }
{
    if store.pending {
        after_value(store.value, writers)
    } else {
        writers
    }
}

/// The value without a writer: an event's default, or what is kept.
fn unwritten(class: Class, ty: Ty, store: Store) -> Value
    requires { IsType ty }
    ensures { result ≡ unwritten class ty store }
{
    match class {
        Class::Event => Value::zero_of(ty),
        Class::Mem => store.value,
    }
}
