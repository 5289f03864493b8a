//! Which valuations are permitted.

ghost use Rattle.std.specs.Prelude.{◌≡◌, not, if◌then◌else◌};
ghost use Rattle.std.specs.List.{list_all};
ghost use Rattle.qz_system.specs.Valuations.{is_permitted, is_place, is_initial, is_new, is_store_of, have_stores, exists_at, store_of};

use crate::parts::{Cell, SystemParts};
use crate::resting::{living_in, resting_in};
use crate::valuation::Valuation;
use qz_syntax::Class;

/// Whether a valuation is permitted.
pub(crate) fn permitted(parts: &SystemParts, v: &Valuation) -> bool
    ensures { result ≡ is_permitted parts.now v.now }
{
    if v.started {
        is_place(parts, v) && have_stores(parts, v)
    } else {
        is_initial(v)
    }
}

/// Whether control rests as the shape permits, or the program has ended.
fn is_place(parts: &SystemParts, v: &Valuation) -> bool
    ensures { result ≡ is_place parts.now v.now }
{
    let resting = resting_in(&parts.shape, &v.places);
    resting.nowhere || resting.somewhere
}

/// Whether a valuation is that before the start.
fn is_initial(v: &Valuation) -> bool
    ensures { result ≡ is_initial v.now }
{
    are_clear(&v.places) && are_new(&v.stores)
}

/// Whether no bit is set.
fn are_clear(bits: &[bool]) -> bool
    ensures { result ≡ list_all (λ bit. not bit) bits.now }
{
    bits.iter().all(|bit| !*bit)
}

/// Whether each store is the default without mark.
fn are_new(stores: &[(bool, u64)]) -> bool
    ensures { result ≡ list_all (λ store. is_new store) stores.now }
{
    stores.iter().all(|store| is_new(*store))
}

/// Whether each cell has a store that it can have, and none where it doesn't exist.
fn have_stores(parts: &SystemParts, v: &Valuation) -> bool
    ensures { result ≡ have_stores parts.now v.now 0 parts.now.cells }
{
    for (number, cell) in parts.cells.as_slice().iter().enumerate() {
        if !has_store(parts, v, number, cell) {
            return false;
        }
    }
    true
}

/// Whether the cell with this number has a store that it can have, and none where it doesn't exist.
fn has_store(parts: &SystemParts, v: &Valuation, number: usize, cell: &Cell) -> bool
    ensures { result ≡ (if exists_at parts.now v.now number then is_store_of cell.now (store_of v.now number) else is_new (store_of v.now number)) }
{
    let store = store_of(v, number);
    if exists_at(parts, v, number) {
        is_store_of(cell, store)
    } else {
        is_new(store)
    }
}

/// The store of a cell; none of a cell that isn't there.
pub(crate) fn store_of(v: &Valuation, cell: usize) -> (bool, u64)
    ensures { result ≡ store_of v.now cell }
{
    v.stores.get(cell).copied().unwrap_or((false, 0))
}

/// Whether the variable of a cell exists.
fn exists_at(parts: &SystemParts, v: &Valuation, cell: usize) -> bool
    ensures { result ≡ exists_at parts.now v.now cell }
{
    cell < parts.outputs.len() || living_in(&parts.shape, cell, &v.places).lives
}

/// Whether a variable can have the store where it exists.
fn is_store_of(cell: &Cell, store: (bool, u64)) -> bool
    ensures { result ≡ is_store_of cell.now store }
{
    let (pending, bits) = store;
    if pending {
        return cell.marked;
    }
    match cell.class {
        Class::Event => bits == 0,
        Class::Mem => true,
    }
}

/// Whether it is the default without mark.
fn is_new(store: (bool, u64)) -> bool
    ensures { result ≡ is_new store }
{
    let (pending, bits) = store;
    !pending && bits == 0
}
