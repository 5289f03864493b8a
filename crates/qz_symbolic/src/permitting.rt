//! Where valuations are permitted.

ghost use Rattle.std.specs.Prelude.{ℕ, ◌≡◌, ◌<◌, ◌&&◌, ◌==◌, not, IfOk, Some, length, slice_get, if◌then◌else◌};
ghost use Rattle.std.specs.List.{All, list_all};
ghost use Rattle.qz_dd.specs.Tables.{Reading, Reads, count, Extends, Carries};
ghost use Rattle.qz_rails.specs.Bits.{bits_in, number_of};
ghost use Rattle.qz_values.specs.Values.{value_of};
ghost use Rattle.qz_meaning.specs.Valuations.{is_kept_by};
ghost use Rattle.qz_tallies.specs.Stores.{AreStored};
ghost use Rattle.qz_system.specs.declared.parts.SystemParts.{SystemParts as PartsOf};
ghost use Rattle.qz_system.specs.declared.valuation.Valuation.{Valuation as ValuationOf};
ghost use Rattle.qz_system.specs.Parts.{AreParts};
ghost use Rattle.qz_system.specs.Valuations.{is_place, is_new, is_store_of, exists_at, lives_at, have_stores, is_initial, is_permitted, store_of};
ghost use Rattle.qz_symbolic.specs.Variables.{spots, AreVariables};
ghost use Rattle.qz_symbolic.specs.Views.{CarriesBit, ArePlaces, IsStoreOf, AreStoresOf, AreLives};
ghost use Rattle.qz_symbolic.specs.Permissions.{SaysPermitted};

use crate::resting::resting_in;
use crate::spelled::{lives_of, places_of, stores_of};
use crate::variables::Variables;
use qz_dd::{DdId, DdOp, Diagrams};
use qz_rails::bits::opposite;
use qz_syntax::Class;
use qz_system::{Cell, System, SystemParts};
use qz_tallies::Stored;
use std::alloc::{AllocError, Global};

/// Where the valuation that the variables spell is permitted.
pub fn permitted(
    diagrams: &mut Diagrams,
    alloc: Global,
    s: &System,
    variables: &Variables,
) -> Result<DdId, AllocError>
    requires variables { AreVariables s.now.parts variables.now }
    requires count { diagrams.old.vars ≡ variables.now.count }
    ensures extends { Extends diagrams.old diagrams.new }
    ensures below { IfOk result (λ d. d.0 < count diagrams.new) }
    ensures says { IfOk result (λ d. SaysPermitted diagrams.new s.now.parts d.0) }
{
    let parts = s.parts();
    let places = places_of(diagrams, alloc, parts)?;
    let stores = stores_of(diagrams, alloc, parts, variables)?;
    let r = permitted_by(diagrams, alloc, parts, &places, &stores)?;
    Ok(r)
}

/// The same by the numbers of the places and of the stores.
fn permitted_by(
    diagrams: &mut Diagrams,
    alloc: Global,
    parts: &SystemParts,
    places: &[DdId],
    stores: &[Stored],
) -> Result<DdId, AllocError>
    requires count { diagrams.old.vars ≡ length (spots parts.now) }
    requires places { ArePlaces diagrams.old parts.now places.now }
    requires stores { AreStoresOf diagrams.old parts.now stores.now }
    ensures extends { Extends diagrams.old diagrams.new }
    ensures below { IfOk result (λ d. d.0 < count diagrams.new) }
    ensures says { IfOk result (λ d. CarriesBit diagrams.new parts.now d.0 (λ v. is_permitted parts.now v)) }
{
    let started = diagrams.var(alloc, 0)?;
    let begun = begun(diagrams, alloc, parts, places, stores)?;
    let initial = initial(diagrams, alloc, parts, places, stores)?;
    let r = diagrams.ite(alloc, started, begun, initial)?;
    Ok(r)
}

/// Where control rests as the shape permits, or the program has ended, and each cell has a store that
/// it can have.
fn begun(
    diagrams: &mut Diagrams,
    alloc: Global,
    parts: &SystemParts,
    places: &[DdId],
    stores: &[Stored],
) -> Result<DdId, AllocError>
    requires places { ArePlaces diagrams.old parts.now places.now }
    requires stores { AreStoresOf diagrams.old parts.now stores.now }
    ensures extends { Extends diagrams.old diagrams.new }
    ensures below { IfOk result (λ d. d.0 < count diagrams.new) }
    ensures says { IfOk result (λ d. CarriesBit diagrams.new parts.now d.0 (λ v. is_place parts.now v && have_stores parts.now v 0 parts.now.cells)) }
{
    let resting = resting_in(diagrams, alloc, &parts.shape, places)?;
    let right = diagrams.apply(alloc, DdOp::Or, resting.nowhere, resting.somewhere)?;
    let lives = lives_of(diagrams, alloc, parts, places)?;
    let stored = stores_fit(diagrams, alloc, parts, &lives, stores)?;
    let r = diagrams.apply(alloc, DdOp::And, right, stored)?;
    Ok(r)
}

/// Where each cell has a store that it can have, and none where it doesn't exist.
fn stores_fit(
    diagrams: &mut Diagrams,
    alloc: Global,
    parts: &SystemParts,
    lives: &[DdId],
    stores: &[Stored],
) -> Result<DdId, AllocError>
    requires lives { AreLives diagrams.old parts.now lives.now }
    requires stores { AreStoresOf diagrams.old parts.now stores.now }
    ensures extends { Extends diagrams.old diagrams.new }
    ensures below { IfOk result (λ d. d.0 < count diagrams.new) }
    ensures says { IfOk result (λ d. CarriesBit diagrams.new parts.now d.0 (λ v. have_stores parts.now v 0 parts.now.cells)) }
{
    let mut so_far = diagrams.constant(true);
    for (n, cell) in parts.cells.as_slice().iter().enumerate() {
        let one = store_fits(diagrams, alloc, parts, n, cell, lives[n], &stores[n])?;
        so_far = diagrams.apply(alloc, DdOp::And, so_far, one)?;
    }
    Ok(so_far)
}

/// Where a cell has a store that it can have, and none where it doesn't exist; given where control
/// rests in its scope.
fn store_fits(
    diagrams: &mut Diagrams,
    alloc: Global,
    parts: &SystemParts,
    n: usize,
    cell: &Cell,
    lives: DdId,
    stored: &Stored,
) -> Result<DdId, AllocError>
    requires stored { IsStoreOf diagrams.old parts.now n cell.now stored.now }
    requires lives_below { lives.0 < count diagrams.old }
    requires lives { CarriesBit diagrams.old parts.now lives.0 (λ v. lives_at parts.now v n) }
    ensures extends { Extends diagrams.old diagrams.new }
    ensures below { IfOk result (λ d. d.0 < count diagrams.new) }
    ensures says { IfOk result (λ d. CarriesBit diagrams.new parts.now d.0 (λ v.
        if exists_at parts.now v n then is_store_of cell.now (store_of v n) else is_new (store_of v n))) }
{
    let kept = kept(diagrams, alloc, cell, stored)?;
    let new = new(diagrams, alloc, stored)?;
    let exists = exists(diagrams, parts, n, lives);
    let r = diagrams.ite(alloc, exists, kept, new)?;
    Ok(r)
}

/// Where the variable of a cell exists, given where control rests in its scope: an output always does.
fn exists(diagrams: &Diagrams, parts: &SystemParts, n: usize, lives: DdId) -> DdId
    requires lives_below { lives.0 < count diagrams.now }
    requires lives { CarriesBit diagrams.now parts.now lives.0 (λ v. lives_at parts.now v n) }
    ensures below { result.0 < count diagrams.now }
    ensures says { CarriesBit diagrams.now parts.now result.0 (λ v. exists_at parts.now v n) }
{
    if n < parts.outputs.len() {
        diagrams.constant(true)
    } else {
        lives
    }
}

/// Where it is a store that the cell can have.
fn kept(
    diagrams: &mut Diagrams,
    alloc: Global,
    cell: &Cell,
    stored: &Stored,
) -> Result<DdId, AllocError>
    requires { AreStored diagrams.old cell.now.ty stored.now }
    ensures extends { Extends diagrams.old diagrams.new }
    ensures below { IfOk result (λ d. d.0 < count diagrams.new) }
    ensures means { IfOk result (λ d. Carries diagrams.new d.0 (λ reading.
        is_store_of cell.now (reading.values stored.now.pending.0, number_of (bits_in reading stored.now.bits.items)))) }
{
    let marked = diagrams.constant(cell.marked);
    let unmarked = kept_unmarked(diagrams, alloc, cell, &stored.bits)?;
    let r = diagrams.ite(alloc, stored.pending, marked, unmarked)?;
    Ok(r)
}

/// Where a value without mark is one that the cell can have: an event has its default.
fn kept_unmarked(
    diagrams: &mut Diagrams,
    alloc: Global,
    cell: &Cell,
    bits: &[DdId],
) -> Result<DdId, AllocError>
    requires { All (λ x. x.0 < count diagrams.old) bits.now }
    ensures extends { Extends diagrams.old diagrams.new }
    ensures below { IfOk result (λ d. d.0 < count diagrams.new) }
    ensures means { IfOk result (λ d. Carries diagrams.new d.0 (λ reading.
        is_kept_by cell.now.class (value_of cell.now.ty (number_of (bits_in reading bits.now))))) }
{
    match cell.class {
        Class::Event => {
            let r = all_false(diagrams, alloc, bits)?;
            Ok(r)
        }
        Class::Mem => Ok(diagrams.constant(true)),
    }
}

/// Where it is the default without mark.
fn new(diagrams: &mut Diagrams, alloc: Global, stored: &Stored) -> Result<DdId, AllocError>
    requires pending { stored.now.pending.0 < count diagrams.old }
    requires bits { All (λ x. x.0 < count diagrams.old) stored.now.bits.items }
    ensures extends { Extends diagrams.old diagrams.new }
    ensures below { IfOk result (λ d. d.0 < count diagrams.new) }
    ensures means { IfOk result (λ d. Carries diagrams.new d.0 (λ reading.
        is_new (reading.values stored.now.pending.0, number_of (bits_in reading stored.now.bits.items)))) }
{
    let zero = all_false(diagrams, alloc, &stored.bits)?;
    let unmarked = opposite(diagrams, alloc, stored.pending)?;
    let r = diagrams.apply(alloc, DdOp::And, unmarked, zero)?;
    Ok(r)
}

/// Where all are false.
fn all_false(diagrams: &mut Diagrams, alloc: Global, numbers: &[DdId]) -> Result<DdId, AllocError>
    requires { All (λ x. x.0 < count diagrams.old) numbers.now }
    ensures extends { Extends diagrams.old diagrams.new }
    ensures below { IfOk result (λ d. d.0 < count diagrams.new) }
    ensures means { IfOk result (λ d. Carries diagrams.new d.0 (λ reading. list_all not (bits_in reading numbers.now))) }
    ensures zero { IfOk result (λ d. Carries diagrams.new d.0 (λ reading. number_of (bits_in reading numbers.now) == 0)) }
{
    let mut so_far = diagrams.constant(true);
    for number in numbers {
        let off = opposite(diagrams, alloc, *number)?;
        so_far = diagrams.apply(alloc, DdOp::And, so_far, off)?;
    }
    Ok(so_far)
}

/// Where control rests nowhere and each store is the default without mark.
fn initial(
    diagrams: &mut Diagrams,
    alloc: Global,
    parts: &SystemParts,
    places: &[DdId],
    stores: &[Stored],
) -> Result<DdId, AllocError>
    requires places { ArePlaces diagrams.old parts.now places.now }
    requires stores { AreStoresOf diagrams.old parts.now stores.now }
    ensures extends { Extends diagrams.old diagrams.new }
    ensures below { IfOk result (λ d. d.0 < count diagrams.new) }
    ensures says { IfOk result (λ d. CarriesBit diagrams.new parts.now d.0 (λ v. is_initial v)) }
{
    let nowhere = all_false(diagrams, alloc, places)?;
    let fresh = stores_are_new(diagrams, alloc, parts, stores)?;
    let r = diagrams.apply(alloc, DdOp::And, nowhere, fresh)?;
    Ok(r)
}

/// Where each store is the default without mark.
fn stores_are_new(
    diagrams: &mut Diagrams,
    alloc: Global,
    parts: &SystemParts,
    stores: &[Stored],
) -> Result<DdId, AllocError>
    requires { AreStoresOf diagrams.old parts.now stores.now }
    ensures extends { Extends diagrams.old diagrams.new }
    ensures below { IfOk result (λ d. d.0 < count diagrams.new) }
    ensures says { IfOk result (λ d. CarriesBit diagrams.new parts.now d.0 (λ v. list_all (λ store. is_new store) v.stores.items)) }
{
    let mut so_far = diagrams.constant(true);
    for (n, cell) in parts.cells.as_slice().iter().enumerate() {
        let one = new(diagrams, alloc, &stores[n])?;
        so_far = diagrams.apply(alloc, DdOp::And, so_far, one)?;
    }
    Ok(so_far)
}
