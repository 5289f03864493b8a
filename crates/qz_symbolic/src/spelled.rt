//! What the variables spell of a valuation: where control rests, and what is stored.

ghost use Rattle.std.specs.Prelude.{◌≡◌, ◌<◌, IfOk, Some, length, slice_get};
ghost use Rattle.qz_dd.specs.Tables.{Extends};
ghost use Rattle.qz_system.specs.declared.parts.SystemParts.{SystemParts as PartsOf};
ghost use Rattle.qz_system.specs.Parts.{AreParts};
ghost use Rattle.qz_symbolic.specs.Variables.{spots, AreOfCell, AreVariables};
ghost use Rattle.qz_symbolic.specs.Views.{ArePlaces, IsStoreOf, AreStoresOf, AreLives};

use crate::living::add_lives;
use crate::variables::{CellVariables, Variables};
use qz_dd::{DdId, Diagrams};
use qz_rails::variable;
use qz_system::{Cell, SystemParts};
use qz_tallies::Stored;
use std::alloc::{AllocError, Global};

/// For each place where control rests there.
pub(crate) fn places_of(
    diagrams: &mut Diagrams,
    alloc: Global,
    parts: &SystemParts,
) -> Result<Vec<DdId>, AllocError>
    requires parts { AreParts parts.now }
    requires count { diagrams.old.vars ≡ length (spots parts.now) }
    ensures extends { Extends diagrams.old diagrams.new }
    ensures places { IfOk result (λ r. ArePlaces diagrams.new parts.now r.items) }
{
    let mut all = Vec::new(alloc);
    for place in 0..parts.places.len() {
        let one = diagrams.var(alloc, place as u32 + 1)?;
        all.push(one)?;
    }
    Ok(all)
}

/// For each cell what is stored of it.
pub(crate) fn stores_of(
    diagrams: &mut Diagrams,
    alloc: Global,
    parts: &SystemParts,
    variables: &Variables,
) -> Result<Vec<Stored>, AllocError>
    requires parts { AreParts parts.now }
    requires variables { AreVariables parts.now variables.now }
    requires count { diagrams.old.vars ≡ length (spots parts.now) }
    ensures extends { Extends diagrams.old diagrams.new }
    ensures stores { IfOk result (λ r. AreStoresOf diagrams.new parts.now r.items) }
{
    let mut all = Vec::new(alloc);
    for (n, cell) in parts.cells.as_slice().iter().enumerate() {
        let one = store_of(diagrams, alloc, parts, n, cell, &variables.cells[n])?;
        all.push(one)?;
    }
    Ok(all)
}

/// What is stored of a cell.
fn store_of(
    diagrams: &mut Diagrams,
    alloc: Global,
    parts: &SystemParts,
    n: usize,
    cell: &Cell,
    own: &CellVariables,
) -> Result<Stored, AllocError>
    requires parts { AreParts parts.now }
    requires own { AreOfCell parts.now n own.now }
    requires cell { slice_get parts.now.cells n ≡ Some cell.now }
    requires count { diagrams.old.vars ≡ length (spots parts.now) }
    ensures extends { Extends diagrams.old diagrams.new }
    ensures store { IfOk result (λ r. IsStoreOf diagrams.new parts.now n cell.now r) }
{
    let pending = diagrams.var(alloc, own.mark)?;
    let rail = variable(diagrams, alloc, cell.ty, &own.bits)?;
    Ok(Stored {
        pending,
        bits: rail.bits,
    })
}

/// For each cell where control rests in its scope.
pub(crate) fn lives_of(
    diagrams: &mut Diagrams,
    alloc: Global,
    parts: &SystemParts,
    places: &[DdId],
) -> Result<Vec<DdId>, AllocError>
    requires { ArePlaces diagrams.old parts.now places.now }
    ensures extends { Extends diagrams.old diagrams.new }
    ensures lives { IfOk result (λ r. AreLives diagrams.new parts.now r.items) }
{
    let never = diagrams.constant(false);
    let mut lives = vec![in alloc; never; parts.cells.len()]?;
    add_lives(diagrams, alloc, &parts.shape, places, &mut lives)?;
    Ok(lives)
}
