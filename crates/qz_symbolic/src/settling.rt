//! What instances settle to, at every valuation at once.

ghost use Rattle.std.specs.Prelude.{ℕ, ◌≡◌, ◌<◌, ◌||◌, ◌&&◌, nat_lt, IfOk, Some, length, slice_get, Bool};
ghost use Rattle.qz_dd.specs.Tables.{Reading, Reads, count, Extends, Carries};
ghost use Rattle.qz_meaning.specs.Settling.{with_pending, settled, settled_later};
ghost use Rattle.qz_rails.specs.Rails.{IsRail, CarriesKnow, know_in};
ghost use Rattle.qz_tallies.specs.Tallies.{IsTally, verdict_in};
ghost use Rattle.qz_tallies.specs.Stores.{AreStored, store_in, later_known};
ghost use Rattle.qz_system.specs.declared.parts.Cell.{Cell as CellOf};
ghost use Rattle.qz_system.specs.declared.parts.SystemParts.{SystemParts as PartsOf};
ghost use Rattle.qz_system.specs.declared.valuation.Valuation.{Valuation as ValuationOf};
ghost use Rattle.qz_system.specs.Parts.{AreParts};
ghost use Rattle.qz_system.specs.Valuations.{lives_at};
ghost use Rattle.qz_system.specs.Rounds.{keeps, begins};
ghost use Rattle.qz_symbolic.specs.Settled.{is_nobody, IsSettledBy, AreSettledBy};
ghost use Rattle.qz_symbolic.specs.Views.{Views, CarriesBit, IsStoreOf, AreStoresOf, AreLives};
ghost use Rattle.qz_symbolic.specs.Knowing.{HaveTallies};

use crate::rails::InstanceRails;
use qz_dd::{DdId, DdOp, Diagrams};
use qz_rails::bits::{chosen, opposite};
use qz_rails::{Rail, zeros};
use qz_system::{Cell, Inst, SystemParts};
use qz_tallies::{Stored, Tally};
use qz_values::Ty;
use std::alloc::{AllocError, Global};

/// What is stored of the cells, and where control rests in their scopes.
#[derive(Clone, Copy)]
pub(crate) struct Kept<'a> {
    pub stores: &'a [Stored],
    pub lives: &'a [DdId],
}

/// The tallies of each instance's acts, of those on its value and of those on its delayed value.
#[derive(Clone, Copy)]
pub(crate) struct Tallied<'a> {
    pub now: &'a [Tally],
    pub later: &'a [Tally],
}

/// The rails of each instance, by what is kept and what its acts come to.
pub(crate) fn settle_all(
    diagrams: &mut Diagrams,
    alloc: Global,
    parts: &SystemParts,
    kept: Kept,
    tallied: Tallied,
) -> Result<Vec<InstanceRails>, AllocError>
    requires parts { AreParts parts.now }
    requires stores { AreStoresOf diagrams.old parts.now kept.stores.now }
    requires lives { AreLives diagrams.old parts.now kept.lives.now }
    requires now { HaveTallies diagrams.old parts.now tallied.now.now }
    requires later { HaveTallies diagrams.old parts.now tallied.later.now }
    ensures extends { Extends diagrams.old diagrams.new }
    ensures rails { IfOk result (λ r. AreSettledBy diagrams.new parts.now tallied.entry.now.now tallied.entry.later.now r.items) }
{
    let mut all = Vec::new(alloc);
    for (n, one) in parts.instances.as_slice().iter().enumerate() {
        let rails = settle(diagrams, alloc, parts, n, one, kept, tallied)?;
        all.push(rails)?;
    }
    Ok(all)
}

/// The rails of an instance.
fn settle(
    diagrams: &mut Diagrams,
    alloc: Global,
    parts: &SystemParts,
    n: usize,
    one: &Inst,
    kept: Kept,
    tallied: Tallied,
) -> Result<InstanceRails, AllocError>
    requires parts { AreParts parts.now }
    requires one { slice_get parts.now.instances n ≡ Some one.now }
    requires stores { AreStoresOf diagrams.old parts.now kept.stores.now }
    requires lives { AreLives diagrams.old parts.now kept.lives.now }
    requires now { HaveTallies diagrams.old parts.now tallied.now.now }
    requires later { HaveTallies diagrams.old parts.now tallied.later.now }
    ensures extends { Extends diagrams.old diagrams.new }
    ensures rails { IfOk result (λ r. IsSettledBy diagrams.new parts.now n tallied.entry.now.now tallied.entry.later.now r) }
{
    let number = one.cell as usize;
    let cell = &parts.cells.as_slice()[number];
    let stored = &kept.stores[number];
    let begun = begin(
        diagrams,
        alloc,
        parts,
        one,
        cell,
        kept.lives[number],
        stored,
    )?;
    let now = settle_now(diagrams, alloc, cell, &begun, &tallied.now[n])?;
    let r = with_later(diagrams, alloc, cell.ty, now, &tallied.later[n])?;
    Ok(r)
}

/// The store with which an instance of a cell begins: the cell's, or a new one.
fn begin(
    diagrams: &mut Diagrams,
    alloc: Global,
    parts: &SystemParts,
    one: &Inst,
    cell: &Cell,
    lives: DdId,
    stored: &Stored,
) -> Result<Stored, AllocError>
    requires stored { IsStoreOf diagrams.old parts.now one.now.cell cell.now stored.now }
    requires lives_below { lives.0 < count diagrams.old }
    requires lives { CarriesBit diagrams.old parts.now lives.0 (λ v. lives_at parts.now v one.now.cell) }
    ensures extends { Extends diagrams.old diagrams.new }
    ensures stored { IfOk result (λ r. AreStored diagrams.new cell.now.ty r) }
    ensures says { IfOk result (λ r. (reading : Reading) (v : ValuationOf) → Views diagrams.new parts.now v reading →
        store_in reading cell.now.ty r ≡ begins parts.now v one.now cell.now) }
{
    let keeps = keeps(diagrams, parts, one, lives);
    let none = zeros(diagrams, alloc, cell.ty)?;
    let pending = diagrams.apply(alloc, DdOp::And, keeps, stored.pending)?;
    let bits = chosen(diagrams, alloc, keeps, &stored.bits, &none)?;
    Ok(Stored { pending, bits })
}

/// Where an instance begins with the store of its cell, given where control rests in the cell's scope.
fn keeps(diagrams: &Diagrams, parts: &SystemParts, one: &Inst, lives: DdId) -> DdId
    requires lives_below { lives.0 < count diagrams.now }
    requires lives { CarriesBit diagrams.now parts.now lives.0 (λ v. lives_at parts.now v one.now.cell) }
    ensures below { result.0 < count diagrams.now }
    ensures says { CarriesBit diagrams.now parts.now result.0 (λ v. keeps parts.now v one.now) }
{
    if (one.cell as usize) < parts.outputs.len() {
        diagrams.constant(true)
    } else if one.zero {
        lives
    } else {
        diagrams.constant(false)
    }
}

/// What a variable settles to that begins with this store. A pending delayed value is one more writer.
fn settle_now(
    diagrams: &mut Diagrams,
    alloc: Global,
    cell: &Cell,
    begun: &Stored,
    writers: &Tally,
) -> Result<Rail, AllocError>
    requires begun { AreStored diagrams.old cell.now.ty begun.now }
    requires writers { IsTally diagrams.old cell.now.ty writers.now }
    ensures extends { Extends diagrams.old diagrams.new }
    ensures rail { IfOk result (λ r. IsRail diagrams.new cell.now.ty r) }
    ensures means { IfOk result (λ r. CarriesKnow diagrams.new cell.now.ty r (λ reading.
        settled cell.now.class cell.now.ty (store_in reading cell.now.ty begun.now)
        (with_pending (store_in reading cell.now.ty begun.now) (verdict_in reading cell.now.ty writers.now)))) }
{
    let pending = Tally::of_stored(diagrams, alloc, cell.ty, begun)?;
    let all = pending.join(diagrams, alloc, cell.ty, writers)?;
    let r = all.settle(diagrams, alloc, cell.class, cell.ty, begun)?;
    Ok(r)
}

/// The rails of an instance with this value, by the writers of its delayed value.
fn with_later(
    diagrams: &mut Diagrams,
    alloc: Global,
    ty: Ty,
    now: Rail,
    writers: &Tally,
) -> Result<InstanceRails, AllocError>
    requires { IsTally diagrams.old ty writers.now }
    ensures extends { Extends diagrams.old diagrams.new }
    ensures now { IfOk result (λ r. r.now ≡ now) }
    ensures later { IfOk result (λ r. IsRail diagrams.new ty r.later) }
    ensures absent { IfOk result (λ r. r.absent.0 < count diagrams.new) }
    ensures means { IfOk result (λ r. CarriesKnow diagrams.new ty r.later (λ reading. later_known ty (settled_later (verdict_in reading ty writers.now)))) }
    ensures where_absent { IfOk result (λ r. Carries diagrams.new r.absent.0 (λ reading. is_nobody (verdict_in reading ty writers.now))) }
{
    let later = writers.settle_later(diagrams, alloc, ty)?;
    let absent = absent(diagrams, alloc, ty, writers)?;
    Ok(InstanceRails { now, later, absent })
}

/// Where no writer is enabled.
fn absent(
    diagrams: &mut Diagrams,
    alloc: Global,
    ty: Ty,
    writers: &Tally,
) -> Result<DdId, AllocError>
    requires { IsTally diagrams.old ty writers.now }
    ensures extends { Extends diagrams.old diagrams.new }
    ensures below { IfOk result (λ d. d.0 < count diagrams.new) }
    ensures means { IfOk result (λ d. Carries diagrams.new d.0 (λ reading. is_nobody (verdict_in reading ty writers.now))) }
{
    let some = diagrams.apply(alloc, DdOp::Or, writers.torn, writers.one)?;
    let none = opposite(diagrams, alloc, some)?;
    let r = diagrams.apply(alloc, DdOp::And, none, writers.nobody)?;
    Ok(r)
}
