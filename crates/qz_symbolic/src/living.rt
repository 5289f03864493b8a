//! In which scopes control rests, at every valuation at once.

ghost use Rattle.std.specs.Prelude.{ℕ, ◌≡◌, ◌<◌, ◌||◌, ◌&&◌, ◌==◌, IfOk, OnOk, map, false, length, List};
ghost use Rattle.std.specs.List.{All};
ghost use Rattle.qz_dd.specs.Tables.{Reading, Reads, count, Extends, Carries};
ghost use Rattle.qz_syntax.specs.Numbers.{contains};
ghost use Rattle.qz_system.specs.Restings.{living, living_of, living_over};
ghost use Rattle.qz_symbolic.specs.Placings.{value_at, CarriesRests, CarriesLives};

use crate::resting::number_at;
use qz_dd::{DdId, DdOp, Diagrams};
use qz_system::Shape;
use std::alloc::{AllocError, Global};

/// Where control rests at a place of a shape, by the numbers of its places. For each cell `lives` gets
/// the valuations at which control rests in a scope of the cell in the shape.
#[cycle(lives)]
pub(crate) fn add_lives(
    diagrams: &mut Diagrams,
    alloc: Global,
    shape: &Shape,
    places: &[DdId],
    lives: &mut [DdId],
) -> Result<DdId, AllocError>
    requires places { All (λ x. x.0 < count diagrams.old) places.now }
    requires lives { All (λ x. x.0 < count diagrams.old) lives.old }
    ensures extends { Extends diagrams.old diagrams.new }
    ensures below { IfOk result (λ d. d.0 < count diagrams.new) }
    ensures all_below { OnOk result (All (λ x. x.0 < count diagrams.new) lives.new) }
    ensures rests { IfOk result (λ d. CarriesRests diagrams.new places.now shape.now d.0) }
    ensures lives { OnOk result (CarriesLives diagrams.new places.now shape.now lives.old lives.new) }
{
    match shape {
        Shape::Leaf => Ok(diagrams.constant(false)),
        Shape::Place(place) => Ok(number_at(diagrams, places, *place)),
        Shape::Seq(parts) | Shape::Par(parts) => {
            let r = add_lives_of_all(diagrams, alloc, parts.as_slice(), places, lives)?;
            Ok(r)
        }
        Shape::If(first, second) => {
            let in_first = add_lives(diagrams, alloc, first.get(), places, lives)?;
            let in_second = add_lives(diagrams, alloc, second.get(), places, lives)?;
            let r = diagrams.apply(alloc, DdOp::Or, in_first, in_second)?;
            Ok(r)
        }
        Shape::Body(body) => {
            let r = add_lives(diagrams, alloc, body.get(), places, lives)?;
            Ok(r)
        }
        Shape::Hold(place, body) => {
            let held = number_at(diagrams, places, *place);
            let inside = add_lives(diagrams, alloc, body.get(), places, lives)?;
            let r = diagrams.apply(alloc, DdOp::Or, held, inside)?;
            Ok(r)
        }
        Shape::Scope(cells, body) => {
            let rests = add_lives(diagrams, alloc, body.get(), places, lives)?;
            mark_each(diagrams, alloc, cells.as_slice(), rests, lives)?;
            Ok(rests)
        }
    }
}

/// The same of some members.
#[cycle(lives)]
fn add_lives_of_all(
    diagrams: &mut Diagrams,
    alloc: Global,
    parts: &[Shape],
    places: &[DdId],
    lives: &mut [DdId],
) -> Result<DdId, AllocError>
    requires places { All (λ x. x.0 < count diagrams.old) places.now }
    requires lives { All (λ x. x.0 < count diagrams.old) lives.old }
    ensures extends { Extends diagrams.old diagrams.new }
    ensures below { IfOk result (λ d. d.0 < count diagrams.new) }
    ensures all_below { OnOk result (All (λ x. x.0 < count diagrams.new) lives.new) }
    ensures rests { IfOk result (λ d. (reading : Reading) → Reads reading diagrams.new → (cell : ℕ) →
        (living_over (living false false) (map (living_of (value_at reading places.now) cell) parts.now)).rests ≡ reading.values d.0) }
    ensures lives { OnOk result ((reading : Reading) → Reads reading diagrams.new → (cell : ℕ) → cell < length lives.old →
        value_at reading lives.new cell ≡ value_at reading lives.old cell ||
        (living_over (living false false) (map (living_of (value_at reading places.now) cell) parts.now)).lives) }
{
    let mut so_far = diagrams.constant(false);
    for part in parts {
        let one = add_lives(diagrams, alloc, part, places, lives)?;
        so_far = diagrams.apply(alloc, DdOp::Or, so_far, one)?;
    }
    Ok(so_far)
}

/// Control rests in a scope of these cells where `rests` is true.
fn mark_each(
    diagrams: &mut Diagrams,
    alloc: Global,
    cells: &[u32],
    rests: DdId,
    lives: &mut [DdId],
) -> Result<(), AllocError>
    requires rests { rests.0 < count diagrams.old }
    requires lives { All (λ x. x.0 < count diagrams.old) lives.old }
    ensures extends { Extends diagrams.old diagrams.new }
    ensures all_below { OnOk result (All (λ x. x.0 < count diagrams.new) lives.new) }
    ensures lives { OnOk result ((reading : Reading) → Reads reading diagrams.new → (cell : ℕ) → cell < length lives.old →
        value_at reading lives.new cell ≡ value_at reading lives.old cell || (contains cells.now cell && reading.values rests.0)) }
{
    for cell in cells {
        mark(diagrams, alloc, *cell, rests, lives)?;
    }
    Ok(())
}

/// Control rests in a scope of this cell where `rests` is true.
fn mark(
    diagrams: &mut Diagrams,
    alloc: Global,
    cell: u32,
    rests: DdId,
    lives: &mut [DdId],
) -> Result<(), AllocError>
    requires rests { rests.0 < count diagrams.old }
    requires lives { All (λ x. x.0 < count diagrams.old) lives.old }
    ensures extends { Extends diagrams.old diagrams.new }
    ensures all_below { OnOk result (All (λ x. x.0 < count diagrams.new) lives.new) }
    ensures lives { OnOk result ((reading : Reading) → Reads reading diagrams.new → (n : ℕ) → n < length lives.old →
        value_at reading lives.new n ≡ value_at reading lives.old n || ((cell == n) && reading.values rests.0)) }
{
    let cell = cell as usize;
    if cell < lives.len() {
        let before = lives[cell];
        lives[cell] = diagrams.apply(alloc, DdOp::Or, before, rests)?;
    }
    Ok(())
}
