//! Where control rests in a shape, at every valuation at once.

ghost use Rattle.std.specs.Prelude.{◌≡◌, ◌<◌, IfOk, map, true, false};
ghost use Rattle.std.specs.List.{All};
ghost use Rattle.qz_dd.specs.Tables.{Reading, Reads, count, Extends};
ghost use Rattle.qz_system.specs.Restings.{resting, resting_of, or_in, and_in, at_place, in_one, in_some};
ghost use Rattle.qz_symbolic.specs.Placings.{value_at, IsPlacing, resting_at, CarriesResting};

use qz_dd::{DdId, DdOp, Diagrams};
use qz_rails::bits::opposite;
use qz_system::Shape;
use std::alloc::{AllocError, Global};

/// Whether control rests in a part of a program, at each valuation.
#[derive(Clone, Copy, Debug)]
pub struct Placing {
    /// Where it rests at no place of the part.
    pub nowhere: DdId,
    /// Where it rests at places of the part as the part permits.
    pub somewhere: DdId,
}

/// In a part where control never rests.
fn never(diagrams: &Diagrams) -> Placing
    ensures placing { IsPlacing diagrams.now result }
    ensures means { CarriesResting diagrams.now result (λ reading. resting true false) }
{
    Placing {
        nowhere: diagrams.constant(true),
        somewhere: diagrams.constant(false),
    }
}

/// At a place, by the numbers of all places.
fn at_place(
    diagrams: &mut Diagrams,
    alloc: Global,
    places: &[DdId],
    place: u32,
) -> Result<Placing, AllocError>
    requires places { All (λ x. x.0 < count diagrams.old) places.now }
    ensures extends { Extends diagrams.old diagrams.new }
    ensures placing { IfOk result (λ r. IsPlacing diagrams.new r) }
    ensures means { IfOk result (λ r. CarriesResting diagrams.new r (λ reading. at_place (value_at reading places.now place))) }
{
    let somewhere = number_at(diagrams, places, place);
    let nowhere = opposite(diagrams, alloc, somewhere)?;
    Ok(Placing { nowhere, somewhere })
}

/// The number that stands there; false at every valuation where there is none.
pub(crate) fn number_at(diagrams: &Diagrams, numbers: &[DdId], n: u32) -> DdId
    requires numbers { All (λ x. x.0 < count diagrams.now) numbers.now }
    ensures below { result.0 < count diagrams.now }
    ensures means { (reading : Reading) → Reads reading diagrams.now → reading.values result.0 ≡ value_at reading numbers.now n }
{
    let n = n as usize;
    if n < numbers.len() {
        numbers[n]
    } else {
        diagrams.constant(false)
    }
}

impl Placing {
    /// In this part or in the other, and not in both.
    fn or_in(
        self,
        diagrams: &mut Diagrams,
        alloc: Global,
        other: Placing,
    ) -> Result<Placing, AllocError>
        requires mine { IsPlacing diagrams.old self }
        requires other { IsPlacing diagrams.old other }
        ensures extends { Extends diagrams.old diagrams.new }
        ensures placing { IfOk result (λ r. IsPlacing diagrams.new r) }
        ensures means { IfOk result (λ r. CarriesResting diagrams.new r (λ reading. or_in (resting_at reading self) (resting_at reading other))) }
    {
        let nowhere = diagrams.apply(alloc, DdOp::And, self.nowhere, other.nowhere)?;
        let here = diagrams.apply(alloc, DdOp::And, self.somewhere, other.nowhere)?;
        let there = diagrams.apply(alloc, DdOp::And, self.nowhere, other.somewhere)?;
        let somewhere = diagrams.apply(alloc, DdOp::Or, here, there)?;
        Ok(Placing { nowhere, somewhere })
    }

    /// In this part, in the other or in both.
    fn and_in(
        self,
        diagrams: &mut Diagrams,
        alloc: Global,
        other: Placing,
    ) -> Result<Placing, AllocError>
        requires mine { IsPlacing diagrams.old self }
        requires other { IsPlacing diagrams.old other }
        ensures extends { Extends diagrams.old diagrams.new }
        ensures placing { IfOk result (λ r. IsPlacing diagrams.new r) }
        ensures means { IfOk result (λ r. CarriesResting diagrams.new r (λ reading. and_in (resting_at reading self) (resting_at reading other))) }
    {
        let nowhere = diagrams.apply(alloc, DdOp::And, self.nowhere, other.nowhere)?;
        let any = diagrams.apply(alloc, DdOp::Or, other.nowhere, other.somewhere)?;
        let here = diagrams.apply(alloc, DdOp::And, self.somewhere, any)?;
        let there = diagrams.apply(alloc, DdOp::And, self.nowhere, other.somewhere)?;
        let somewhere = diagrams.apply(alloc, DdOp::Or, here, there)?;
        Ok(Placing { nowhere, somewhere })
    }
}

/// Where control rests in a shape, by the numbers of its places.
#[cycle(rests)]
pub(crate) fn resting_in(
    diagrams: &mut Diagrams,
    alloc: Global,
    shape: &Shape,
    places: &[DdId],
) -> Result<Placing, AllocError>
    requires places { All (λ x. x.0 < count diagrams.old) places.now }
    ensures extends { Extends diagrams.old diagrams.new }
    ensures placing { IfOk result (λ r. IsPlacing diagrams.new r) }
    ensures means { IfOk result (λ r. CarriesResting diagrams.new r (λ reading. resting_of (value_at reading places.now) shape.now)) }
{
    match shape {
        Shape::Leaf => Ok(never(diagrams)),
        Shape::Place(place) => {
            let r = at_place(diagrams, alloc, places, *place)?;
            Ok(r)
        }
        Shape::Seq(parts) => {
            let r = resting_in_one(diagrams, alloc, parts.as_slice(), places)?;
            Ok(r)
        }
        Shape::Par(parts) => {
            let r = resting_in_some(diagrams, alloc, parts.as_slice(), places)?;
            Ok(r)
        }
        Shape::If(first, second) => {
            let in_first = resting_in(diagrams, alloc, first.get(), places)?;
            let in_second = resting_in(diagrams, alloc, second.get(), places)?;
            let r = in_first.or_in(diagrams, alloc, in_second)?;
            Ok(r)
        }
        Shape::Body(body) | Shape::Scope(_, body) => {
            let r = resting_in(diagrams, alloc, body.get(), places)?;
            Ok(r)
        }
        Shape::Hold(place, body) => {
            let held = at_place(diagrams, alloc, places, *place)?;
            let inside = resting_in(diagrams, alloc, body.get(), places)?;
            let r = held.or_in(diagrams, alloc, inside)?;
            Ok(r)
        }
    }
}

/// Of members of which control rests in one.
#[cycle(rests)]
fn resting_in_one(
    diagrams: &mut Diagrams,
    alloc: Global,
    parts: &[Shape],
    places: &[DdId],
) -> Result<Placing, AllocError>
    requires places { All (λ x. x.0 < count diagrams.old) places.now }
    ensures extends { Extends diagrams.old diagrams.new }
    ensures placing { IfOk result (λ r. IsPlacing diagrams.new r) }
    ensures means { IfOk result (λ r. CarriesResting diagrams.new r (λ reading. in_one (resting true false) (map (resting_of (value_at reading places.now)) parts.now))) }
{
    let mut so_far = never(diagrams);
    for part in parts {
        let one = resting_in(diagrams, alloc, part, places)?;
        so_far = so_far.or_in(diagrams, alloc, one)?;
    }
    Ok(so_far)
}

/// Of members of which control rests in at least one.
#[cycle(rests)]
fn resting_in_some(
    diagrams: &mut Diagrams,
    alloc: Global,
    parts: &[Shape],
    places: &[DdId],
) -> Result<Placing, AllocError>
    requires places { All (λ x. x.0 < count diagrams.old) places.now }
    ensures extends { Extends diagrams.old diagrams.new }
    ensures placing { IfOk result (λ r. IsPlacing diagrams.new r) }
    ensures means { IfOk result (λ r. CarriesResting diagrams.new r (λ reading. in_some (resting true false) (map (resting_of (value_at reading places.now)) parts.now))) }
{
    let mut so_far = never(diagrams);
    for part in parts {
        let one = resting_in(diagrams, alloc, part, places)?;
        so_far = so_far.and_in(diagrams, alloc, one)?;
    }
    Ok(so_far)
}
