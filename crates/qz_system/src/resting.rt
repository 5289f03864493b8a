//! Where control rests in a shape, by the bits of its places.

ghost use Rattle.std.specs.Prelude.{◌≡◌, ◌||◌, ◌&&◌, map, true, false, slice_index_or};
ghost use Rattle.qz_syntax.specs.Numbers.{contains};
ghost use Rattle.qz_system.specs.Restings.{resting_of, living_of, or_in, and_in, at_place, in_one, in_some, resting, living, beside, living_over};

use crate::shape::Shape;

/// Whether control rests in a part of a program.
#[derive(Clone, Copy, Debug)]
pub struct Resting {
    /// It rests at no place of the part.
    pub nowhere: bool,
    /// It rests at places of the part as the part permits.
    pub somewhere: bool,
}

impl Resting {
    /// Where control never rests.
    fn never() -> Resting
        ensures { result ≡ resting true false }
    {
        Resting {
            nowhere: true,
            somewhere: false,
        }
    }

    /// At a place with this bit.
    fn at(bit: bool) -> Resting
        ensures { result ≡ at_place bit }
    {
        Resting {
            nowhere: !bit,
            somewhere: bit,
        }
    }

    /// In this or in the other, and not in both.
    fn or_in(self, other: Resting) -> Resting
        ensures { result ≡ or_in self other }
    {
        Resting {
            nowhere: self.nowhere && other.nowhere,
            somewhere: (self.somewhere && other.nowhere) || (self.nowhere && other.somewhere),
        }
    }

    /// In this, in the other or in both.
    fn and_in(self, other: Resting) -> Resting
        ensures { result ≡ and_in self other }
    {
        Resting {
            nowhere: self.nowhere && other.nowhere,
            somewhere: (self.somewhere && (other.nowhere || other.somewhere))
                || (self.nowhere && other.somewhere),
        }
    }
}

/// Whether control rests in a shape, by the bits of places.
#[cycle(rests)]
pub fn resting_in(shape: &Shape, places: &[bool]) -> Resting
    ensures { result ≡ resting_of (λ n. slice_index_or places.now n false) shape.now }
{
    match shape {
        Shape::Leaf => Resting::never(),
        Shape::Place(place) => Resting::at(bit(places, *place)),
        Shape::Seq(parts) => resting_in_one(parts.as_slice(), places),
        Shape::Par(parts) => resting_in_some(parts.as_slice(), places),
        Shape::If(first, second) => {
            let in_first = resting_in(first.get(), places);
            let in_second = resting_in(second.get(), places);
            in_first.or_in(in_second)
        }
        Shape::Body(body) | Shape::Scope(_, body) => resting_in(body.get(), places),
        Shape::Hold(place, body) => Resting::at(bit(places, *place)).or_in(resting_in(
            body.get(),
            places,
        )),
    }
}

/// Of members of which control rests in one.
#[cycle(rests)]
fn resting_in_one(parts: &[Shape], places: &[bool]) -> Resting
    ensures { result ≡ in_one (resting true false) (map (resting_of (λ n. slice_index_or places.now n false)) parts.now) }
{
    let mut so_far = Resting::never();
    for part in parts {
        so_far = so_far.or_in(resting_in(part, places));
    }
    so_far
}

/// Of members of which control rests in at least one.
#[cycle(rests)]
fn resting_in_some(parts: &[Shape], places: &[bool]) -> Resting
    ensures { result ≡ in_some (resting true false) (map (resting_of (λ n. slice_index_or places.now n false)) parts.now) }
{
    let mut so_far = Resting::never();
    for part in parts {
        so_far = so_far.and_in(resting_in(part, places));
    }
    so_far
}

/// Whether control rests in a part of a program, and in the scope of a cell there.
#[derive(Clone, Copy, Debug)]
pub struct Living {
    /// It rests at some place of the part.
    pub rests: bool,
    /// It rests at some place of the part that is in the scope of the cell.
    pub lives: bool,
}

impl Living {
    /// At places that are in no scope of the cell.
    fn outside(rests: bool) -> Living
        ensures { result ≡ living rests false }
    {
        Living {
            rests,
            lives: false,
        }
    }

    /// In this or in the other.
    fn beside(self, other: Living) -> Living
        ensures { result ≡ beside self other }
    {
        Living {
            rests: self.rests || other.rests,
            lives: self.lives || other.lives,
        }
    }

    /// In a scope with this body, given whether the scope is the cell's.
    fn scoped(self, own: bool) -> Living
        ensures { result ≡ living self.rests (self.lives || (own && self.rests)) }
    {
        Living {
            rests: self.rests,
            lives: self.lives || (own && self.rests),
        }
    }
}

/// Whether control rests at a place of a shape, and whether at one in the scope of a cell.
#[cycle(lives)]
pub fn living_in(shape: &Shape, cell: usize, places: &[bool]) -> Living
    ensures { result ≡ living_of (λ n. slice_index_or places.now n false) cell shape.now }
{
    match shape {
        Shape::Leaf => Living::outside(false),
        Shape::Place(place) => Living::outside(bit(places, *place)),
        Shape::Seq(parts) | Shape::Par(parts) => living_in_any(parts.as_slice(), cell, places),
        Shape::If(first, second) => living_in(first.get(), cell, places).beside(living_in(
            second.get(),
            cell,
            places,
        )),
        Shape::Body(body) => living_in(body.get(), cell, places),
        Shape::Hold(place, body) => Living::outside(bit(places, *place)).beside(living_in(
            body.get(),
            cell,
            places,
        )),
        Shape::Scope(cells, body) => living_in(body.get(), cell, places).scoped(is_among(
            cells.as_slice(),
            cell,
        )),
    }
}

/// The same of some members.
#[cycle(lives)]
fn living_in_any(parts: &[Shape], cell: usize, places: &[bool]) -> Living
    ensures { result ≡ living_over (living false false) (map (living_of (λ n. slice_index_or places.now n false) cell) parts.now) }
{
    let mut so_far = Living::outside(false);
    for part in parts {
        so_far = so_far.beside(living_in(part, cell, places));
    }
    so_far
}

/// Whether a cell is one of these.
fn is_among(cells: &[u32], cell: usize) -> bool
    ensures { result ≡ contains cells.now cell }
{
    cells.iter().any(|one| *one as usize == cell)
}

/// The bit of a place; false where there is none.
pub(crate) fn bit(places: &[bool], place: u32) -> bool
    ensures { result ≡ slice_index_or places.now place false }
{
    places.get(place as usize).copied().unwrap_or(false)
}
