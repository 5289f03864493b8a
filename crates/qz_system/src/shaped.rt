//! Whether a shape has each place and each cell that it must have once, in their order.

ghost use Rattle.std.specs.Prelude.{◌≡◌, ◌++◌, ◌∷◌, [], map, length, IfOk, OnOk};
ghost use Rattle.std.specs.List.{concat};
ghost use Rattle.qz_system.specs.Shapes.{shape_places, shape_cells};
ghost use Rattle.qz_system.specs.Parts.{counts_up};

use crate::parts::SystemParts;
use crate::shape::Shape;
use std::alloc::{AllocError, Global};

/// Whether the shape has each place once, in rising order.
pub(crate) fn has_places(alloc: Global, parts: &SystemParts) -> Result<bool, AllocError>
    ensures { IfOk result (λ right. right ≡ counts_up 0 (length parts.now.places) (shape_places parts.now.shape)) }
{
    let mut places = Vec::new(alloc);
    add_places(&parts.shape, &mut places)?;
    Ok(counts_up(0, parts.places.len(), &places))
}

/// Whether the shape has each cell that is no output once in a scope, in rising order.
pub(crate) fn has_cells(alloc: Global, parts: &SystemParts) -> Result<bool, AllocError>
    ensures { IfOk result (λ right. right ≡ counts_up (length parts.now.outputs) (length parts.now.cells) (shape_cells parts.now.shape)) }
{
    let mut cells = Vec::new(alloc);
    add_cells(&parts.shape, &mut cells)?;
    Ok(counts_up(parts.outputs.len(), parts.cells.len(), &cells))
}

/// Adds the places of a shape, in tree order.
#[cycle(places)]
fn add_places(shape: &Shape, places: &mut Vec<u32>) -> Result<(), AllocError>
    ensures { OnOk result (places.new.items ≡ places.old.items ++ shape_places shape.now) }
{
    match shape {
        Shape::Leaf => Ok(()),
        Shape::Place(place) => {
            places.push(*place)?;
            Ok(())
        }
        Shape::Seq(parts) | Shape::Par(parts) => add_places_of_all(parts.as_slice(), places),
        Shape::If(first, second) => {
            add_places(first.get(), places)?;
            add_places(second.get(), places)
        }
        Shape::Body(body) | Shape::Scope(_, body) => add_places(body.get(), places),
        Shape::Hold(place, body) => {
            places.push(*place)?;
            add_places(body.get(), places)
        }
    }
}

/// Adds the places of some shapes.
#[cycle(places)]
fn add_places_of_all(parts: &[Shape], places: &mut Vec<u32>) -> Result<(), AllocError>
    ensures { OnOk result (places.new.items ≡ places.old.items ++ concat (map shape_places parts.now)) }
{
    for part in parts {
        add_places(part, places)?;
    }
    Ok(())
}

/// Adds the cells of a shape's scopes, in tree order.
#[cycle(cells)]
fn add_cells(shape: &Shape, cells: &mut Vec<u32>) -> Result<(), AllocError>
    ensures { OnOk result (cells.new.items ≡ cells.old.items ++ shape_cells shape.now) }
{
    match shape {
        Shape::Leaf | Shape::Place(_) => Ok(()),
        Shape::Seq(parts) | Shape::Par(parts) => add_cells_of_all(parts.as_slice(), cells),
        Shape::If(first, second) => {
            add_cells(first.get(), cells)?;
            add_cells(second.get(), cells)
        }
        Shape::Body(body) | Shape::Hold(_, body) => add_cells(body.get(), cells),
        Shape::Scope(own, body) => {
            cells.extend_from_slice(own.as_slice())?;
            add_cells(body.get(), cells)
        }
    }
}

/// Adds the cells of the scopes of some shapes.
#[cycle(cells)]
fn add_cells_of_all(parts: &[Shape], cells: &mut Vec<u32>) -> Result<(), AllocError>
    ensures { OnOk result (cells.new.items ≡ cells.old.items ++ concat (map shape_cells parts.now)) }
{
    for part in parts {
        add_cells(part, cells)?;
    }
    Ok(())
}

/// Whether these are the numbers from one up to another, each once and in rising order.
fn counts_up(from: usize, end: usize, numbers: &[u32]) -> bool
    ensures { result ≡ counts_up from end numbers.now }
{
    let mut next = from;
    for number in numbers {
        if *number as usize != next {
            return false;
        }
        next += 1;
    }
    next == end
}
