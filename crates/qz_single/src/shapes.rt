//! The shape of a program's body.

ghost use Rattle.std.specs.Prelude.{◌≡◌, ◌+◌, map, IfOk};
ghost use Rattle.qz_closing.specs.ShapesOf.{shape_of, suspend_shape};
ghost use Rattle.qz_system.specs.declared.shape.Shape.TheVariants as shape;

use qz_syntax::Stmt;
use qz_system::Shape;
use sqlite_items::{Boxed, Items};
use std::alloc::{AllocError, Global};

/// The shape of a statement: its places and scopes. The cells of locals come after those of so many
/// outputs.
#[cycle(shapes)]
pub(crate) fn shape_of(alloc: Global, s: &Stmt, outputs: u32) -> Result<Shape, AllocError>
    ensures { IfOk result (λ it. it ≡ shape_of outputs s.now) }
{
    match s {
        Stmt::Nothing | Stmt::Assign(..) | Stmt::Delayed(..) | Stmt::Call(..) => Ok(Shape::Leaf),
        Stmt::Pause(place) => Ok(Shape::Place(*place)),
        Stmt::Seq(parts) => {
            let parts = shapes_of(alloc, parts.as_slice(), outputs)?;
            Ok(Shape::Seq(parts))
        }
        Stmt::Par(parts) => {
            let parts = shapes_of(alloc, parts.as_slice(), outputs)?;
            Ok(Shape::Par(parts))
        }
        Stmt::If(_, first, second) => {
            let first = shape_of(alloc, first.get(), outputs)?;
            let second = shape_of(alloc, second.get(), outputs)?;
            either(alloc, first, second)
        }
        Stmt::Loop(_, body, _) | Stmt::Abort(_, body, _) => {
            let body = shape_of(alloc, body.get(), outputs)?;
            round(alloc, body)
        }
        Stmt::Suspend(_, hold, body, _) => {
            let body = shape_of(alloc, body.get(), outputs)?;
            suspend_shape(alloc, *hold, body)
        }
        Stmt::Scope(locals, body) => {
            let body = shape_of(alloc, body.get(), outputs)?;
            scope(alloc, locals.as_slice(), outputs, body)
        }
        Stmt::Bind(_, body) => shape_of(alloc, body.get(), outputs),
    }
}

/// The shapes of some statements.
#[cycle(shapes)]
fn shapes_of(alloc: Global, parts: &[Stmt], outputs: u32) -> Result<Items<Shape>, AllocError>
    ensures { IfOk result (λ shapes. shapes ≡ map (shape_of outputs) parts.now) }
{
    let mut shapes = Items::new(alloc);
    for part in parts {
        shapes.push(shape_of(alloc, part, outputs)?)?;
    }
    Ok(shapes)
}

fn either(alloc: Global, first: Shape, second: Shape) -> Result<Shape, AllocError>
    ensures { IfOk result (λ it. it ≡ shape.If first second) }
{
    let first = Boxed::new(alloc, first)?;
    let second = Boxed::new(alloc, second)?;
    Ok(Shape::If(first, second))
}

fn round(alloc: Global, body: Shape) -> Result<Shape, AllocError>
    ensures { IfOk result (λ it. it ≡ shape.Body body) }
{
    let body = Boxed::new(alloc, body)?;
    Ok(Shape::Body(body))
}

/// A suspend, with its hold place if it has one.
fn suspend_shape(alloc: Global, hold: Option<u32>, body: Shape) -> Result<Shape, AllocError>
    ensures { IfOk result (λ it. it ≡ suspend_shape hold body) }
{
    let body = Boxed::new(alloc, body)?;
    match hold {
        Some(place) => Ok(Shape::Hold(place, body)),
        None => Ok(Shape::Body(body)),
    }
}

fn scope(alloc: Global, locals: &[u32], outputs: u32, body: Shape) -> Result<Shape, AllocError>
    ensures { IfOk result (λ it. it ≡ shape.Scope (map (λ n. outputs + n) locals.now) body) }
{
    let cells = cells_of(alloc, locals, outputs)?;
    let body = Boxed::new(alloc, body)?;
    Ok(Shape::Scope(cells, body))
}

/// The cells of some locals.
fn cells_of(alloc: Global, locals: &[u32], outputs: u32) -> Result<Items<u32>, AllocError>
    ensures { IfOk result (λ cells. cells ≡ map (λ n. outputs + n) locals.now) }
{
    let mut cells = Items::new(alloc);
    for local in locals {
        cells.push(sum(outputs, *local)?)?;
    }
    Ok(cells)
}

/// The sum of two numbers. Where it is too large there is no room for so many things either.
pub(crate) fn sum(a: u32, b: u32) -> Result<u32, AllocError>
    ensures { IfOk result (λ n. n ≡ a + b) }
{
    match a.checked_add(b) {
        Some(n) => Ok(n),
        None => Err(AllocError),
    }
}
