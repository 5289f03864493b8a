//! How control may rest in a program: its tree, of which only places and scopes are left.

use sqlite_items::{Boxed, Items};

/// A part of a program.
#[derive(Debug, Drop)]
pub enum Shape {
    /// Where control never rests.
    Leaf,
    /// A pause, by the number of its place.
    Place(u32),
    /// Control rests in one member.
    Seq(Items<Shape>),
    /// Control rests in at least one member.
    Par(Items<Shape>),
    /// Control rests in one side.
    If(Boxed<Shape>, Boxed<Shape>),
    /// A loop, an abort, or a suspend without a hold place.
    Body(Boxed<Shape>),
    /// A suspend with its hold place: control rests there or in the body.
    Hold(u32, Boxed<Shape>),
    /// A scope, with the numbers of its cells.
    Scope(Items<u32>, Boxed<Shape>),
}
