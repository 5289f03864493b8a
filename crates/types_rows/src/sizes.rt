//! How large the core tree of a long list of statements is. A node has 2 units, and one more for each loop
//! round it. The sequence and each `nothing;` are a node, an assignment is one and its value another, and
//! `halt;` is a loop, its condition and the `pause` inside the loop.

use crate::files::{B, FOUR, Row, file};
use crate::parts::Step;
use qz_syntax::{File, size};
use qz_types::{TypeRefusal, check};
use std::alloc::Global;
use std::test::Fail;

/// Bodies, each with the size of its core tree.
static SIZES: [(&[Step], u64); 2] = [
    (&[Step::Nothings(49_997), Step::Emit("o", 10)], 100_000),
    (&[Step::Nothings(49_996), Step::Halt], 100_001),
];

/// The size of a module with that body.
fn size_with(alloc: Global, steps: &[Step]) -> Result<u64, TypeRefusal> {
    let row = Row {
        protos: &[B],
        module: ("A", 1, FOUR),
        locals: &[],
        steps,
    };
    let f = file(alloc, &row)?;
    size_of(alloc, &f)
}

fn size_of(alloc: Global, f: &File) -> Result<u64, TypeRefusal> {
    let typed = check(alloc, f)?;
    Ok(size(&typed.module))
}

#[test]
fn sizes(rt: HostRuntime) -> Result<(), Fail> {
    for (steps, units) in &SIZES {
        assert_eq!(rt; size_with(rt.alloc(), steps)?, *units);
    }
    Ok(())
}
