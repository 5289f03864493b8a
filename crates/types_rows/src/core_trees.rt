//! What typing gives: derived forms replaced, and places, locals, loops and calls numbered in tree order.

use crate::files::{B, FOUR, Row, file};
use crate::parts::{Locals, Step};
use crate::printed;
use qz_syntax::{File, Kind, TypeText};
use qz_types::check;
use qz_values::Op1;
use std::alloc::{AllocError, Global};
use std::test::Fail;

const PLAIN: Kind = Kind {
    weak: false,
    immediate: false,
};

const WEAK: Kind = Kind {
    weak: true,
    immediate: false,
};

const IMMEDIATE: Kind = Kind {
    weak: false,
    immediate: true,
};

const I: Step = Step::Variable("i", 11);

const Y: &[Locals] = &[(TypeText::Bool, &[("y", 40)])];

const Z: &[Locals] = &[(TypeText::Bool, &[("z", 50)])];

/// The bodies of modules with the formals `i`, `o`, `n` and `m`, each with its core tree.
static TREES: [(&[Step], &str); 22] = [
    (&[Step::Nothing], "-"),
    (&[Step::Halt], "loop0 { p0 }(true) -"),
    (&[I, Step::Await(false)], "loop0 { p0 }(!f0) l"),
    (
        &[I, Step::Await(true)],
        "if(!f0) { loop0 { p0 }(!f0) } { - } l",
    ),
    (&[Step::Emit("o", 10)], "f1 = true"),
    (&[Step::EmitNext("o", 10)], "f1 next true"),
    // A parenthesis is no node.
    (
        &[
            I,
            Step::One(Op1::Not, 20),
            Step::Paren(19),
            Step::Assign("o"),
        ],
        "f1 = !f0",
    ),
    (&[I, Step::Pause, Step::If], "if(f0) { p0 } { - } -"),
    (
        &[I, Step::Pause, Step::While],
        "if(f0) { loop0 { p0 }(f0) } { - } -",
    ),
    (&[I, Step::Pause, Step::DoWhile], "loop0 { p0 }(f0) -"),
    (&[Step::Pause, Step::Loop], "loop0 { p0 }(true) -"),
    (
        &[I, Step::Pause, Step::Every],
        "(loop0 { p0 }(!f0); loop1 { abort { (p1; loop2 { p2 }(true)) }(f0) }(true)) - - -",
    ),
    (
        &[I, Step::Pause, Step::Abort(IMMEDIATE)],
        "immediate abort { p0 }(f0) -",
    ),
    (
        &[I, Step::Pause, Step::Abort(WEAK)],
        "weak abort { p0 }(f0) -",
    ),
    (
        &[I, Step::Pause, Step::Suspend(PLAIN)],
        "suspend { p0 }(f0) -",
    ),
    // The hold place stands before the places of the body.
    (
        &[I, Step::Pause, Step::Suspend(IMMEDIATE)],
        "immediate suspend held at p0 { p1 }(f0) - -",
    ),
    (
        &[
            I,
            Step::Label("l", 50),
            Step::Label("k", 60),
            Step::Block(Y, 2),
            Step::Suspend(IMMEDIATE),
        ],
        "immediate suspend held at p0 { scope l0 { (p1; p2) } }(f0) - l k mem y",
    ),
    // A block in a block, with a local each: `y` is written in both, `z` in the inner one.
    (
        &[
            Step::Emit("z", 51),
            Step::Emit("y", 52),
            Step::Block(Z, 2),
            Step::Emit("y", 60),
            Step::Block(Y, 2),
        ],
        "scope l0 { (scope l1 { (l1 = true; l0 = true) }; l0 = true) } mem y mem z",
    ),
    (&[Step::Emit("o", 0), Step::Block(&[], 1)], "f1 = true"),
    (
        &[Step::Emit("o", 0), Step::Emit("o", 1), Step::AtOnce(2)],
        "(f1 = true || f1 = true)",
    ),
    (&[Step::AtOnce(0)], "-"),
    (
        &[
            Step::Variable("i", 20),
            Step::Variable("o", 30),
            Step::Literal(8, 200, 40),
            Step::Variable("m", 50),
            Step::Call("B", 4),
        ],
        "call0 of 0 f0 !f1 200 !f3",
    ),
];

/// The core tree of a module with that body, as a text.
fn shown(alloc: Global, steps: &[Step]) -> Result<String, AllocError> {
    let row = Row {
        protos: &[B],
        module: ("A", 1, FOUR),
        locals: &[],
        steps,
    };
    let f = file(alloc, &row)?;
    tree_of(alloc, &f)
}

fn tree_of(alloc: Global, f: &File) -> Result<String, AllocError> {
    match check(alloc, f) {
        Ok(typed) => printed::text_of(alloc, &typed.module),
        Err(refusal) => format!(in alloc; "{refusal}"),
    }
}

#[test]
fn core_trees(rt: HostRuntime) -> Result<(), Fail> {
    for (steps, row) in &TREES {
        let text = shown(rt.alloc(), steps)?;
        assert_eq!(rt; text.as_str(), *row);
    }
    Ok(())
}
