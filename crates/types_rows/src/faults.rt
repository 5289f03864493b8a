//! What is told first against a file, and where.

use crate::files::{B, BYTE, FOUR, Formals, Head, Row, file};
use crate::parts::{Locals, Step};
use qz_syntax::{Dir, File, Kind, TypeText};
use qz_types::{Fault, TypeKind, first_fault};
use qz_values::{Op1, Op2};
use std::alloc::{AllocError, Global};
use std::test::Fail;

/// The offset and the kind of what is told first, if anything is.
type Told = Option<(u32, TypeKind)>;

/// `mem x` at 5, which each body declares.
const X: &[Locals] = &[(TypeText::Bool, &[("x", 5)])];

/// The first operand, and the second one.
const I: Step = Step::Variable("i", 20);

const N: Step = Step::Variable("n", 20);

const J: Step = Step::Variable("i", 24);

const V: Step = Step::Variable("n", 24);

const TO_M: Step = Step::Assign("m");

/// What is assigned, each in a body of its own.
static VALUES: [(&[Step], Told); 28] = [
    (&[Step::Literal(8, 255, 28), TO_M], None),
    (
        &[Step::Literal(8, 256, 28), TO_M],
        Some((28, TypeKind::LiteralRange)),
    ),
    // A literal that doesn't fit has the type of its width.
    (
        &[Step::Literal(8, 256, 28), Step::Assign("o")],
        Some((12, TypeKind::TypeDiffers)),
    ),
    (
        &[Step::Literal(65, 0, 28), TO_M],
        Some((28, TypeKind::WidthRange)),
    ),
    (
        &[Step::Literal(0, 0, 28), TO_M],
        Some((28, TypeKind::WidthRange)),
    ),
    (
        &[Step::Variable("q", 20), TO_M],
        Some((20, TypeKind::UnknownName)),
    ),
    (&[I, TO_M], Some((12, TypeKind::TypeDiffers))),
    (
        &[N, Step::One(Op1::Not, 19), TO_M],
        Some((19, TypeKind::TypeDiffers)),
    ),
    (
        &[I, Step::One(Op1::Invert, 19), TO_M],
        Some((19, TypeKind::TypeDiffers)),
    ),
    (
        &[N, J, Step::Two(Op2::Add, 22), TO_M],
        Some((22, TypeKind::TypeDiffers)),
    ),
    (
        &[N, J, Step::Two(Op2::And, 22), TO_M],
        Some((22, TypeKind::TypeDiffers)),
    ),
    (
        &[N, V, Step::Two(Op2::Imp, 22), TO_M],
        Some((22, TypeKind::TypeDiffers)),
    ),
    (
        &[N, J, Step::Two(Op2::Eq, 22), TO_M],
        Some((22, TypeKind::TypeDiffers)),
    ),
    (
        &[I, J, Step::Two(Op2::Lt, 22), TO_M],
        Some((22, TypeKind::TypeDiffers)),
    ),
    // No check is made of an operand that has no type.
    (
        &[
            N,
            Step::Variable("q", 24),
            Step::Variable("n", 26),
            Step::Choose(22),
            TO_M,
        ],
        Some((24, TypeKind::UnknownName)),
    ),
    (
        &[N, V, Step::Variable("n", 26), Step::Choose(22), TO_M],
        Some((22, TypeKind::TypeDiffers)),
    ),
    (
        &[I, V, Step::Variable("i", 26), Step::Choose(22), TO_M],
        Some((22, TypeKind::TypeDiffers)),
    ),
    (
        &[N, Step::Select(21, 7, None), TO_M],
        Some((12, TypeKind::TypeDiffers)),
    ),
    (&[N, Step::Select(21, 7, None), Step::Assign("o")], None),
    (
        &[N, Step::Select(21, 8, None), TO_M],
        Some((21, TypeKind::SliceRange)),
    ),
    (
        &[N, Step::Select(21, 7, Some(8)), TO_M],
        Some((21, TypeKind::SliceRange)),
    ),
    (
        &[N, Step::Select(21, 8, Some(7)), TO_M],
        Some((21, TypeKind::SliceRange)),
    ),
    (&[N, Step::Select(21, 7, Some(0)), TO_M], None),
    (
        &[I, Step::Select(21, 0, None), TO_M],
        Some((21, TypeKind::TypeDiffers)),
    ),
    // Together 64 bits, and then 65.
    (
        &[N, Step::Literal(56, 0, 24), Step::Join(22), TO_M],
        Some((12, TypeKind::TypeDiffers)),
    ),
    (
        &[N, Step::Literal(57, 0, 24), Step::Join(22), TO_M],
        Some((22, TypeKind::WidthRange)),
    ),
    (
        &[N, J, Step::Join(22), TO_M],
        Some((22, TypeKind::TypeDiffers)),
    ),
    (&[N, Step::Paren(19), TO_M], None),
];

const KIND: Kind = Kind {
    weak: false,
    immediate: false,
};

/// A condition that is a vector.
static CONDITIONS: [(&[Step], Told); 9] = [
    (&[I, Step::Nothing, Step::While], None),
    (
        &[N, Step::Nothing, Step::While],
        Some((10, TypeKind::TypeDiffers)),
    ),
    (
        &[N, Step::Nothing, Step::DoWhile],
        Some((10, TypeKind::TypeDiffers)),
    ),
    (
        &[N, Step::Nothing, Step::If],
        Some((10, TypeKind::TypeDiffers)),
    ),
    (
        &[N, Step::Nothing, Step::Every],
        Some((10, TypeKind::TypeDiffers)),
    ),
    (
        &[N, Step::Nothing, Step::Abort(KIND)],
        Some((10, TypeKind::TypeDiffers)),
    ),
    (
        &[N, Step::Nothing, Step::Suspend(KIND)],
        Some((10, TypeKind::TypeDiffers)),
    ),
    (&[N, Step::Await(false)], Some((10, TypeKind::TypeDiffers))),
    (&[N, Step::Await(true)], Some((10, TypeKind::TypeDiffers))),
];

const Y: &[Locals] = &[(TypeText::Bool, &[("y", 40)])];

const Z: &[Locals] = &[(TypeText::Bool, &[("z", 40)])];

const INNER_Y: &[Locals] = &[(TypeText::Bool, &[("y", 50)])];

const OTHER_Y: &[Locals] = &[(TypeText::Bool, &[("y", 60)])];

/// What is written, and the names of locals and labels.
static STATEMENTS: [(&[Step], Told); 22] = [
    (&[Step::Nothing], None),
    (&[Step::Emit("o", 10)], None),
    (&[Step::Emit("i", 10)], Some((10, TypeKind::WriteToInput))),
    (&[Step::Emit("m", 10)], Some((10, TypeKind::TypeDiffers))),
    // Two kinds at one offset.
    (&[Step::Emit("n", 10)], Some((10, TypeKind::TypeDiffers))),
    (&[Step::Emit("q", 10)], Some((10, TypeKind::UnknownName))),
    (&[I, Step::Assign("i")], Some((10, TypeKind::WriteToInput))),
    (&[I, Step::Assign("q")], Some((10, TypeKind::UnknownName))),
    // The later one has the lesser offset.
    (
        &[Step::Emit("q", 30), Step::Emit("q", 20), Step::Block(Y, 2)],
        Some((20, TypeKind::UnknownName)),
    ),
    (
        &[Step::Block(&[(TypeText::Bool, &[("o", 40)])], 0)],
        Some((40, TypeKind::DoubleName)),
    ),
    (
        &[Step::Block(&[(TypeText::Bool, &[("x", 40)])], 0)],
        Some((40, TypeKind::DoubleName)),
    ),
    (
        &[Step::Block(&[(TypeText::Bool, &[("y", 40), ("y", 45)])], 0)],
        Some((45, TypeKind::DoubleName)),
    ),
    (
        &[Step::Block(
            &[
                (TypeText::Bool, &[("y", 40)]),
                (TypeText::Bool, &[("y", 45)]),
            ],
            0,
        )],
        Some((45, TypeKind::DoubleName)),
    ),
    // One name in scopes side by side.
    (
        &[
            Step::Emit("y", 51),
            Step::Block(INNER_Y, 1),
            Step::Emit("y", 61),
            Step::Block(OTHER_Y, 1),
            Step::Block(Z, 2),
        ],
        None,
    ),
    (
        &[
            Step::Block(INNER_Y, 0),
            Step::Emit("y", 60),
            Step::Block(Z, 2),
        ],
        Some((60, TypeKind::UnknownName)),
    ),
    (
        &[
            Step::Label("l", 50),
            Step::Label("l", 60),
            Step::Block(Y, 2),
        ],
        Some((60, TypeKind::DoubleName)),
    ),
    // Labels and variables are names of two sorts.
    (
        &[
            Step::Label("l", 50),
            Step::Label("x", 60),
            Step::Block(Y, 2),
        ],
        None,
    ),
    // Nothing follows from a width out of range.
    (
        &[
            I,
            Step::Assign("y"),
            Step::Block(&[(TypeText::Bv { width: 65, at: 39 }, &[("y", 40)])], 1),
        ],
        Some((39, TypeKind::WidthRange)),
    ),
    (
        &[
            I,
            Step::Assign("y"),
            Step::Block(&[(TypeText::Bv { width: 0, at: 39 }, &[("y", 40)])], 1),
        ],
        Some((39, TypeKind::WidthRange)),
    ),
    (
        &[
            Step::Emit("y", 10),
            Step::Block(&[(TypeText::Bv { width: 64, at: 39 }, &[("y", 40)])], 1),
        ],
        Some((10, TypeKind::TypeDiffers)),
    ),
    // A local that is declared already has the type that it states.
    (
        &[
            I,
            Step::Assign("o"),
            Step::Block(&[(BYTE, &[("o", 40)])], 1),
        ],
        Some((12, TypeKind::TypeDiffers)),
    ),
    (
        &[
            N,
            Step::Assign("o"),
            Step::Block(&[(BYTE, &[("o", 40)])], 1),
        ],
        Some((40, TypeKind::DoubleName)),
    ),
];

const O: Step = Step::Variable("o", 30);

const AT_40: Step = Step::Variable("n", 40);

const M: Step = Step::Variable("m", 50);

const CALL: Step = Step::Call("B", 4);

/// Calls.
static CALLS: [(&[Step], Told); 14] = [
    (&[I, O, AT_40, M, CALL], None),
    (
        &[I, O, AT_40, M, Step::Call("C", 4)],
        Some((10, TypeKind::UnknownName)),
    ),
    (&[N, O, AT_40, M, CALL], Some((20, TypeKind::TypeDiffers))),
    // The first token of an argument is its first operand's, or an operator before it.
    (
        &[N, V, Step::Two(Op2::Add, 22), O, AT_40, M, CALL],
        Some((20, TypeKind::TypeDiffers)),
    ),
    (
        &[
            I,
            O,
            Step::Variable("i", 41),
            Step::One(Op1::Not, 40),
            M,
            CALL,
        ],
        Some((40, TypeKind::TypeDiffers)),
    ),
    // Only the count is told, and no type.
    (&[N, Step::Call("B", 1)], Some((10, TypeKind::ArgCount))),
    (
        &[N, O, AT_40, M, M, Step::Call("B", 5)],
        Some((10, TypeKind::ArgCount)),
    ),
    (
        &[I, O, Step::Paren(29), AT_40, M, CALL],
        Some((29, TypeKind::NotWritable)),
    ),
    (
        &[I, Step::Variable("i", 30), AT_40, M, CALL],
        Some((30, TypeKind::NotWritable)),
    ),
    (
        &[I, O, AT_40, Step::Literal(8, 1, 50), CALL],
        Some((50, TypeKind::NotWritable)),
    ),
    (
        &[I, Step::Variable("x", 30), AT_40, M, CALL],
        Some((30, TypeKind::ArgClass)),
    ),
    (
        &[I, Step::Variable("m", 30), AT_40, M, CALL],
        Some((30, TypeKind::TypeDiffers)),
    ),
    (
        &[I, Step::Variable("q", 30), AT_40, M, CALL],
        Some((30, TypeKind::UnknownName)),
    ),
    (
        &[Step::Variable("q", 20), O, AT_40, M, CALL],
        Some((20, TypeKind::UnknownName)),
    ),
];

const A: Head = ("A", 1, FOUR);

const TWICE: Formals = Formals::These(&[
    (Dir::In, TypeText::Bool, "a", 3),
    (Dir::In, TypeText::Bool, "a", 6),
]);

const WIDE: Formals = Formals::These(&[
    (Dir::In, TypeText::Bool, "a", 3),
    (Dir::In, TypeText::Bv { width: 0, at: 8 }, "b", 9),
]);

/// What a file declares before its body: the prototypes and the module.
static HEADS: [(&[Head], Head, Told); 10] = [
    (&[B], ("B", 1, FOUR), Some((1, TypeKind::DoubleName))),
    (&[B], ("A", 1, Formals::Many(256)), None),
    (
        &[B],
        ("A", 1, Formals::Many(257)),
        Some((256, TypeKind::TooMany)),
    ),
    (&[B], ("A", 1, TWICE), Some((6, TypeKind::DoubleName))),
    (&[B], ("A", 1, WIDE), Some((8, TypeKind::WidthRange))),
    (&[B, ("C", 2, Formals::Many(256))], A, None),
    (
        &[B, ("C", 2, Formals::Many(257))],
        A,
        Some((256, TypeKind::TooMany)),
    ),
    (&[B, ("B", 7, FOUR)], A, Some((7, TypeKind::DoubleName))),
    (&[B, ("C", 2, TWICE)], A, Some((6, TypeKind::DoubleName))),
    (&[B, ("C", 2, WIDE)], A, Some((8, TypeKind::WidthRange))),
];

/// What is told first of a file.
fn first_of(alloc: Global, row: &Row<'_>) -> Result<Told, AllocError> {
    let f = file(alloc, row)?;
    let fault = first_fault(alloc, &f)?;
    Ok(told(fault))
}

fn told(fault: Option<Fault>) -> Told {
    match fault {
        Some(fault) => Some((fault.offset, fault.kind)),
        None => None,
    }
}

/// What is told first of a module with the formals `i`, `o`, `n` and `m` and this body.
fn of_body(alloc: Global, steps: &[Step]) -> Result<Told, AllocError> {
    let row = Row {
        protos: &[B],
        module: A,
        locals: X,
        steps,
    };
    first_of(alloc, &row)
}

/// What is told first of a file with these declarations.
fn of_heads(alloc: Global, protos: &'static [Head], module: Head) -> Result<Told, AllocError> {
    let row = Row {
        protos,
        module,
        locals: X,
        steps: &[Step::Nothing],
    };
    first_of(alloc, &row)
}

#[test]
fn values(rt: HostRuntime) -> Result<(), Fail> {
    for (steps, row) in &VALUES {
        assert_eq!(rt; of_body(rt.alloc(), steps)?, *row);
    }
    Ok(())
}

#[test]
fn conditions(rt: HostRuntime) -> Result<(), Fail> {
    for (steps, row) in &CONDITIONS {
        assert_eq!(rt; of_body(rt.alloc(), steps)?, *row);
    }
    Ok(())
}

#[test]
fn statements(rt: HostRuntime) -> Result<(), Fail> {
    for (steps, row) in &STATEMENTS {
        assert_eq!(rt; of_body(rt.alloc(), steps)?, *row);
    }
    Ok(())
}

#[test]
fn calls(rt: HostRuntime) -> Result<(), Fail> {
    for (steps, row) in &CALLS {
        assert_eq!(rt; of_body(rt.alloc(), steps)?, *row);
    }
    Ok(())
}

#[test]
fn heads_of_files(rt: HostRuntime) -> Result<(), Fail> {
    for (protos, module, row) in &HEADS {
        assert_eq!(rt; of_heads(rt.alloc(), protos, *module)?, *row);
    }
    Ok(())
}
