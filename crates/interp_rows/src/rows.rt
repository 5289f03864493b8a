//! The programs, what they are given and what comes.

use crate::building::Part;
use crate::programs::Program;
use crate::runs::Row;
use qz_syntax::{Class, Kind, Var};
use qz_values::Ty;

const STRONG: Kind = Kind {
    weak: false,
    immediate: false,
};

const WEAK: Kind = Kind {
    weak: true,
    immediate: false,
};

const IMMEDIATE: Kind = Kind {
    weak: false,
    immediate: true,
};

const WEAK_IMMEDIATE: Kind = Kind {
    weak: true,
    immediate: true,
};

const BYTE: Ty = Ty::Bv(8);

const WORD: Ty = Ty::Bv(64);

/// The first formals, in their order, and the first local.
const F0: Var = Var::Formal(0);

const F1: Var = Var::Formal(1);

const F2: Var = Var::Formal(2);

const F3: Var = Var::Formal(3);

const X: Var = Var::Local(0);

/// `module E(event !o){ nothing; }`
pub static NOTHING: [Row; 1] = [Row {
    program: Program {
        inputs: &[],
        outputs: &[(Class::Event, Ty::Bool, "o")],
        locals: &[],
        places: 0,
        loops: 0,
        body: &[Part::Nothing],
    },
    inputs: &[&[], &[]],
    text: "0/0/",
}];

/// `loop abort { { wa: await(a); || wb: await(b); } emit(o); wr: await(r); } when(r);`
pub static ABRO: [Row; 1] = [Row {
    program: Program {
        inputs: &[
            (Class::Event, Ty::Bool, "a"),
            (Class::Event, Ty::Bool, "b"),
            (Class::Event, Ty::Bool, "r"),
        ],
        outputs: &[(Class::Event, Ty::Bool, "o")],
        locals: &[],
        places: 3,
        loops: 4,
        body: &[
            Part::True,
            Part::Read(F2),
            Part::Read(F0),
            Part::Not,
            Part::Pause(0),
            Part::Loop(1),
            Part::Read(F1),
            Part::Not,
            Part::Pause(1),
            Part::Loop(2),
            Part::Par(2),
            Part::Emit(F3),
            Part::Read(F2),
            Part::Not,
            Part::Pause(2),
            Part::Loop(3),
            Part::Seq(3),
            Part::Abort(STRONG),
            Part::Loop(0),
        ],
    },
    inputs: &[
        &[1, 0, 0],
        &[1, 0, 0],
        &[0, 1, 0],
        &[1, 1, 0],
        &[0, 0, 1],
        &[1, 1, 0],
        &[1, 1, 1],
        &[1, 1, 1],
    ],
    text: "0/0/1/0/0/1/0/0/",
}];

/// `loop { event bool x; if(x) emit o; pause; emit x; }`
pub static LOCAL: [Row; 1] = [Row {
    program: Program {
        inputs: &[],
        outputs: &[(Class::Event, Ty::Bool, "o")],
        locals: &[(Class::Event, Ty::Bool, "x")],
        places: 1,
        loops: 1,
        body: &[
            Part::True,
            Part::Read(X),
            Part::Emit(F0),
            Part::Nothing,
            Part::If,
            Part::Pause(0),
            Part::Emit(X),
            Part::Seq(3),
            Part::Scope(&[0]),
            Part::Loop(0),
        ],
    },
    inputs: &[&[], &[], &[], &[]],
    text: "0/0/0/0/",
}];

/// `loop weak abort { loop { event bool x; if(x) emit o; pause; emit x; if(x) emit p; } } when(a);`
pub static NESTED: [Row; 1] = [Row {
    program: Program {
        inputs: &[(Class::Event, Ty::Bool, "a")],
        outputs: &[(Class::Event, Ty::Bool, "o"), (Class::Event, Ty::Bool, "p")],
        locals: &[(Class::Event, Ty::Bool, "x")],
        places: 1,
        loops: 2,
        body: &[
            Part::True,
            Part::Read(F0),
            Part::True,
            Part::Read(X),
            Part::Emit(F1),
            Part::Nothing,
            Part::If,
            Part::Pause(0),
            Part::Emit(X),
            Part::Read(X),
            Part::Emit(F2),
            Part::Nothing,
            Part::If,
            Part::Seq(4),
            Part::Scope(&[0]),
            Part::Loop(1),
            Part::Abort(WEAK),
            Part::Loop(0),
        ],
    },
    inputs: &[&[0], &[0], &[1], &[0]],
    text: "0 0/0 1/0 1/0 1/",
}];

/// `{ if(i) x = y; else x = a; } || { if(i) y = a; else y = x; }`
pub static CROSSED: [Row; 1] = [Row {
    program: Program {
        inputs: &[(Class::Event, Ty::Bool, "i"), (Class::Event, Ty::Bool, "a")],
        outputs: &[(Class::Event, Ty::Bool, "x"), (Class::Event, Ty::Bool, "y")],
        locals: &[],
        places: 0,
        loops: 0,
        body: &[
            Part::Read(F0),
            Part::Read(F3),
            Part::Assign(F2),
            Part::Read(F1),
            Part::Assign(F2),
            Part::If,
            Part::Read(F0),
            Part::Read(F1),
            Part::Assign(F3),
            Part::Read(F2),
            Part::Assign(F3),
            Part::If,
            Part::Par(2),
        ],
    },
    inputs: &[&[1, 1], &[1, 1]],
    text: "1 1/0 0/",
}];

/// `next(x) = 8'd1; pause; x = 8'd2;`
pub static PENDING: [Row; 1] = [Row {
    program: Program {
        inputs: &[],
        outputs: &[(Class::Mem, BYTE, "x")],
        locals: &[],
        places: 1,
        loops: 0,
        body: &[
            Part::Number(BYTE, 1),
            Part::Delayed(F0),
            Part::Pause(0),
            Part::Number(BYTE, 2),
            Part::Assign(F0),
            Part::Seq(3),
        ],
    },
    inputs: &[&[], &[]],
    text: "0/step 2: x clash",
}];

/// `x = 8'd3; || x = 8'd3;`
pub static TWICE: [Row; 1] = [Row {
    program: Program {
        inputs: &[],
        outputs: &[(Class::Mem, BYTE, "x")],
        locals: &[],
        places: 0,
        loops: 0,
        body: &[
            Part::Number(BYTE, 3),
            Part::Assign(F0),
            Part::Number(BYTE, 3),
            Part::Assign(F0),
            Part::Par(2),
        ],
    },
    inputs: &[&[], &[]],
    text: "3/3/",
}];

/// `K abort { emit s; pause; emit d; pause; emit d; } when(a); emit t;` for a kind, with `a` in the first step
/// or in the second.
macro_rules! aborted {
    ($kind:expr, $inputs:expr, $text:expr) => {
        Row {
            program: Program {
                inputs: &[(Class::Event, Ty::Bool, "a")],
                outputs: &[
                    (Class::Event, Ty::Bool, "s"),
                    (Class::Event, Ty::Bool, "d"),
                    (Class::Event, Ty::Bool, "t"),
                ],
                locals: &[],
                places: 2,
                loops: 0,
                body: &[
                    Part::Read(F0),
                    Part::Emit(F1),
                    Part::Pause(0),
                    Part::Emit(F2),
                    Part::Pause(1),
                    Part::Emit(F2),
                    Part::Seq(5),
                    Part::Abort($kind),
                    Part::Emit(F3),
                    Part::Seq(2),
                ],
            },
            inputs: $inputs,
            text: $text,
        }
    };
}

const EARLY: [&[u64]; 4] = [&[1], &[0], &[0], &[0]];

const LATE: [&[u64]; 4] = [&[0], &[1], &[0], &[0]];

pub static ABORTS: [Row; 8] = [
    aborted!(STRONG, &EARLY, "1 0 0/0 1 0/0 1 1/0 0 0/"),
    aborted!(STRONG, &LATE, "1 0 0/0 0 1/0 0 0/0 0 0/"),
    aborted!(WEAK, &EARLY, "1 0 0/0 1 0/0 1 1/0 0 0/"),
    aborted!(WEAK, &LATE, "1 0 0/0 1 1/0 0 0/0 0 0/"),
    aborted!(IMMEDIATE, &EARLY, "0 0 1/0 0 0/0 0 0/0 0 0/"),
    aborted!(IMMEDIATE, &LATE, "1 0 0/0 0 1/0 0 0/0 0 0/"),
    aborted!(WEAK_IMMEDIATE, &EARLY, "1 0 1/0 0 0/0 0 0/0 0 0/"),
    aborted!(WEAK_IMMEDIATE, &LATE, "1 0 0/0 1 1/0 0 0/0 0 0/"),
];

/// `K suspend { n = 8'd1; pause; n = 8'd2; pause; n = 8'd3; } when(c);` for a kind.
macro_rules! suspended {
    ($kind:expr, $text:expr) => {
        Row {
            program: Program {
                inputs: &[(Class::Event, Ty::Bool, "c")],
                outputs: &[(Class::Mem, BYTE, "n")],
                locals: &[],
                places: 2,
                loops: 0,
                body: &[
                    Part::Read(F0),
                    Part::Number(BYTE, 1),
                    Part::Assign(F1),
                    Part::Pause(0),
                    Part::Number(BYTE, 2),
                    Part::Assign(F1),
                    Part::Pause(1),
                    Part::Number(BYTE, 3),
                    Part::Assign(F1),
                    Part::Seq(5),
                    Part::Suspend($kind, None),
                ],
            },
            inputs: &[&[0], &[1], &[1], &[0], &[0]],
            text: $text,
        }
    };
}

/// `weak immediate suspend { event bool x; if(x) emit p; emit o; pause; emit x; if(x) emit p; } when(c);`
const HELD: Row = Row {
    program: Program {
        inputs: &[(Class::Event, Ty::Bool, "c")],
        outputs: &[(Class::Event, Ty::Bool, "o"), (Class::Event, Ty::Bool, "p")],
        locals: &[(Class::Event, Ty::Bool, "x")],
        places: 2,
        loops: 0,
        body: &[
            Part::Read(F0),
            Part::Read(X),
            Part::Emit(F2),
            Part::Nothing,
            Part::If,
            Part::Emit(F1),
            Part::Pause(1),
            Part::Emit(X),
            Part::Read(X),
            Part::Emit(F2),
            Part::Nothing,
            Part::If,
            Part::Seq(5),
            Part::Scope(&[0]),
            Part::Suspend(WEAK_IMMEDIATE, Some(0)),
        ],
    },
    inputs: &[&[1], &[1], &[0], &[0], &[0]],
    text: "1 0/1 0/1 0/0 1/0 0/",
};

pub static SUSPENDS: [Row; 3] = [
    HELD,
    suspended!(WEAK, "1/2/2/2/3/"),
    suspended!(STRONG, "1/1/1/2/3/"),
];

/// `x = 64'd18446744073709551615; next(x) = x + 64'd1; pause;`
pub static OVERFLOW: [Row; 1] = [Row {
    program: Program {
        inputs: &[],
        outputs: &[(Class::Mem, WORD, "x")],
        locals: &[],
        places: 1,
        loops: 0,
        body: &[
            Part::Number(WORD, u64::MAX),
            Part::Assign(F0),
            Part::Read(F0),
            Part::Number(WORD, 1),
            Part::Add,
            Part::Delayed(F0),
            Part::Pause(0),
            Part::Seq(3),
        ],
    },
    inputs: &[&[], &[], &[]],
    text: "18446744073709551615/0/0/",
}];

/// `loop { if(busy) { emit w; pause; } else { emit g; pause; } emit busy; }`
pub static BUSY: [Row; 1] = [Row {
    program: Program {
        inputs: &[],
        outputs: &[
            (Class::Event, Ty::Bool, "busy"),
            (Class::Event, Ty::Bool, "w"),
            (Class::Event, Ty::Bool, "g"),
        ],
        locals: &[],
        places: 2,
        loops: 1,
        body: &[
            Part::True,
            Part::Read(F0),
            Part::Emit(F1),
            Part::Pause(0),
            Part::Seq(2),
            Part::Emit(F2),
            Part::Pause(1),
            Part::Seq(2),
            Part::If,
            Part::Emit(F0),
            Part::Seq(2),
            Part::Loop(0),
        ],
    },
    inputs: &[&[], &[], &[]],
    text: "0 0 1/1 1 0/1 1 0/",
}];
