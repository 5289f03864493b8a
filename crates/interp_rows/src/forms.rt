//! A row for each form of statement.

use crate::building::Part;
use crate::programs::Program;
use crate::reactions::Reaction;
use qz_syntax::{Class, Kind, Var};
use qz_values::Ty;

const A: Var = Var::Formal(0);

const O: Var = Var::Formal(1);

const X: Var = Var::Local(0);

const STRONG: Kind = Kind {
    weak: false,
    immediate: false,
};

const WEAK: Kind = Kind {
    weak: true,
    immediate: false,
};

const WEAK_IMMEDIATE: Kind = Kind {
    weak: true,
    immediate: true,
};

/// Of a body with so many places and loops; the local is declared where there is one.
macro_rules! form {
    ($locals:expr, $places:expr, $loops:expr, $body:expr, $inputs:expr, $text:expr) => {
        Reaction {
            program: Program {
                inputs: &[(Class::Event, Ty::Bool, "a")],
                outputs: &[(Class::Event, Ty::Bool, "o")],
                locals: $locals,
                places: $places,
                loops: $loops,
                body: $body,
            },
            inputs: $inputs,
            text: $text,
        }
    };
}

pub static FORMS: [Reaction; 13] = [
    // nothing;
    form!(&[], 0, 0, &[Part::Nothing], &[false], "ends 1, then end/"),
    // o = a;
    form!(
        &[],
        0,
        0,
        &[Part::Read(A), Part::Assign(O)],
        &[true],
        "o=1 if 1, ends 1, then end/"
    ),
    // next(o) = a;
    form!(
        &[],
        0,
        0,
        &[Part::Read(A), Part::Delayed(O)],
        &[true],
        "next o=1 if 1, ends 1, then end/"
    ),
    // pause;
    form!(
        &[],
        1,
        0,
        &[Part::Pause(0)],
        &[false, false, false],
        "ends 0, then #0/ends 1, then end/ends 1, then end/"
    ),
    // pause; emit o;
    form!(
        &[],
        1,
        0,
        &[Part::Pause(0), Part::Emit(O), Part::Seq(2)],
        &[false, false],
        "o=1 if 0, ends 0, then 0.#0/o=1 if 1, ends 1, then end/"
    ),
    // emit o; || pause;
    form!(
        &[],
        1,
        0,
        &[Part::Emit(O), Part::Pause(0), Part::Par(2)],
        &[false, false],
        "o=1 if 1, ends 0, then |done|#0|/ends 1, then end/"
    ),
    // if(a) emit o; else pause;
    form!(
        &[],
        1,
        0,
        &[Part::Read(A), Part::Emit(O), Part::Pause(0), Part::If],
        &[false, false],
        "o=1 if 0, ends 0, then no.#0/ends 1, then end/"
    ),
    // do { pause; emit o; } while(a);
    form!(
        &[],
        1,
        1,
        &[
            Part::Read(A),
            Part::Pause(0),
            Part::Emit(O),
            Part::Seq(2),
            Part::Loop(0),
        ],
        &[false, true, false],
        "o=1 if 0, ends 0, then body.0.#0/o=1 if 1, o=1 if 0, ends 0, then body.0.#0/o=1 if 1, o=1 if 0, ends 1, then end/"
    ),
    // abort { pause; emit o; } when(a);
    form!(
        &[],
        1,
        0,
        &[
            Part::Read(A),
            Part::Pause(0),
            Part::Emit(O),
            Part::Seq(2),
            Part::Abort(STRONG),
        ],
        &[true, true],
        "o=1 if 0, ends 0, then body.0.#0/o=1 if 0, ends 1, then end/"
    ),
    // weak abort { pause; emit o; } when(a);
    form!(
        &[],
        1,
        0,
        &[
            Part::Read(A),
            Part::Pause(0),
            Part::Emit(O),
            Part::Seq(2),
            Part::Abort(WEAK),
        ],
        &[true, true],
        "o=1 if 0, ends 0, then body.0.#0/o=1 if 1, ends 1, then end/"
    ),
    // suspend { pause; emit o; } when(a);
    form!(
        &[],
        1,
        0,
        &[
            Part::Read(A),
            Part::Pause(0),
            Part::Emit(O),
            Part::Seq(2),
            Part::Suspend(STRONG, None),
        ],
        &[false, true, false],
        "o=1 if 0, ends 0, then body.0.#0/o=1 if 0, ends 0, then body.0.#0/o=1 if 1, ends 1, then end/"
    ),
    // weak immediate suspend { emit o; pause; } when(a);
    form!(
        &[],
        2,
        0,
        &[
            Part::Read(A),
            Part::Emit(O),
            Part::Pause(1),
            Part::Seq(2),
            Part::Suspend(WEAK_IMMEDIATE, Some(0)),
        ],
        &[true, false, false],
        "o=1 if 1, ends 0, then hold #0/o=1 if 1, ends 0, then body.1.#1/ends 1, then end/"
    ),
    // loop { event bool x; if(x) emit o; pause; next(x) = true; }
    form!(
        &[(Class::Event, Ty::Bool, "x")],
        1,
        1,
        &[
            Part::True,
            Part::Read(X),
            Part::Emit(O),
            Part::Nothing,
            Part::If,
            Part::Pause(0),
            Part::True,
            Part::Delayed(X),
            Part::Seq(3),
            Part::Scope(&[0]),
            Part::Loop(0),
        ],
        &[false, false],
        "o=1 if 0, next x=1 if 0, ends 0, then body.scope =0.1.#0/next x=1 if 1, o=1 if 0, next x@0=1 if 0, ends 0, then body.scope =0.1.#0/"
    ),
];
