//! When a system closes a whole program: definitions alone.
//!
//! `specs/ProgramParts.antt` has the ports, cells and instances of a program as a system has them,
//! `specs/ShapesOf.antt` its shape, `specs/Encoding.antt` what a valuation of the system says of one of the program,
//! and `specs/Closes.antt` that the two agree: in all that is named, in their permitted valuations, in each round,
//! and in which valuation comes next.
#![tactic(auto)]

ghost use Rattle.qz_closing.specs.Shaped.{ShapesPermitAlike};

/// A system with a program's ports, cells and places, and with the shape of its body, has its permitted
/// valuations: each one encodes one of the program, and whatever encodes one of the program is permitted.
pub fn shapes_permit_what_programs_do()
    ensures { ShapesPermitAlike }
{}
