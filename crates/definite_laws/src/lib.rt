//! Laws of systems that close programs: their rounds are the program's, and where they are definite so is the program.
#![tactic(auto)]

ghost use Rattle.definite_laws.specs.Definite.{RoundsAreAlike, DefiniteSystemsAreOfDefinite};

/// Each round of a system that closes a program is the program's with this number, Unknown and Clash among it.
pub fn rounds_are_the_programs()
    ensures { RoundsAreAlike }
{}

/// Where a system that closes a program is definite, so is the program.
pub fn definite_systems_are_of_definite_programs()
    ensures { DefiniteSystemsAreOfDefinite }
{}
