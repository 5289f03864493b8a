//! What holds of every table of diagrams. The call does nothing: its clause holds of all numbers.

ghost use Rattle.qz_dd.specs.Tables.{IsCanonical};

use crate::diagrams::Diagrams;

/// Two numbers of a table that are equal at every assignment of its variables are the same number.
#[tactic(auto, using(crate::proofs::Canonical::canonical))]
pub fn equal_functions_have_equal_numbers(diagrams: &Diagrams)
    ensures { IsCanonical diagrams.now }
{}
