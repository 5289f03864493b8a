//! Laws of sources and their faults.

ghost use Rattle.std.specs.Prelude.{ℕ, List};
ghost use Rattle.qz_source.specs.OneAnswer.{HasOneAnswer};

use qz_lexer::one_outcome;

/// Bytes that spell a file have no fault, and others have only one.
pub fn one_answer()
    ensures { (bytes : List ℕ) → HasOneAnswer bytes }
{
    one_outcome();
}
