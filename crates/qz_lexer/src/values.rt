//! The second part of a literal.

ghost use Rattle.std.specs.Prelude.{MatchOption};
ghost use Rattle.std.specs.Str.{chars};
ghost use Rattle.qz_lexer.specs.Runs.{Takes, Lacks};
ghost use Rattle.qz_lexer.specs.Words.{IsValue};

use crate::runs::Run;

/// What follows `'d` and a number, if the text begins so.
pub(crate) fn value(text: &str) -> Option<&str>
    ensures { MatchOption result (Lacks IsValue (chars text.now)) (λ after. Takes IsValue (chars text.now) (chars after.now)) }
{
    let digits = text.strip_prefix("'d")?;
    let (count, after) = Run::Digits.skip(digits);
    if 1 <= count && count <= 20 {
        Some(after)
    } else {
        None
    }
}
