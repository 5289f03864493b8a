//! Comments.

ghost use Rattle.std.specs.Prelude.{MatchOption};
ghost use Rattle.std.specs.Str.{chars};
ghost use Rattle.qz_lexer.specs.Runs.{Takes, Lacks};
ghost use Rattle.qz_lexer.specs.Blanks.{IsLineComment, IsBlockComment, IsComment};

use crate::runs::Run;

/// What follows the comment that begins the text, if one does.
pub(crate) fn comment(text: &str) -> Option<&str>
    ensures { MatchOption result (Lacks IsComment (chars text.now)) (λ after. Takes IsComment (chars text.now) (chars after.now)) }
{
    match line_comment(text) {
        Some(after) => Some(after),
        None => block_comment(text),
    }
}

/// What follows the comment from `//` up to the next line feed or the end.
fn line_comment(text: &str) -> Option<&str>
    ensures { MatchOption result (Lacks IsLineComment (chars text.now)) (λ after. Takes IsLineComment (chars text.now) (chars after.now)) }
{
    let line = text.strip_prefix("//")?;
    let (_, after) = Run::Line.skip(line);
    Some(after)
}

/// What follows the comment from `/*` to the next `*/`.
fn block_comment(text: &str) -> Option<&str>
    ensures { MatchOption result (Lacks IsBlockComment (chars text.now)) (λ after. Takes IsBlockComment (chars text.now) (chars after.now)) }
{
    let inside = text.strip_prefix("/*")?;
    let (_, after) = inside.split_once("*/")?;
    Some(after)
}
