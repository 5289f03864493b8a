//! The piece that a text begins with: a token, white space or a comment.

ghost use Rattle.std.specs.Str.{chars};
ghost use Rattle.qz_lexer.specs.Starts.{StartsWith, Finds};
ghost use Rattle.qz_lexer.specs.declared.starts.Start.TheVariants.{Digit, Slash, Letter, Other};

use crate::comments::comment;
use crate::runs::{Run, first_char, text_before};
use crate::starts::Start;
use crate::tokens::TokenKind;
use crate::values::value;
use crate::words::{is_double_sign, is_reserved, is_single_sign};

/// The longest piece that begins a text.
#[derive(Drop, Clone, Copy)]
pub(crate) struct Front<'t> {
    /// `None` for white space and comments.
    pub kind: Option<TokenKind>,
    /// What follows the piece.
    pub after: &'t str,
}

/// The longest piece that begins the text.
pub(crate) fn first_piece(text: &str) -> Option<Front<'_>>
    ensures { Finds (chars text.now) result }
{
    let (first, after) = first_char(text)?;
    match Start::of(first) {
        Start::Space => Some(Front { kind: None, after }),
        Start::Digit => number(text),
        Start::Slash => blank(text),
        Start::Letter => word(text),
        Start::Other => sign(text),
    }
}

/// The comment that begins the text.
fn blank(text: &str) -> Option<Front<'_>>
    requires { StartsWith Slash (chars text.now) }
    ensures { Finds (chars text.now) result }
{
    let after = comment(text)?;
    Some(Front { kind: None, after })
}

/// The literal that begins the text, or else the number.
fn number(text: &str) -> Option<Front<'_>>
    requires { StartsWith Digit (chars text.now) }
    ensures { Finds (chars text.now) result }
{
    let (count, after) = Run::Digits.skip(text);
    if count > 20 {
        return None;
    }
    match value(after) {
        Some(after) => Some(Front {
            kind: Some(TokenKind::Literal),
            after,
        }),
        None => Some(Front {
            kind: Some(TokenKind::Number),
            after,
        }),
    }
}

/// The name or reserved word that begins the text.
fn word(text: &str) -> Option<Front<'_>>
    requires { StartsWith Letter (chars text.now) }
    ensures { Finds (chars text.now) result }
{
    let (count, after) = Run::Word.skip(text);
    if count > 64 {
        return None;
    }
    let kind = if is_reserved(text_before(text, after)) {
        TokenKind::Keyword
    } else {
        TokenKind::Name
    };
    Some(Front {
        kind: Some(kind),
        after,
    })
}

/// The sign that begins the text.
fn sign(text: &str) -> Option<Front<'_>>
    requires { StartsWith Other (chars text.now) }
    ensures { Finds (chars text.now) result }
{
    let (first, after_first) = first_char(text)?;
    match first_char(after_first) {
        Some((second, after)) if is_double_sign(first, second) => Some(Front {
            kind: Some(TokenKind::Sign),
            after,
        }),
        _ if is_single_sign(first) => Some(Front {
            kind: Some(TokenKind::Sign),
            after: after_first,
        }),
        _ => None,
    }
}
