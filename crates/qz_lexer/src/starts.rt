//! What a character may begin.

ghost use Rattle.std.specs.Prelude.{◌≡◌};
ghost use Rattle.qz_lexer.specs.Starts.{start_of};

use unicode_ident::is_xid_start;

/// What a piece may be that begins with a character.
#[derive(Drop, Clone, Copy)]
pub(crate) enum Start {
    /// White space.
    Space,
    /// A number or a literal.
    Digit,
    /// A comment.
    Slash,
    /// A name or a reserved word.
    Letter,
    /// A sign, or nothing.
    Other,
}

impl Start {
    /// What a piece may be that begins with the character.
    pub(crate) fn of(c: char) -> Start
        ensures { result ≡ start_of c }
    {
        match c {
            ' ' | '\t' | '\n' | '\r' => Start::Space,
            '0'..='9' => Start::Digit,
            '/' => Start::Slash,
            _ if is_xid_start(c) => Start::Letter,
            _ => Start::Other,
        }
    }
}
