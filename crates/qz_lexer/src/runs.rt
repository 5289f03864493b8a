//! Runs of characters of one sort.

ghost use Rattle.std.specs.Prelude.{◌≡◌, ℕ, List, [], ◌∷◌, ◌≤◌, ◌++◌, length, MatchOption, encode_utf8_all};
ghost use Rattle.std.specs.Str.{chars};
ghost use Rattle.qz_lexer.specs.Runs.{Skips, accepts};

use unicode_ident::is_xid_continue;

/// The first character of the text, and what follows it.
pub(crate) fn first_char(text: &str) -> Option<(char, &str)>
    ensures { MatchOption result (chars text.now ≡ []) (λ parts. chars text.now ≡ parts.0 ∷ chars parts.1.now) }
{
    let mut cursor = text.chars();
    let first = cursor.next()?;
    Some((first, cursor.as_str()))
}

/// The front of the text that ends where the rest begins.
pub(crate) fn text_before<'t>(text: &'t str, rest: &str) -> &'t str
    requires { (front : List ℕ) × (chars text.now ≡ front ++ chars rest.now) }
    ensures within { length result.now ≤ length text.now }
    ensures bytes { (front : List ℕ) → chars text.now ≡ front ++ chars rest.now → result.now ≡ encode_utf8_all front }
    ensures characters { (front : List ℕ) → chars text.now ≡ front ++ chars rest.now → chars result.now ≡ front }
{
    let (front, _) = text.split_at(text.len() - rest.len());
    front
}

/// What a run is made of.
#[derive(Drop, Clone, Copy)]
pub(crate) enum Run {
    /// Decimal digits.
    Digits,
    /// Characters with XID_Continue.
    Word,
    /// Characters other than the line feed.
    Line,
}

impl Run {
    fn accepts(self, c: char) -> bool
        ensures { result ≡ accepts self c }
    {
        match self {
            Run::Digits => c.is_ascii_digit(),
            Run::Word => is_xid_continue(c),
            Run::Line => c != '\n',
        }
    }

    /// How many characters the run has that begins the text, and what follows it.
    pub(crate) fn skip(self, text: &str) -> (usize, &str)
        ensures { Skips (accepts self) (chars text.now) result.0 (chars result.1.now) }
    {
        let mut count = 0;
        let mut rest = text;
        let mut cursor = text.chars();
        while let Some(c) = cursor.next() {
            if !self.accepts(c) {
                return (count, rest);
            }
            count += 1;
            rest = cursor.as_str();
        }
        (count, rest)
    }
}
