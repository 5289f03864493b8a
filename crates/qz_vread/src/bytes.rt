//! Parts of a line.

ghost use Rattle.std.specs.Prelude.{◌≡◌, ◌++◌, true, List, ℕ, MatchOption};
ghost use Rattle.qz_vread.specs.Parts.{lacks, IsSplit, NoFront, NoEnd};

/// What follows a word, where the bytes begin with it.
pub(crate) fn strip<'t>(bytes: &'t [u8], word: &[u8]) -> Option<&'t [u8]>
    ensures { MatchOption result (NoFront bytes.now word.now) (λ rest. bytes.now ≡ word.now ++ rest.now) }
{
    bytes.strip_prefix(word)
}

/// What stands before a word, where the bytes end with it.
pub(crate) fn strip_end<'t>(bytes: &'t [u8], word: &[u8]) -> Option<&'t [u8]>
    ensures { MatchOption result (NoEnd bytes.now word.now) (λ front. bytes.now ≡ front.now ++ word.now) }
{
    bytes.strip_suffix(word)
}

/// What stands before and after the first such byte.
pub(crate) fn split_at(bytes: &[u8], mark: u8) -> Option<(&[u8], &[u8])>
    ensures { MatchOption result (lacks mark bytes.now ≡ true) (λ parts. IsSplit mark bytes.now parts.0.now parts.1.now) }
{
    for (at, byte) in bytes.iter().enumerate() {
        if *byte == mark {
            return Some((&bytes[..at], &bytes[at + 1..]));
        }
    }
    None
}

/// What stands between two words, where the bytes begin and end with them.
pub(crate) fn between<'t>(bytes: &'t [u8], before: &[u8], after: &[u8]) -> Option<&'t [u8]>
    ensures { MatchOption result ((inner : List ℕ) → bytes.now ≡ before.now ++ (inner ++ after.now) → ⊥)
        (λ inner. bytes.now ≡ before.now ++ (inner.now ++ after.now)) }
{
    strip_end(strip(bytes, before)?, after)
}
