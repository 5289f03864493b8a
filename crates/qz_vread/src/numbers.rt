//! Numbers in decimal, each of which has one spelling.

ghost use Rattle.std.specs.Prelude.{◌≡◌, ◌↔◌, ◌<◌, ◌^◌, ◌++◌, ◌∷◌, true, false, length, get_or, List, ℕ, MatchOption, IsTrue};
ghost use Rattle.std.specs.Fmt.{decimal};
ghost use Rattle.qz_vread.specs.Parts.{is_word};
ghost use Rattle.qz_vread.specs.Reading.{Reads};

use crate::bytes::{split_at, strip};

/// The number that the bytes are, without leading zeros or a sign.
pub(crate) fn number(bytes: &[u8]) -> Option<u64>
    ensures { Reads (λ n. n < 2 ^ 64) decimal bytes.now result }
{
    if !begins_plainly(bytes) {
        return None;
    }
    match str::from_utf8(bytes) {
        Ok(text) => text.parse().ok(),
        Err(_) => None,
    }
}

/// Whether the bytes begin with no `+`, and with `0` only where that is all.
fn begins_plainly(bytes: &[u8]) -> bool
    ensures plain { result ≡ true → (get_or bytes.now 0 0 ≡ 43 → ⊥) × (get_or bytes.now 0 0 ≡ 48 → length bytes.now ≡ 1) }
    ensures other { result ≡ false → (get_or bytes.now 0 0 ≡ 48 → length bytes.now ≡ 1) → get_or bytes.now 0 0 ≡ 43 }
{
    match bytes {
        [b'+', ..] => false,
        [b'0', ..] => bytes.len() == 1,
        _ => true,
    }
}

/// What follows `before`, this number and the byte `end`, where the bytes begin so. It is no byte of a
/// number.
pub(crate) fn strip_numbered<'t>(
    bytes: &'t [u8],
    before: &[u8],
    number: u64,
    end: u8,
) -> Option<&'t [u8]>
    requires { is_word end ≡ false }
    ensures { MatchOption result ((rest : List ℕ) → bytes.now ≡ before.now ++ (decimal number ++ end ∷ rest) → ⊥)
        (λ rest. bytes.now ≡ before.now ++ (decimal number ++ end ∷ rest.now)) }
{
    let (digits, rest) = split_at(strip(bytes, before)?, end)?;
    if is_number(digits, number) {
        Some(rest)
    } else {
        None
    }
}

/// Whether the bytes are this number.
pub(crate) fn is_number(bytes: &[u8], number: u64) -> bool
    ensures { IsTrue result ↔ (bytes.now ≡ decimal number) }
{
    self::number(bytes) == Some(number)
}
