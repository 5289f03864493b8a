//! Reading names that are spelled for Verilog.

ghost use Rattle.std.specs.Prelude.{◌≡◌, ◌↔◌, None, Some, IfOk, IsTrue, MatchOption, string_bytes};
ghost use Rattle.std.specs.Str.{chars};
ghost use Rattle.qz_vtext.specs.Names.{name_text};
ghost use Rattle.qz_vread.specs.Naming.{IsNamed};
ghost use Rattle.qz_vread.specs.Reading.{Reads};
ghost use Rattle.qz_vread.specs.Unspelling.{with_byte, with_character, with_digit, closed, unspelled, IsTaken};

use qz_syntax::Name;
use qz_vtext::push_name;
use std::alloc::{AllocError, Global};
use std::marker::Model;

/// The name that the bytes spell. Each name has one spelling.
pub(crate) fn name(alloc: Global, bytes: &[u8]) -> Result<Option<Name>, AllocError>
    ensures { IfOk result (λ found. Reads IsNamed name_text bytes.now found) }
{
    let Some(text) = unspelled(alloc, bytes)? else {
        return Ok(None);
    };
    let Some(name) = Name::new(alloc, text.as_str())? else {
        return Ok(None);
    };
    let is_spelled = is_spelling(alloc, &name, bytes)?;
    Ok(if is_spelled { Some(name) } else { None })
}

/// Whether the bytes are how the name is spelled.
fn is_spelling(alloc: Global, name: &Name, bytes: &[u8]) -> Result<bool, AllocError>
    ensures { IfOk result (λ is_spelling. IsTrue is_spelling ↔ (bytes.now ≡ name_text name.now)) }
{
    let mut spelled = String::new(alloc);
    push_name(alloc, &mut spelled, name)?;
    Ok(spelled.as_bytes() == bytes)
}

/// A text that is unspelled byte by byte.
#[derive(Drop)]
struct Unspelling {
    text: String,
    /// Within `$`, what the digits so far write.
    code: Option<u32>,
}

impl Model for Unspelling {
    ghost use Rattle.std.specs.Prelude.{string_bytes};
    ghost use Rattle.std.specs.Str.{chars};
    ghost use Rattle.qz_vread.specs.Unspelling.{Unspelled};

    ghost Value = { Unspelled };

    ghost view = { λ u. record { characters = chars (string_bytes u.text); code = u.code } };
}

/// The text that the bytes stand for, if each code between two `$` is a character's. What spells a
/// name gives the name.
fn unspelled(alloc: Global, bytes: &[u8]) -> Result<Option<String>, AllocError>
    ensures { IfOk result (λ text. MatchOption text (unspelled bytes.now ≡ None) (λ t. unspelled bytes.now ≡ Some (chars (string_bytes t)))) }
{
    let mut unspelling = Unspelling {
        text: String::new(alloc),
        code: None,
    };
    for byte in bytes {
        if !unspelling.take(*byte)? {
            return Ok(None);
        }
    }
    Ok(unspelling.whole())
}

impl Unspelling {
    /// One byte more. `false` where no spelling goes on so.
    fn take(&mut self, byte: u8) -> Result<bool, AllocError>
        ensures { IfOk result (λ taken. IsTaken (with_byte self.old.characters self.old.code byte) self.new taken) }
    {
        match self.code {
            Some(code) if byte == b'$' => self.take_character(code),
            Some(code) => Ok(self.take_digit(code, byte)),
            None if byte == b'$' => {
                self.code = Some(0);
                Ok(true)
            }
            None => {
                self.text.push(char::from(byte))?;
                Ok(true)
            }
        }
    }

    /// The character with this code.
    fn take_character(&mut self, code: u32) -> Result<bool, AllocError>
        ensures { IfOk result (λ taken. IsTaken (with_character self.old.characters code) self.new taken) }
    {
        let Some(character) = char::from_u32(code) else {
            return Ok(false);
        };
        self.text.push(character)?;
        self.code = None;
        Ok(true)
    }

    /// One hexadecimal digit more, after those of `code`.
    fn take_digit(&mut self, code: u32, byte: u8) -> bool
        ensures { IsTaken (with_digit self.old.characters code byte) self.new result }
    {
        let Some(digit) = char::from(byte).to_digit(16) else {
            return false;
        };
        if code >= 1 << 24 {
            return false;
        }
        self.code = Some(code * 16 + digit);
        true
    }

    /// The text, where no code is left open.
    fn whole(self) -> Option<String>
        ensures { MatchOption result (closed self.code self.characters ≡ None) (λ text. closed self.code self.characters ≡ Some (chars (string_bytes text))) }
    {
        if self.code.is_some() {
            None
        } else {
            Some(self.text)
        }
    }
}
