//! Writes one word, after a space where it isn't the first.

ghost use Rattle.std.specs.Prelude.{◌≡◌, [], ◌∷◌, ◌++◌, string_bytes, OnOk};
ghost use Rattle.qz_phrases.specs.declared.words.Word.TheVariants as word;
ghost use Rattle.qz_phrases.specs.declared.words.Mark.TheVariants as mark;
ghost use Rattle.qz_printer.specs.Writing.{spaced, written, separated};

use qz_syntax::Name;
use std::alloc::AllocError;

/// What stands before the next word: a space, or nothing where it is the first.
fn space(text: &mut String) -> Result<(), AllocError>
    ensures { OnOk result (string_bytes text.new ≡ spaced (string_bytes text.old)) }
{
    if text.is_empty() {
        return Ok(());
    }
    text.push_str(" ")
}

/// A word that is spelled so.
pub(crate) fn word(text: &mut String, spelling: &str) -> Result<(), AllocError>
    ensures { OnOk result (string_bytes text.new ≡ spaced (string_bytes text.old) ++ spelling.now) }
{
    space(text)?;
    text.push_str(spelling)
}

pub(crate) fn name(text: &mut String, name: &Name) -> Result<(), AllocError>
    ensures { OnOk result (string_bytes text.new ≡ written (string_bytes text.old) (word.Name name.now ∷ [])) }
{
    word(text, name.as_str())
}

pub(crate) fn number(text: &mut String, n: u128) -> Result<(), AllocError>
    ensures { OnOk result (string_bytes text.new ≡ written (string_bytes text.old) (word.Number n ∷ [])) }
{
    space(text)?;
    write!(text, "{n}")
}

pub(crate) fn literal(text: &mut String, width: u128, value: u128) -> Result<(), AllocError>
    ensures { OnOk result (string_bytes text.new ≡ written (string_bytes text.old) (word.Literal width value ∷ [])) }
{
    space(text)?;
    write!(text, "{width}'d{value}")
}

/// A comma before each member of a list but the first, by the member's number.
pub(crate) fn comma(text: &mut String, number: usize) -> Result<(), AllocError>
    ensures { OnOk result (string_bytes text.new ≡ written (string_bytes text.old) (separated mark.Comma number)) }
{
    if number == 0 {
        return Ok(());
    }
    word(text, ",")
}

/// `||` before each list of a block but the first, by the list's number.
pub(crate) fn bars(text: &mut String, number: usize) -> Result<(), AllocError>
    ensures { OnOk result (string_bytes text.new ≡ written (string_bytes text.old) (separated mark.BarBar number)) }
{
    if number == 0 {
        return Ok(());
    }
    word(text, "||")
}
