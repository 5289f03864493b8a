//! How names, types, constants, nets and right sides are spelled.

ghost use Rattle.std.specs.Prelude.{◌≡◌, ◌++◌, string_bytes, IfOk, OnOk};
ghost use Rattle.std.specs.List.{flat_map};
ghost use Rattle.std.specs.Str.{chars};
ghost use Rattle.qz_vtext.specs.Names.{name_text, character_text};
ghost use Rattle.qz_vtext.specs.Spelling.{type_text, mark_text, constant_text, sign_text};

use qz_syntax::Name;
use qz_values::{Op2, Ty, Value};
use std::alloc::{AllocError, Global};

/// Appends how a name is spelled.
///
/// # Errors
///
/// `AllocError` where no memory was left.
pub fn push_name(alloc: Global, text: &mut String, name: &Name) -> Result<(), AllocError>
    ensures { OnOk result (string_bytes text.new ≡ string_bytes text.old ++ name_text name.now) }
{
    let characters = characters(alloc, name)?;
    for character in characters.as_slice() {
        push_character(text, *character)?;
    }
    Ok(())
}

/// A name's characters, of which there are at most 64.
fn characters(alloc: Global, name: &Name) -> Result<Vec<char>, AllocError>
    ensures { IfOk result (λ characters. characters.items ≡ name.now) }
{
    name.as_str().chars().collect(alloc)
}

fn push_character(text: &mut String, ch: char) -> Result<(), AllocError>
    ensures { OnOk result (string_bytes text.new ≡ string_bytes text.old ++ character_text ch) }
{
    if ch.is_ascii_alphanumeric() || ch == '_' {
        return text.push(ch);
    }
    let code = ch as u32;
    write!(text, "${code:x}$")
}

/// A type, before the name of what is declared.
pub(crate) fn push_type(text: &mut String, ty: Ty) -> Result<(), AllocError>
    ensures { OnOk result (string_bytes text.new ≡ string_bytes text.old ++ type_text ty) }
{
    match ty {
        Ty::Bool => Ok(()),
        Ty::Bv(width) => {
            let high = width.saturating_sub(1);
            write!(text, "[{high}:0] ")
        }
    }
}

pub(crate) fn push_constant(text: &mut String, value: Value) -> Result<(), AllocError>
    ensures { OnOk result (string_bytes text.new ≡ string_bytes text.old ++ constant_text value) }
{
    push_mark(text, value.ty())?;
    let bits = value.bits();
    write!(text, "{bits}")?;
    Ok(())
}

/// What stands before a constant's number.
fn push_mark(text: &mut String, ty: Ty) -> Result<(), AllocError>
    ensures { OnOk result (string_bytes text.new ≡ string_bytes text.old ++ mark_text ty) }
{
    match ty {
        Ty::Bool => text.push_str("1'b"),
        Ty::Bv(width) => write!(text, "{width}'d"),
    }
}

/// The operator's sign.
pub(crate) fn sign(op: Op2) -> &'static str
    ensures { result.now ≡ sign_text op }
{
    match op {
        Op2::And => "&",
        Op2::Or => "|",
        Op2::Xor => "^",
        Op2::Imp => "->",
        Op2::Add => "+",
        Op2::Sub => "-",
        Op2::Eq => "==",
        Op2::Ne => "!=",
        Op2::Lt => "<",
        Op2::Le => "<=",
        Op2::Gt => ">",
        Op2::Ge => ">=",
    }
}
