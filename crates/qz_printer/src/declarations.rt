//! Writes types, declarations and formals, each with its class and its type.

ghost use Rattle.std.specs.Prelude.{◌≡◌, string_bytes, OnOk};
ghost use Rattle.std.specs.List.{flat_map};
ghost use Rattle.qz_phrases.specs.Words.{class_mark};
ghost use Rattle.qz_printer.specs.Texts.{mark_text};
ghost use Rattle.qz_printer.specs.Expressions.{name_words};
ghost use Rattle.qz_printer.specs.Declarations.{type_words, listed, decl_words, dir_mark, formal_words};
ghost use Rattle.qz_printer.specs.Writing.{written};

use crate::words::{comma, name, number, word};
use qz_syntax::{Class, Dir, FileDecl, FileFormal, NameAt, TypeText};
use std::alloc::AllocError;

/// Writes declarations one after the other.
#[tactic(auto, using(crate::proofs::Written::written_append))]
pub(crate) fn declarations(text: &mut String, decls: &[FileDecl]) -> Result<(), AllocError>
    ensures { OnOk result (string_bytes text.new ≡ written (string_bytes text.old) (flat_map decl_words decls.now)) }
{
    for decl in decls {
        declaration(text, decl)?;
    }
    Ok(())
}

#[tactic(auto, using(crate::proofs::Written::written_append))]
fn declaration(text: &mut String, decl: &FileDecl) -> Result<(), AllocError>
    ensures { OnOk result (string_bytes text.new ≡ written (string_bytes text.old) (decl_words decl.now)) }
{
    word(text, class_word(decl.class))?;
    type_text(text, decl.ty)?;
    names(text, decl.names.as_slice())?;
    word(text, ";")
}

/// Names with a comma between each two.
fn names(text: &mut String, names: &[NameAt]) -> Result<(), AllocError>
    ensures { OnOk result (string_bytes text.new ≡ written (string_bytes text.old) (listed name_words names.now)) }
{
    for (number, at) in names.iter().enumerate() {
        comma(text, number)?;
        name(text, &at.name)?;
    }
    Ok(())
}

/// Formals with a comma between each two.
pub(crate) fn formals(text: &mut String, formals: &[FileFormal]) -> Result<(), AllocError>
    ensures { OnOk result (string_bytes text.new ≡ written (string_bytes text.old) (listed formal_words formals.now)) }
{
    for (number, member) in formals.iter().enumerate() {
        comma(text, number)?;
        formal(text, member)?;
    }
    Ok(())
}

#[tactic(auto, using(crate::proofs::Written::written_append))]
fn formal(text: &mut String, formal: &FileFormal) -> Result<(), AllocError>
    ensures { OnOk result (string_bytes text.new ≡ written (string_bytes text.old) (formal_words formal.now)) }
{
    word(text, class_word(formal.class))?;
    type_text(text, formal.ty)?;
    word(text, dir_sign(formal.dir))?;
    name(text, &formal.name.name)
}

fn type_text(text: &mut String, ty: TypeText) -> Result<(), AllocError>
    ensures { OnOk result (string_bytes text.new ≡ written (string_bytes text.old) (type_words ty)) }
{
    match ty {
        TypeText::Bool => word(text, "bool"),
        TypeText::Bv { width, .. } => {
            word(text, "bv")?;
            word(text, "[")?;
            number(text, width)?;
            word(text, "]")
        }
    }
}

fn class_word(class: Class) -> &'static str
    ensures { result.now ≡ mark_text (class_mark class) }
{
    match class {
        Class::Event => "event",
        Class::Mem => "mem",
    }
}

fn dir_sign(dir: Dir) -> &'static str
    ensures { result.now ≡ mark_text (dir_mark dir) }
{
    match dir {
        Dir::In => "?",
        Dir::Out => "!",
    }
}
