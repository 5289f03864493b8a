//! Reads declarations.

ghost use Rattle.std.specs.Prelude.{ℕ, ◌≡◌};
ghost use Rattle.qz_phrases.specs.Words.{class_mark, is_comma};
ghost use Rattle.qz_phrases.specs.Declarations.{a_type, type_or_bool, a_typing, next_name, names, a_decl};
ghost use Rattle.qz_phrases.specs.Reading.{Reads, Skims};

use crate::cursor::{Cursor, Fault};
use crate::words::{Mark, Sort, TypeStart, TypingStart};
use qz_syntax::{Class, FileDecl, NameAt, TypeText};
use sqlite_items::Items;
use std::alloc::Global;

/// The word of a class.
fn class_mark(class: Class) -> Mark
    ensures { result ≡ class_mark class }
{
    match class {
        Class::Event => Mark::Event,
        Class::Mem => Mark::Mem,
    }
}

/// `bool` or `bv[n]`
fn type_text(cursor: &mut Cursor<'_>) -> Result<TypeText, Fault>
    ensures { (room : ℕ) → Reads (λ _. a_type) room cursor.old cursor.new result }
{
    match cursor.peek().ty() {
        TypeStart::Bool => {
            cursor.pass(Mark::Bool)?;
            Ok(TypeText::Bool)
        }
        TypeStart::Bv => {
            cursor.pass(Mark::Bv)?;
            cursor.pass(Mark::OpenBracket)?;
            let (width, at) = cursor.number()?;
            cursor.pass(Mark::CloseBracket)?;
            Ok(TypeText::Bv { width, at })
        }
        TypeStart::None => Err(Fault::Parse),
    }
}

/// A type, or else `bool` without a word.
fn type_or_bool(cursor: &mut Cursor<'_>) -> Result<TypeText, Fault>
    ensures { (room : ℕ) → Skims (λ _. type_or_bool) room cursor.old cursor.new result }
{
    match cursor.peek().ty() {
        TypeStart::None => Ok(TypeText::Bool),
        _ => type_text(cursor),
    }
}

/// A class, a type or both.
pub fn typing(cursor: &mut Cursor<'_>) -> Result<(Class, TypeText), Fault>
    ensures { (room : ℕ) → Reads (λ _. a_typing) room cursor.old cursor.new result }
{
    match cursor.peek().typing() {
        TypingStart::Class(class) => {
            cursor.pass(class_mark(class))?;
            let ty = type_or_bool(cursor)?;
            Ok((class, ty))
        }
        TypingStart::Type => {
            let ty = type_text(cursor)?;
            Ok((Class::Mem, ty))
        }
        TypingStart::None => Err(Fault::Parse),
    }
}

/// `, name`
fn next_name(cursor: &mut Cursor<'_>) -> Result<NameAt, Fault>
    ensures { (room : ℕ) → Reads (λ _. next_name) room cursor.old cursor.new result }
{
    cursor.pass(Mark::Comma)?;
    let name = cursor.name()?;
    Ok(name)
}

impl Sort {
    /// Whether the word is a comma.
    pub fn is_comma(self) -> bool
        ensures { result ≡ is_comma self }
    {
        match self {
            Sort::Mark(mark) => matches!(mark, Mark::Comma),
            Sort::Name | Sort::Number | Sort::Literal | Sort::End => false,
        }
    }
}

/// Names between commas, up to a semicolon.
fn names(alloc: Global, cursor: &mut Cursor<'_>) -> Result<Items<NameAt>, Fault>
    ensures { (room : ℕ) → Reads (λ _. names) room cursor.old cursor.new result }
{
    let first = cursor.name()?;
    let mut names = Items::new(alloc);
    names.push(first)?;
    while cursor.peek().is_comma() {
        let next = next_name(cursor)?;
        names.push(next)?;
    }
    cursor.pass(Mark::Semicolon)?;
    Ok(names)
}

/// A declaration.
pub fn declaration(alloc: Global, cursor: &mut Cursor<'_>) -> Result<FileDecl, Fault>
    ensures { (room : ℕ) → Reads (λ _. a_decl) room cursor.old cursor.new result }
{
    let (class, ty) = typing(cursor)?;
    let names = names(alloc, cursor)?;
    Ok(FileDecl { class, ty, names })
}
