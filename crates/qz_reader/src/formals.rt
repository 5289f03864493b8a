//! Reads formals, and what a module or a prototype says before its body.

ghost use Rattle.std.specs.Prelude.{ℕ, ◌≡◌};
ghost use Rattle.qz_phrases.specs.Reading.{Reads};
ghost use Rattle.qz_reader.specs.Formals.{dir_start, formal_start, formals_start, a_dir, directed, typed_formal, a_formal, next_formal, some_formals, a_formals, a_head};

use qz_phrases::{Cursor, Fault, Mark, Sort, typing};
use qz_syntax::{Class, Dir, FileFormal, FileProto, TypeText};
use sqlite_items::Items;
use std::alloc::Global;

/// What a word begins, where a direction is wanted.
#[derive(Clone, Copy, Debug)]
pub enum DirStart {
    In,
    Out,
    /// No direction.
    None,
}

/// What a word begins, where a formal is wanted.
#[derive(Clone, Copy, Debug)]
pub enum FormalStart {
    /// A direction: class and type are those of the formal before it.
    Dir,
    /// A class or a type, if anything.
    Typing,
}

/// What a word begins, after the parenthesis of a list of formals.
#[derive(Clone, Copy, Debug)]
pub enum FormalsStart {
    /// `)`
    Close,
    /// A formal, if anything.
    Formal,
}

impl DirStart {
    fn of(word: Sort) -> DirStart
        ensures { result ≡ dir_start word }
    {
        match word {
            Sort::Mark(mark) => match mark {
                Mark::Question => DirStart::In,
                Mark::Exclamation => DirStart::Out,
                _ => DirStart::None,
            },
            Sort::Name | Sort::Number | Sort::Literal | Sort::End => DirStart::None,
        }
    }
}

impl FormalStart {
    fn of(word: Sort) -> FormalStart
        ensures { result ≡ formal_start word }
    {
        match word {
            Sort::Mark(mark) => match mark {
                Mark::Question | Mark::Exclamation => FormalStart::Dir,
                _ => FormalStart::Typing,
            },
            Sort::Name | Sort::Number | Sort::Literal | Sort::End => FormalStart::Typing,
        }
    }
}

impl FormalsStart {
    fn of(word: Sort) -> FormalsStart
        ensures { result ≡ formals_start word }
    {
        match word {
            Sort::Mark(mark) => match mark {
                Mark::CloseParen => FormalsStart::Close,
                _ => FormalsStart::Formal,
            },
            Sort::Name | Sort::Number | Sort::Literal | Sort::End => FormalsStart::Formal,
        }
    }
}

/// `?` or `!`
fn direction(cursor: &mut Cursor<'_>) -> Result<Dir, Fault>
    ensures { (room : ℕ) → Reads (λ _. a_dir) room cursor.old cursor.new result }
{
    match DirStart::of(cursor.peek()) {
        DirStart::In => {
            cursor.pass(Mark::Question)?;
            Ok(Dir::In)
        }
        DirStart::Out => {
            cursor.pass(Mark::Exclamation)?;
            Ok(Dir::Out)
        }
        DirStart::None => Err(Fault::Parse),
    }
}

/// A formal of this class and type.
fn directed(cursor: &mut Cursor<'_>, class: Class, ty: TypeText) -> Result<FileFormal, Fault>
    ensures { (room : ℕ) → Reads (λ _. directed (class, ty)) room cursor.old cursor.new result }
{
    let dir = direction(cursor)?;
    let name = cursor.name()?;
    Ok(FileFormal {
        class,
        dir,
        ty,
        name,
    })
}

/// A formal that says its class or its type.
fn typed_formal(cursor: &mut Cursor<'_>) -> Result<FileFormal, Fault>
    ensures { (room : ℕ) → Reads (λ _. typed_formal) room cursor.old cursor.new result }
{
    let (class, ty) = typing(cursor)?;
    let formal = directed(cursor, class, ty)?;
    Ok(formal)
}

/// A formal, after one of this class and type if any.
fn formal(cursor: &mut Cursor<'_>, last: Option<(Class, TypeText)>) -> Result<FileFormal, Fault>
    ensures { (room : ℕ) → Reads (λ _. a_formal last) room cursor.old cursor.new result }
{
    match FormalStart::of(cursor.peek()) {
        FormalStart::Dir => match last {
            Some((class, ty)) => directed(cursor, class, ty),
            None => Err(Fault::Parse),
        },
        FormalStart::Typing => typed_formal(cursor),
    }
}

/// `, formal`
fn next_formal(
    cursor: &mut Cursor<'_>,
    last: Option<(Class, TypeText)>,
) -> Result<FileFormal, Fault>
    ensures { (room : ℕ) → Reads (λ _. next_formal last) room cursor.old cursor.new result }
{
    cursor.pass(Mark::Comma)?;
    let formal = formal(cursor, last)?;
    Ok(formal)
}

/// One formal or more, and the parenthesis that closes the list.
fn some_formals(alloc: Global, cursor: &mut Cursor<'_>) -> Result<Items<FileFormal>, Fault>
    ensures { (room : ℕ) → Reads (λ _. some_formals) room cursor.old cursor.new result }
{
    let first = formal(cursor, None)?;
    let mut last = Some((first.class, first.ty));
    let mut formals = Items::new(alloc);
    formals.push(first)?;
    while cursor.peek().is_comma() {
        let next = next_formal(cursor, last)?;
        last = Some((next.class, next.ty));
        formals.push(next)?;
    }
    cursor.pass(Mark::CloseParen)?;
    Ok(formals)
}

/// The formals of a list, and the parenthesis that closes it.
fn formals(alloc: Global, cursor: &mut Cursor<'_>) -> Result<Items<FileFormal>, Fault>
    ensures { (room : ℕ) → Reads (λ _. a_formals) room cursor.old cursor.new result }
{
    match FormalsStart::of(cursor.peek()) {
        FormalsStart::Close => {
            cursor.pass(Mark::CloseParen)?;
            let none = Items::new(alloc);
            Ok(none)
        }
        FormalsStart::Formal => some_formals(alloc, cursor),
    }
}

/// What a module or a prototype says before its body.
pub(crate) fn head(alloc: Global, cursor: &mut Cursor<'_>) -> Result<FileProto, Fault>
    ensures { (room : ℕ) → Reads (λ _. a_head) room cursor.old cursor.new result }
{
    cursor.pass(Mark::Module)?;
    let name = cursor.name()?;
    cursor.pass(Mark::OpenParen)?;
    let formals = formals(alloc, cursor)?;
    Ok(FileProto { name, formals })
}
