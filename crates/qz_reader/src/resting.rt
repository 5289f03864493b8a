//! Reads the statements that hold no statement, and what they are made of.

ghost use Rattle.std.specs.Prelude.{ℕ, ◌≡◌, ◌≤◌};
ghost use Rattle.qz_phrases.specs.Reading.{Reads};
ghost use Rattle.qz_reader.specs.Statements.{bare, guarded, closing, resting, some_args, arguments, called, after_name, next_assigned, an_emit, stmt_row, a_stmt};
ghost use Rattle.qz_reader.specs.declared.starts.StmtStart.TheVariants as the_start;

use crate::starts::{ArgsStart, NamedStart, RestStart};
use qz_phrases::{
    Cursor, Fault, Mark, assigned_value, awaited, condition, emitted, expression, next_argument,
    next_target,
};
use qz_syntax::{Cond, FileExpr, FileStmt, NameAt, Target};
use sqlite_items::Items;
use std::alloc::Global;

/// A word and a semicolon. Gives the word's offset.
pub(crate) fn bare(cursor: &mut Cursor<'_>, mark: Mark) -> Result<u32, Fault>
    ensures { (room : ℕ) → Reads (λ _. bare mark) room cursor.old cursor.new result }
{
    let at = cursor.pass(mark)?;
    cursor.pass(Mark::Semicolon)?;
    Ok(at)
}

/// A word and a condition.
pub(crate) fn guarded(
    alloc: Global,
    cursor: &mut Cursor<'_>,
    mark: Mark,
    room: u32,
) -> Result<Cond, Fault>
    ensures { 1 ≤ room → Reads (guarded mark) room cursor.old cursor.new result }
{
    cursor.pass(mark)?;
    let cond = condition(alloc, cursor, room)?;
    Ok(cond)
}

/// A word, a condition and a semicolon.
pub(crate) fn closing(
    alloc: Global,
    cursor: &mut Cursor<'_>,
    mark: Mark,
    room: u32,
) -> Result<Cond, Fault>
    ensures { 1 ≤ room → Reads (closing mark) room cursor.old cursor.new result }
{
    cursor.pass(mark)?;
    let cond = condition(alloc, cursor, room)?;
    cursor.pass(Mark::Semicolon)?;
    Ok(cond)
}

/// `pause`, `halt` or `await` after a label.
fn resting(
    alloc: Global,
    cursor: &mut Cursor<'_>,
    label: Option<NameAt>,
    room: u32,
) -> Result<FileStmt, Fault>
    ensures { Reads (resting label) room cursor.old cursor.new result }
{
    match RestStart::of(cursor.peek()) {
        RestStart::Pause => {
            bare(cursor, Mark::Pause)?;
            Ok(FileStmt::Pause(label))
        }
        RestStart::Halt => {
            bare(cursor, Mark::Halt)?;
            Ok(FileStmt::Halt(label))
        }
        RestStart::Await => {
            if room < 1 {
                return Err(Fault::Deep);
            }
            awaited(alloc, cursor, label, false, room)
        }
        RestStart::Immediate => {
            if room < 1 {
                return Err(Fault::Deep);
            }
            cursor.pass(Mark::Immediate)?;
            let rest = awaited(alloc, cursor, label, true, room)?;
            Ok(rest)
        }
        RestStart::None => Err(Fault::Parse),
    }
}

/// One argument or more, and the parenthesis that closes them.
fn some_arguments(
    alloc: Global,
    cursor: &mut Cursor<'_>,
    room: u32,
) -> Result<Items<FileExpr>, Fault>
    ensures { Reads some_args room cursor.old cursor.new result }
{
    let first = expression(alloc, cursor, room)?;
    let mut args = Items::new(alloc);
    args.push(first)?;
    while cursor.peek().is_comma() {
        let next = next_argument(alloc, cursor, room)?;
        args.push(next)?;
    }
    cursor.pass(Mark::CloseParen)?;
    Ok(args)
}

/// The arguments of a call and the parenthesis that closes them.
fn arguments(alloc: Global, cursor: &mut Cursor<'_>, room: u32) -> Result<Items<FileExpr>, Fault>
    ensures { Reads arguments room cursor.old cursor.new result }
{
    match ArgsStart::of(cursor.peek()) {
        ArgsStart::Close => {
            cursor.pass(Mark::CloseParen)?;
            let none = Items::new(alloc);
            Ok(none)
        }
        ArgsStart::Argument => some_arguments(alloc, cursor, room),
    }
}

/// `( arguments ) ;`
fn called(alloc: Global, cursor: &mut Cursor<'_>, room: u32) -> Result<Items<FileExpr>, Fault>
    ensures { Reads called room cursor.old cursor.new result }
{
    cursor.pass(Mark::OpenParen)?;
    let args = arguments(alloc, cursor, room)?;
    cursor.pass(Mark::Semicolon)?;
    Ok(args)
}

/// What follows a name that begins a statement.
fn after_name(
    alloc: Global,
    cursor: &mut Cursor<'_>,
    name: NameAt,
    room: u32,
) -> Result<FileStmt, Fault>
    ensures { Reads (after_name name) room cursor.old cursor.new result }
{
    match NamedStart::of(cursor.peek()) {
        NamedStart::Equals => {
            if room < 1 {
                return Err(Fault::Deep);
            }
            let (equals, value) = assigned_value(alloc, cursor, room)?;
            Ok(FileStmt::Assign {
                target: Target { next: false, name },
                equals,
                value,
            })
        }
        NamedStart::Paren => {
            let args = called(alloc, cursor, room)?;
            Ok(FileStmt::Call { callee: name, args })
        }
        NamedStart::Colon => {
            cursor.pass(Mark::Colon)?;
            let rest = resting(alloc, cursor, Some(name), room)?;
            Ok(rest)
        }
        NamedStart::None => Err(Fault::Parse),
    }
}

/// A statement that begins with a name.
pub(crate) fn named(alloc: Global, cursor: &mut Cursor<'_>, room: u32) -> Result<FileStmt, Fault>
    ensures { Reads (λ levels. stmt_row (a_stmt levels) the_start.Name levels) room cursor.old cursor.new result }
{
    let name = cursor.name()?;
    let found = after_name(alloc, cursor, name, room)?;
    Ok(found)
}

/// `next ( x ) = e ;`
pub(crate) fn next_assigned(
    alloc: Global,
    cursor: &mut Cursor<'_>,
    room: u32,
) -> Result<FileStmt, Fault>
    ensures { 1 ≤ room → Reads next_assigned room cursor.old cursor.new result }
{
    let target = next_target(cursor)?;
    let (equals, value) = assigned_value(alloc, cursor, room)?;
    Ok(FileStmt::Assign {
        target,
        equals,
        value,
    })
}

/// `emit t ;`
pub(crate) fn emit(cursor: &mut Cursor<'_>) -> Result<FileStmt, Fault>
    ensures { (room : ℕ) → Reads (λ _. an_emit) room cursor.old cursor.new result }
{
    cursor.pass(Mark::Emit)?;
    let target = emitted(cursor)?;
    cursor.pass(Mark::Semicolon)?;
    Ok(FileStmt::Emit(target))
}
