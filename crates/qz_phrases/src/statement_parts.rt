//! Reads the parts of statements that hold no statement.

ghost use Rattle.std.specs.Prelude.{ℕ, ◌≤◌};
ghost use Rattle.qz_phrases.specs.StatementParts.{a_cond, a_value, next_target, a_target, awaited, emitted, next_arg};
ghost use Rattle.qz_phrases.specs.Reading.{Reads};

use crate::cursor::{Cursor, Fault};
use crate::expressions::expression;
use crate::words::{EmitStart, Mark, TargetStart};
use qz_syntax::{Cond, FileExpr, FileStmt, NameAt, Target};
use std::alloc::Global;

/// A condition in its parentheses.
pub fn condition(alloc: Global, cursor: &mut Cursor<'_>, room: u32) -> Result<Cond, Fault>
    ensures { 1 ≤ room → Reads a_cond room cursor.old cursor.new result }
{
    let at = cursor.pass(Mark::OpenParen)?;
    let expr = expression(alloc, cursor, room)?;
    cursor.pass(Mark::CloseParen)?;
    Ok(Cond { at, expr })
}

/// `= e ;`, with the offset of the `=`.
pub fn assigned_value(
    alloc: Global,
    cursor: &mut Cursor<'_>,
    room: u32,
) -> Result<(u32, FileExpr), Fault>
    ensures { 1 ≤ room → Reads a_value room cursor.old cursor.new result }
{
    let at = cursor.pass(Mark::Equals)?;
    let expr = expression(alloc, cursor, room)?;
    cursor.pass(Mark::Semicolon)?;
    Ok((at, expr))
}

/// `next ( x )`
pub fn next_target(cursor: &mut Cursor<'_>) -> Result<Target, Fault>
    ensures { (room : ℕ) → Reads (λ _. next_target) room cursor.old cursor.new result }
{
    cursor.pass(Mark::Next)?;
    cursor.pass(Mark::OpenParen)?;
    let name = cursor.name()?;
    cursor.pass(Mark::CloseParen)?;
    Ok(Target { next: true, name })
}

/// `x` or `next ( x )`
pub fn target(cursor: &mut Cursor<'_>) -> Result<Target, Fault>
    ensures { (room : ℕ) → Reads (λ _. a_target) room cursor.old cursor.new result }
{
    match cursor.peek().target() {
        TargetStart::Name => {
            let name = cursor.name()?;
            Ok(Target { next: false, name })
        }
        TargetStart::Next => next_target(cursor),
        TargetStart::None => Err(Fault::Parse),
    }
}

/// `await ( e ) ;`
pub fn awaited(
    alloc: Global,
    cursor: &mut Cursor<'_>,
    label: Option<NameAt>,
    immediate: bool,
    room: u32,
) -> Result<FileStmt, Fault>
    ensures { 1 ≤ room → Reads (awaited label immediate) room cursor.old cursor.new result }
{
    cursor.pass(Mark::Await)?;
    let cond = condition(alloc, cursor, room)?;
    cursor.pass(Mark::Semicolon)?;
    Ok(FileStmt::Await {
        label,
        immediate,
        cond,
    })
}

/// What follows `emit`: a target, or one in parentheses.
pub fn emitted(cursor: &mut Cursor<'_>) -> Result<Target, Fault>
    ensures { (room : ℕ) → Reads (λ _. emitted) room cursor.old cursor.new result }
{
    match cursor.peek().emit() {
        EmitStart::Paren => {
            cursor.pass(Mark::OpenParen)?;
            let inside = target(cursor)?;
            cursor.pass(Mark::CloseParen)?;
            Ok(inside)
        }
        EmitStart::Target => {
            let plain = target(cursor)?;
            Ok(plain)
        }
    }
}

/// `, e`
pub fn next_argument(alloc: Global, cursor: &mut Cursor<'_>, room: u32) -> Result<FileExpr, Fault>
    ensures { 1 ≤ room → Reads next_arg room cursor.old cursor.new result }
{
    cursor.pass(Mark::Comma)?;
    let value = expression(alloc, cursor, room)?;
    Ok(value)
}
