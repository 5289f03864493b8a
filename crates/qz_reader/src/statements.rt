//! Reads statements and blocks.

ghost use Rattle.std.specs.Prelude.{ℕ, ◌≡◌, ◌≤◌, ◌+◌, true};
ghost use Rattle.qz_phrases.specs.Reading.{Reads, Skims};
ghost use Rattle.qz_reader.specs.declared.starts.StmtStart.TheVariants as the_start;
ghost use Rattle.qz_reader.specs.Starts.{stmt_need};
ghost use Rattle.qz_reader.specs.Statements.{preempted, preempting, a_preemption, after_weak, after_immediate, an_else, a_list, lists, a_block, an_if, a_do, rounded, a_round, a_loop, stmt_row, a_stmt};

use crate::blocks::{declarations, list_end};
use crate::resting::{bare, closing, emit, guarded, named, next_assigned};
use crate::starts::{
    ElseStart, ImmediateStart, PreemptStart, Preemption, Round, StmtStart, WeakStart, ends_list,
};
use qz_phrases::{Cursor, Fault, Mark, awaited};
use qz_syntax::{Cond, FileBlock, FileStmt, Kind};
use sqlite_items::{Boxed, Items};
use std::alloc::Global;

/// A statement of at most this many levels.
#[cycle(statement)]
fn statement(alloc: Global, cursor: &mut Cursor<'_>, room: u32) -> Result<FileStmt, Fault>
    ensures reads { Reads a_stmt room cursor.old cursor.new result }
{
    let start = StmtStart::of(cursor.peek());
    if room < start.need() {
        return Err(Fault::Deep);
    }
    match start {
        StmtStart::None => Err(Fault::Parse),
        _ => by_start(alloc, cursor, start, room - 1),
    }
}

/// A statement that begins so, where its parts have at most this many levels.
#[cycle(statement)]
fn by_start(
    alloc: Global,
    cursor: &mut Cursor<'_>,
    start: StmtStart,
    room: u32,
) -> Result<FileStmt, Fault>
    ensures reads { stmt_need start ≤ room + 1 → Reads (λ levels. stmt_row (a_stmt levels) start levels) room cursor.old cursor.new result }
{
    match start {
        StmtStart::Nothing => {
            bare(cursor, Mark::Nothing)?;
            Ok(FileStmt::Nothing)
        }
        StmtStart::Pause => {
            bare(cursor, Mark::Pause)?;
            Ok(FileStmt::Pause(None))
        }
        StmtStart::Halt => {
            bare(cursor, Mark::Halt)?;
            Ok(FileStmt::Halt(None))
        }
        StmtStart::Await => awaited(alloc, cursor, None, false, room),
        StmtStart::Immediate => immediate(alloc, cursor, room),
        StmtStart::Weak => weak(alloc, cursor, room),
        StmtStart::Preempt(form) => preempting(alloc, cursor, form, false, false, room),
        StmtStart::Name => named(alloc, cursor, room),
        StmtStart::Next => next_assigned(alloc, cursor, room),
        StmtStart::Emit => emit(cursor),
        StmtStart::Block => {
            let block = block(alloc, cursor, room)?;
            Ok(FileStmt::Block(block))
        }
        StmtStart::If => conditional(alloc, cursor, room),
        StmtStart::Do => do_while(alloc, cursor, room),
        StmtStart::Round(round) => round_statement(alloc, cursor, round, room),
        StmtStart::Loop => loop_statement(alloc, cursor, room),
        StmtStart::None => Err(Fault::Parse),
    }
}

/// A statement in a box.
#[cycle(statement)]
fn inner(alloc: Global, cursor: &mut Cursor<'_>, room: u32) -> Result<Boxed<FileStmt>, Fault>
    ensures reads { Reads a_stmt room cursor.old cursor.new result }
{
    let found = statement(alloc, cursor, room)?;
    let boxed = Boxed::new(alloc, found)?;
    Ok(boxed)
}

/// The statement of a preemption.
fn preempted(
    form: Preemption,
    weak: bool,
    immediate: bool,
    inner: Boxed<FileStmt>,
    cond: Cond,
) -> FileStmt
    ensures { result ≡ preempted form weak immediate inner cond }
{
    let kind = Kind { weak, immediate };
    match form {
        Preemption::Abort => FileStmt::Abort(kind, inner, cond),
        Preemption::Suspend => FileStmt::Suspend(kind, inner, cond),
    }
}

/// `abort S when ( e ) ;` or `suspend S when ( e ) ;`
#[cycle(statement)]
fn preempting(
    alloc: Global,
    cursor: &mut Cursor<'_>,
    form: Preemption,
    weak: bool,
    immediate: bool,
    room: u32,
) -> Result<FileStmt, Fault>
    ensures reads { 1 ≤ room → Reads (λ levels. preempting (a_stmt levels) weak immediate form levels) room cursor.old cursor.new result }
{
    cursor.pass(form.mark())?;
    let body = inner(alloc, cursor, room)?;
    let cond = closing(alloc, cursor, Mark::When, room)?;
    Ok(preempted(form, weak, immediate, body, cond))
}

/// A preemption after its first words.
#[cycle(statement)]
fn preemption(
    alloc: Global,
    cursor: &mut Cursor<'_>,
    weak: bool,
    immediate: bool,
    room: u32,
) -> Result<FileStmt, Fault>
    ensures reads { 1 ≤ room → Reads (λ levels. a_preemption (a_stmt levels) weak immediate levels) room cursor.old cursor.new result }
{
    match PreemptStart::of(cursor.peek()) {
        PreemptStart::Form(form) => preempting(alloc, cursor, form, weak, immediate, room),
        PreemptStart::None => Err(Fault::Parse),
    }
}

/// What follows `weak`.
#[cycle(statement)]
fn after_weak(alloc: Global, cursor: &mut Cursor<'_>, room: u32) -> Result<FileStmt, Fault>
    ensures reads { 1 ≤ room → Reads (λ levels. after_weak (a_stmt levels) levels) room cursor.old cursor.new result }
{
    match WeakStart::of(cursor.peek()) {
        WeakStart::Immediate => {
            cursor.pass(Mark::Immediate)?;
            let found = preemption(alloc, cursor, true, true, room)?;
            Ok(found)
        }
        WeakStart::Plain => preemption(alloc, cursor, true, false, room),
    }
}

/// A statement that begins with `weak`.
#[cycle(statement)]
fn weak(alloc: Global, cursor: &mut Cursor<'_>, room: u32) -> Result<FileStmt, Fault>
    ensures reads { 1 ≤ room → Reads (λ levels. stmt_row (a_stmt levels) the_start.Weak levels) room cursor.old cursor.new result }
{
    cursor.pass(Mark::Weak)?;
    let found = after_weak(alloc, cursor, room)?;
    Ok(found)
}

/// What follows `immediate`.
#[cycle(statement)]
fn after_immediate(alloc: Global, cursor: &mut Cursor<'_>, room: u32) -> Result<FileStmt, Fault>
    ensures reads { 1 ≤ room → Reads (λ levels. after_immediate (a_stmt levels) levels) room cursor.old cursor.new result }
{
    match ImmediateStart::of(cursor.peek()) {
        ImmediateStart::Await => awaited(alloc, cursor, None, true, room),
        ImmediateStart::Preempt => preemption(alloc, cursor, false, true, room),
    }
}

/// A statement that begins with `immediate`.
#[cycle(statement)]
fn immediate(alloc: Global, cursor: &mut Cursor<'_>, room: u32) -> Result<FileStmt, Fault>
    ensures reads { 1 ≤ room → Reads (λ levels. stmt_row (a_stmt levels) the_start.Immediate levels) room cursor.old cursor.new result }
{
    cursor.pass(Mark::Immediate)?;
    let found = after_immediate(alloc, cursor, room)?;
    Ok(found)
}

/// `else` and a statement, if `else` comes.
#[cycle(statement)]
fn other(
    alloc: Global,
    cursor: &mut Cursor<'_>,
    room: u32,
) -> Result<Option<Boxed<FileStmt>>, Fault>
    ensures reads { 1 ≤ room → Skims (λ levels. an_else (a_stmt levels)) room cursor.old cursor.new result }
{
    match ElseStart::of(cursor.peek()) {
        ElseStart::Else => {
            cursor.pass(Mark::Else)?;
            let side = inner(alloc, cursor, room)?;
            Ok(Some(side))
        }
        ElseStart::None => Ok(None),
    }
}

/// `if ( e ) S` with `else S` or without.
#[cycle(statement)]
fn conditional(alloc: Global, cursor: &mut Cursor<'_>, room: u32) -> Result<FileStmt, Fault>
    ensures reads { 1 ≤ room → Reads (λ levels. an_if (a_stmt levels) levels) room cursor.old cursor.new result }
{
    let cond = guarded(alloc, cursor, Mark::If, room)?;
    let yes = inner(alloc, cursor, room)?;
    let no = other(alloc, cursor, room)?;
    Ok(FileStmt::If(cond, yes, no))
}

/// `do S while ( e ) ;`
#[cycle(statement)]
fn do_while(alloc: Global, cursor: &mut Cursor<'_>, room: u32) -> Result<FileStmt, Fault>
    ensures reads { 1 ≤ room → Reads (λ levels. a_do (a_stmt levels) levels) room cursor.old cursor.new result }
{
    cursor.pass(Mark::Do)?;
    let body = inner(alloc, cursor, room)?;
    let cond = closing(alloc, cursor, Mark::While, room)?;
    Ok(FileStmt::DoWhile(body, cond))
}

/// The statement of a condition before its body.
fn rounded(round: Round, cond: Cond, body: Boxed<FileStmt>) -> FileStmt
    ensures { result ≡ rounded round cond body }
{
    match round {
        Round::While => FileStmt::While(cond, body),
        Round::Every => FileStmt::Every(cond, body),
    }
}

/// `while ( e ) S` or `every ( e ) S`
#[cycle(statement)]
fn round_statement(
    alloc: Global,
    cursor: &mut Cursor<'_>,
    round: Round,
    room: u32,
) -> Result<FileStmt, Fault>
    ensures reads { 1 ≤ room → Reads (λ levels. a_round (a_stmt levels) round levels) room cursor.old cursor.new result }
{
    let cond = guarded(alloc, cursor, round.mark(), room)?;
    let body = inner(alloc, cursor, room)?;
    Ok(rounded(round, cond, body))
}

/// `loop S`
#[cycle(statement)]
fn loop_statement(alloc: Global, cursor: &mut Cursor<'_>, room: u32) -> Result<FileStmt, Fault>
    ensures reads { 1 ≤ room → Reads (λ levels. a_loop (a_stmt levels)) room cursor.old cursor.new result }
{
    cursor.pass(Mark::Loop)?;
    let body = inner(alloc, cursor, room)?;
    Ok(FileStmt::Loop(body))
}

/// Statements up to `||` or `}`, and whether another list comes.
#[cycle(statement)]
fn list(alloc: Global, cursor: &mut Cursor<'_>, room: u32) -> Result<(Items<FileStmt>, bool), Fault>
    ensures reads { Reads (λ levels. a_list (a_stmt levels) true) room cursor.old cursor.new result }
{
    let mut list = Items::new(alloc);
    while !ends_list(cursor.peek()) {
        let next = statement(alloc, cursor, room)?;
        list.push(next)?;
    }
    let more = list_end(cursor)?;
    Ok((list, more))
}

/// The lists of a block and the brace that closes it.
#[cycle(statement)]
fn lists(alloc: Global, cursor: &mut Cursor<'_>, room: u32) -> Result<Items<Items<FileStmt>>, Fault>
    ensures reads { Skims (λ levels. lists (a_stmt levels)) room cursor.old cursor.new result }
{
    let mut lists = Items::new(alloc);
    let mut more = true;
    while more {
        let (list, another) = list(alloc, cursor, room)?;
        lists.push(list)?;
        more = another;
    }
    Ok(lists)
}

/// A block whose statements have at most this many levels.
#[cycle(statement)]
pub(crate) fn block(alloc: Global, cursor: &mut Cursor<'_>, room: u32) -> Result<FileBlock, Fault>
    ensures reads { Reads (λ levels. a_block (a_stmt levels)) room cursor.old cursor.new result }
{
    cursor.pass(Mark::OpenBrace)?;
    let decls = declarations(alloc, cursor)?;
    let lists = lists(alloc, cursor, room)?;
    Ok(FileBlock { decls, lists })
}
