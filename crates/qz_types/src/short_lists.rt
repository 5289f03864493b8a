//! Lists that are so short that each member has a number of 32 bits. No text has a longer one.

ghost use Rattle.std.specs.Prelude.{◌≡◌, map, nat_lt, ◌^◌};
ghost use Rattle.qz_syntax.specs.declared.file_statements.FileStmt.TheVariants.{Block};
ghost use Rattle.qz_types.specs.ShortLists.{has_short_lists, list_is_short};

use qz_syntax::{FileBlock, FileStmt};

/// Whether all lists in a block are short.
#[tactic(auto, using(crate::proofs::ShortLemmas::short_forms))]
#[cycle(short)]
pub(crate) fn lists_are_short(inner: &FileBlock) -> bool
    ensures { result ≡ has_short_lists (Block inner.now) }
{
    for list in inner.lists.as_slice() {
        if !statements(list.as_slice()) {
            return false;
        }
    }
    is_short(inner.lists.len())
}

/// Whether all lists in a statement are short.
#[tactic(auto, using(crate::proofs::ShortLemmas::short_forms))]
#[cycle(short)]
fn statement(s: &FileStmt) -> bool
    ensures { result ≡ has_short_lists s.now }
{
    match s {
        FileStmt::Nothing
        | FileStmt::Pause(_)
        | FileStmt::Halt(_)
        | FileStmt::Await { .. }
        | FileStmt::Assign { .. }
        | FileStmt::Emit(_)
        | FileStmt::Call { .. } => true,
        FileStmt::Block(inner) => lists_are_short(inner),
        FileStmt::If(_, yes, None) => statement(yes.get()),
        FileStmt::If(_, yes, Some(no)) => statement(yes.get()) && statement(no.get()),
        FileStmt::DoWhile(body, _)
        | FileStmt::While(_, body)
        | FileStmt::Loop(body)
        | FileStmt::Every(_, body)
        | FileStmt::Abort(_, body, _)
        | FileStmt::Suspend(_, body, _) => statement(body.get()),
    }
}

/// Whether a list of statements is short, and all lists in it.
#[cycle(short)]
fn statements(list: &[FileStmt]) -> bool
    ensures { result ≡ list_is_short (map has_short_lists list.now) }
{
    for s in list {
        if !statement(s) {
            return false;
        }
    }
    is_short(list.len())
}

/// Whether there are numbers for so many members.
fn is_short(members: usize) -> bool
    ensures { result ≡ nat_lt members (2 ^ 32) }
{
    u32::try_from(members).is_ok()
}
