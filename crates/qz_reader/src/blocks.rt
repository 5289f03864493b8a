//! Reads what a block has beside its statements.

ghost use Rattle.std.specs.Prelude.{ℕ};
ghost use Rattle.qz_phrases.specs.Reading.{Reads, Skims};
ghost use Rattle.qz_reader.specs.Statements.{list_end, decls};

use crate::starts::{EndStart, declares};
use qz_phrases::{Cursor, Fault, Mark, declaration};
use qz_syntax::FileDecl;
use sqlite_items::Items;
use std::alloc::Global;

/// `||` or `}`, and whether it is `||`.
pub(crate) fn list_end(cursor: &mut Cursor<'_>) -> Result<bool, Fault>
    ensures { (room : ℕ) → Reads (λ _. list_end) room cursor.old cursor.new result }
{
    match EndStart::of(cursor.peek()) {
        EndStart::Bars => {
            cursor.pass(Mark::BarBar)?;
            Ok(true)
        }
        EndStart::Brace => {
            cursor.pass(Mark::CloseBrace)?;
            Ok(false)
        }
        EndStart::None => Err(Fault::Parse),
    }
}

/// The declarations that a block begins with.
pub(crate) fn declarations(alloc: Global, cursor: &mut Cursor<'_>) -> Result<Items<FileDecl>, Fault>
    ensures { (room : ℕ) → Skims (λ _. decls) room cursor.old cursor.new result }
{
    let mut decls = Items::new(alloc);
    while declares(cursor.peek()) {
        let next = declaration(alloc, cursor)?;
        decls.push(next)?;
    }
    Ok(decls)
}
