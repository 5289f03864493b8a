//! Reads a file.

ghost use Rattle.std.specs.Prelude.{◌≡◌};
ghost use Rattle.qz_phrases.specs.Reading.{Reads};
ghost use Rattle.qz_reader.specs.Files.{opens, a_file};

use crate::formals::head;
use crate::statements::block;
use qz_phrases::{Cursor, Fault, Mark, Sort};
use qz_syntax::File;
use sqlite_items::Items;
use std::alloc::Global;

/// Whether a word begins the body of a module.
fn opens(word: Sort) -> bool
    ensures { result ≡ opens word }
{
    match word {
        Sort::Mark(mark) => matches!(mark, Mark::OpenBrace),
        Sort::Name | Sort::Number | Sort::Literal | Sort::End => false,
    }
}

/// A file whose statements have at most this many levels.
pub(crate) fn file(alloc: Global, cursor: &mut Cursor<'_>, room: u32) -> Result<File, Fault>
    ensures { Reads a_file room cursor.old cursor.new result }
{
    let mut protos = Items::new(alloc);
    loop {
        let head = head(alloc, cursor)?;
        if opens(cursor.peek()) {
            let body = block(alloc, cursor, room)?;
            return Ok(File {
                protos,
                module: head,
                body,
            });
        }
        cursor.pass(Mark::Semicolon)?;
        protos.push(head)?;
    }
}
