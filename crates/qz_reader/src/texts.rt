//! Reads all words of a text.

ghost use Rattle.std.specs.Prelude.{◌≡◌, ℕ, IfOk, IfErr};
ghost use Rattle.qz_syntax.specs.declared.files.File.{File};
ghost use Rattle.qz_reader.specs.Texts.{IsFile, most, Refuses};

use crate::files::file;
use qz_phrases::{Cursor, Fault, Spot};
use qz_syntax::File;
use std::alloc::Global;

/// Why words are no file.
#[derive(Clone, Copy, Debug, PartialEq, Eq)]
pub enum WordsFault {
    /// With the words up to and with the one of this number, from 0, begins no file. After the last word: the
    /// words begin a file and are none.
    Parse(usize),
    /// Only a file with a level above 128 begins so.
    Deep(usize),
    /// Memory ran out.
    Memory,
}

/// The file that all these words spell.
///
/// No level of it is above 128: the module's block has level 1, and a statement or an expression has one level
/// more than what holds it. Otherwise the first word is told with which no such file begins.
pub fn read_words(alloc: Global, words: &[Spot]) -> Result<File, WordsFault>
    ensures found { IfOk result (λ f. IsFile most words.now f) }
    // No other file is spelled so, of however many levels.
    ensures only { IfOk result (λ f. (levels : ℕ) (other : File) → IsFile levels words.now other → other ≡ f) }
    ensures refused { IfErr result (Refuses words.now) }
{
    let mut cursor = Cursor { words, read: 0 };
    match file(alloc, &mut cursor, 127) {
        Ok(found) => {
            if cursor.read < words.len() {
                return Err(WordsFault::Parse(cursor.read));
            }
            Ok(found)
        }
        Err(Fault::Parse) => Err(WordsFault::Parse(cursor.read)),
        Err(Fault::Deep) => Err(WordsFault::Deep(cursor.read)),
        Err(Fault::Memory) => Err(WordsFault::Memory),
    }
}
