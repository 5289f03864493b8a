//! From bytes to the tree of a file.

ghost use Rattle.std.specs.Prelude.{◌≡◌, ◌≤◌, List, length, IfOk, IfErr};
ghost use Rattle.qz_syntax.specs.declared.files.File.{File};
ghost use Rattle.qz_phrases.specs.declared.words.Spot.{Spot};
ghost use Rattle.qz_reader.specs.Texts.{IsFile, most};
ghost use Rattle.qz_source.specs.Sources.{IsSource, IsSourceFault, HasWords, IsWordsFault, IsNoWords, offset_at};

use crate::faults::SourceFault;
use crate::words::spots;
use qz_lexer::lex;
use qz_phrases::Spot;
use qz_reader::{WordsFault, read_words};
use qz_syntax::File;
use std::alloc::Global;
use std::str;

/// The file that these bytes spell, at most 1 MiB (1048576) of them.
///
/// Answers `NotUtf8` with the length of the longest front that is UTF-8, `Lex` with the first offset at which no
/// token, white space or comment begins, and `Parse` or `Deep` with the offset of the first token with which no
/// file within 128 levels begins: `Deep` where one with more levels does. Where the tokens begin a file and are
/// none, it is `Parse` at the text's length.
pub fn read_module(alloc: Global, bytes: &[u8]) -> Result<File, SourceFault>
    requires { length bytes.now ≤ 1048576 }
    ensures found { IfOk result (IsSource bytes.now) }
    // The bytes spell no other file.
    ensures only { IfOk result (λ f. (other : File) → IsSource bytes.now other → other ≡ f) }
    ensures refused { IfErr result (IsSourceFault bytes.now) }
{
    let words = words_of(alloc, bytes)?;
    file_of(alloc, words.as_slice(), bytes.len() as u32)
}

/// The words of a text, or why it has none.
fn words_of(alloc: Global, bytes: &[u8]) -> Result<Vec<Spot>, SourceFault>
    requires { length bytes.now ≤ 1048576 }
    ensures found { IfOk result (λ words. HasWords bytes.now words.items) }
    ensures only { IfOk result (λ words. (others : List Spot) → HasWords bytes.now others → others ≡ words.items) }
    ensures refused { IfErr result (IsNoWords bytes.now) }
{
    match str::from_utf8(bytes) {
        Ok(text) => {
            let tokens = lex(alloc, text)?;
            Ok(spots(alloc, tokens.as_slice())?)
        }
        Err(error) => Err(SourceFault::NotUtf8 {
            offset: error.valid_up_to() as u32,
        }),
    }
}

/// The file that these words of a text of this length spell.
fn file_of(alloc: Global, words: &[Spot], end: u32) -> Result<File, SourceFault>
    ensures found { IfOk result (IsFile most words.now) }
    ensures only { IfOk result (λ f. (other : File) → IsFile most words.now other → other ≡ f) }
    ensures refused { IfErr result (IsWordsFault words.now end) }
{
    match read_words(alloc, words) {
        Ok(file) => Ok(file),
        Err(WordsFault::Parse(number)) => Err(SourceFault::Parse {
            offset: offset_at(words, number, end),
        }),
        Err(WordsFault::Deep(number)) => Err(SourceFault::Deep {
            offset: offset_at(words, number, end),
        }),
        Err(WordsFault::Memory) => Err(SourceFault::Memory),
    }
}

/// The offset of the word of this number, and after the last word the text's length.
#[tactic(auto, using(crate::proofs::Wholes::offset_in, crate::proofs::Wholes::offset_past))]
fn offset_at(words: &[Spot], number: usize, end: u32) -> u32
    ensures { result ≡ offset_at end words.now number }
{
    if number < words.len() {
        words[number].at
    } else {
        end
    }
}
