//! Laws of canonical texts, of every file that some text spells, whatever its offsets are (`specs/Readings.antt`).
//!
//! The words that the printer writes for a tree spell the same tree by the grammar, production by production; and a
//! text of words with one space between each two is cut into these words again.
#![tactic(auto)]

ghost use Rattle.std.specs.Prelude.{◌≡◌};
ghost use Rattle.qz_syntax.specs.declared.files.File.{File};
ghost use Rattle.qz_printer.specs.Files.{canonical_text};
ghost use Rattle.printer_laws.specs.Readings.{CanBeSpelled, IsReadAs, IsOnlySource};

/// The canonical text of a file is a source of the same file, but for offsets.
pub fn canonical_text_is_read()
    ensures { (f : File) → CanBeSpelled f → IsReadAs (canonical_text f) f }
{}

/// What is read of a canonical text has this text as its canonical text.
pub fn canonical_text_is_printed_again()
    ensures { (f g : File) → CanBeSpelled f → IsOnlySource (canonical_text f) g → canonical_text g ≡ canonical_text f }
{}
