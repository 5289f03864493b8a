//! The mode `build`: from its words to the file that it puts, or to why it puts none.

ghost use Rattle.std.specs.Prelude.{◌≤◌, [], ◌∷◌, length, MatchResult};
ghost use Rattle.qz_io.specs.Answers.{IfBytes};
ghost use Rattle.qz_driver.specs.Answers.{files_seen};
ghost use Rattle.qz_driver.specs.BuildRow.{build_row, BuildMakes, IsOfContent, IsOfBytes};
ghost use Rattle.qz_driver.specs.Work.{content_of, IsWork, StopsOver};
ghost use Rattle.qz_driver.specs.Rows.{Bytes};

use crate::files::{content, output_file};
use crate::words::Named;
use crate::work::{Output, Stop};
use qz_diag::Refusal;
use qz_first::{MAX_SOURCE, NoText, verilog_of_source};
use qz_io::{Files, Got};
use std::alloc::Global;

/// Reads the file, and makes the text of the module that was asked for.
pub fn build<F: Files>(alloc: Global, asked: Named<'_>, files: &mut F) -> Result<Output, Stop>
    ensures { IsWork (build_row asked.entry.name.now asked.entry.file.now) (files_seen F.Files files.old)
        (files_seen F.Files files.new) result }
{
    let got = match content(alloc, files, asked.file, MAX_SOURCE) {
        Ok(got) => got,
        Err(stop) => return Err(stop),
    };
    match verilog_of(alloc, asked, &got) {
        Ok(text) => output_file(alloc, asked.name, ".v", text),
        Err(stop) => Err(stop),
    }
}

/// The Verilog text of the module that was asked for, from what was found under the file's name.
fn verilog_of(alloc: Global, asked: Named<'_>, got: &Got) -> Result<Vec<u8>, Stop>
    requires { IfBytes got.now (λ bytes. length bytes ≤ 1048576) }
    ensures { MatchResult result
        (λ text. BuildMakes asked.entry.name.now (content_of got.now ∷ []) text.items)
        (StopsOver (IsOfContent asked.entry.name.now asked.entry.file.now (content_of got.now))) }
{
    match got {
        Got::Absent => Err(Stop::Refused(Refusal::Absent {
            file: String::from_str(alloc, asked.file)?,
        })),
        Got::TooLong => Err(Stop::Refused(Refusal::NotBuilt {
            file: String::from_str(alloc, asked.file)?,
        })),
        Got::Bytes(bytes) => verilog_of_bytes(alloc, asked, bytes.as_slice()),
    }
}

/// The same from the file's bytes.
fn verilog_of_bytes(alloc: Global, asked: Named<'_>, bytes: &[u8]) -> Result<Vec<u8>, Stop>
    requires { length bytes.now ≤ 1048576 }
    ensures { MatchResult result
        (λ text. BuildMakes asked.entry.name.now (Bytes bytes.now ∷ []) text.items)
        (StopsOver (IsOfBytes asked.entry.name.now asked.entry.file.now bytes.now)) }
{
    match verilog_of_source(alloc, asked.name, bytes) {
        Ok(text) => Ok(text),
        Err(NoText::NotBuilt) => Err(Stop::Refused(Refusal::NotBuilt {
            file: String::from_str(alloc, asked.file)?,
        })),
        Err(NoText::InstantLoop { module, number }) => Err(Stop::Refused(Refusal::InstantLoop {
            module,
            number,
        })),
        Err(NoText::Memory) => Err(Stop::Memory),
    }
}
