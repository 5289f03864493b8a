//! Reading a module's text.

ghost use Rattle.std.specs.Prelude.{◌≤◌, List, ℕ, length};
ghost use Rattle.qz_vread.specs.Answers.{IsAnswer, IsLast};

use crate::bytes::split_at;
use crate::drafts::Draft;
use qz_verilog::VModule;
use std::alloc::{AllocError, Global};
use thiserror::Error;

/// Why bytes weren't read as a module's text.
#[derive(Clone, Copy, Debug, PartialEq, Eq, Error)]
pub enum BadVerilog {
    /// This line, counted from 1, is the first that no module's text has after the lines before it.
    #[error("line {line} can't come there")]
    At { line: u32 },
    /// No memory was left.
    #[error("out of memory")]
    Memory,
}

impl From<AllocError> for BadVerilog {
    ghost use Rattle.std.specs.Prelude.{◌≡◌};
    ghost use Rattle.qz_vread.specs.declared.read.BadVerilog.TheVariants.{Memory};

    ghost from_gives = { λ _ fault. fault ≡ Memory };

    fn from(_error: AllocError) -> BadVerilog {
        BadVerilog::Memory
    }
}

/// The module that has these bytes as its text. There are at most 64 MiB.
///
/// # Errors
///
/// `At` just where the bytes are no module's text: the first line that no such text has after the
/// lines before it. A line that no line feed ends is such a line, and so is one that isn't UTF-8.
/// Where the text ends too early, it is the number of its lines plus 1.
///
/// `Memory` where no memory was left.
pub fn read_v(alloc: Global, bytes: &[u8]) -> Result<VModule, BadVerilog>
    requires { length bytes.now ≤ 67108864 }
    ensures { IsAnswer bytes.now result }
{
    let mut draft = Draft::new(alloc);
    let mut rest = bytes;
    let mut line = 1;
    while let Some((text, later)) = split_at(rest, b'\n') {
        if !draft.take(alloc, text)? {
            return Err(BadVerilog::At { line });
        }
        rest = later;
        line += 1;
    }
    whole(draft, rest, line)
}

/// The module, where nothing follows its last line.
fn whole(draft: Draft, rest: &[u8], line: u32) -> Result<VModule, BadVerilog>
    ensures { (bytes : List ℕ) → IsLast bytes draft rest.now line → IsAnswer bytes result }
{
    if !rest.is_empty() {
        return Err(BadVerilog::At { line });
    }
    match draft.whole() {
        Some(m) => Ok(m),
        None => Err(BadVerilog::At { line }),
    }
}
