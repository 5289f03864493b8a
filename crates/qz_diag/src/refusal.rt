//! The refusals, and their lines.

use crate::words::{ByteFault, text_of_byte_fault, text_of_doubt, text_of_trace_fault};
use qz_syntax::{Doubt, Name};
use qz_trace::TraceKind;
use std::alloc::{AllocError, Global};

/// What is said. A file is named as its word is.
#[derive(Debug, Drop)]
pub enum Refusal {
    /// The words break a rule.
    Usage,
    /// No such file is held.
    Absent {
        file: String,
    },
    /// The file has more bytes than its limit.
    TooLong {
        file: String,
    },
    /// The file's bytes are no text of the language that can be built yet.
    NotBuilt {
        file: String,
    },
    /// The file's bytes are at fault at this byte, counted from 0.
    AtByte {
        file: String,
        fault: ByteFault,
        offset: u32,
    },
    /// The file's module is too large; its size.
    FileSize {
        file: String,
        units: u64,
    },
    /// The Verilog module in the file has this name, and not the one that was asked for.
    WrongName {
        file: String,
        name: Name,
    },
    /// This line of a Verilog text, counted from 1, can't come there.
    BadVerilog {
        file: String,
        line: u32,
    },
    /// No module has this name.
    Missing {
        name: String,
    },
    /// The body of this loop, by its number in the module, may end at once.
    InstantLoop {
        module: Name,
        number: u32,
    },
    /// The whole program is too large; its size.
    Size {
        units: u64,
    },
    /// The first line of a trace at fault, counted from 1, and what is at fault in it.
    BadTrace {
        file: String,
        line: u32,
        kind: TraceKind,
    },
    /// The first step that isn't definite, counted from 1, and the first instance in doubt there.
    NotDefinite {
        step: u32,
        name: String,
        doubt: Doubt,
    },
}

impl Refusal {
    ghost use Rattle.std.specs.Prelude.{◌≡◌, IfOk, string_bytes};
    ghost use Rattle.qz_diag.specs.Causes.{cause_of, line_of};

    /// The line, with its end.
    pub fn line(&self, alloc: Global) -> Result<String, AllocError>
        ensures { IfOk result (λ line. string_bytes line ≡ line_of (cause_of self.now)) }
    {
        match self {
            Refusal::Usage => String::from_str(alloc, "usage: quartzc MODE NAME FILE...\n"),
            Refusal::Absent { file } => format!(in alloc; "{file}: absent\n"),
            Refusal::TooLong { file } => format!(in alloc; "{file}: too long\n"),
            Refusal::NotBuilt { file } => format!(in alloc; "{file}: not built yet\n"),
            Refusal::AtByte {
                file,
                fault,
                offset,
            } => {
                let text = text_of_byte_fault(*fault);
                format!(in alloc; "{file}: {text} at byte {offset}\n")
            }
            Refusal::FileSize { file, units } => {
                format!(in alloc; "{file}: size {units} is above 100000\n")
            }
            Refusal::WrongName { file, name } => {
                let name = name.as_str();
                format!(in alloc; "{file}: module is {name}\n")
            }
            Refusal::BadVerilog { file, line } => {
                format!(in alloc; "{file}: bad Verilog at line {line}\n")
            }
            Refusal::Missing { name } => format!(in alloc; "module {name} is missing\n"),
            Refusal::InstantLoop { module, number } => {
                let module = module.as_str();
                format!(in alloc; "loop {number} of {module} may end at once\n")
            }
            Refusal::Size { units } => format!(in alloc; "size {units} is above 100000\n"),
            Refusal::BadTrace { file, line, kind } => {
                let fault = text_of_trace_fault(*kind);
                format!(in alloc; "{file}: line {line} {fault}\n")
            }
            Refusal::NotDefinite { step, name, doubt } => {
                let doubt = text_of_doubt(*doubt);
                format!(in alloc; "step {step}: {name} {doubt}\n")
            }
        }
    }
}
