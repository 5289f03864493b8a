//! Why a text is no trace.

ghost use Rattle.std.specs.Prelude.{◌≡◌};
ghost use Rattle.qz_trace.specs.Reading.{bad_at};
ghost use Rattle.qz_trace.specs.declared.faults.BadTrace.TheVariants.{Memory};
ghost use Rattle.qz_trace.specs.declared.faults.BadLine.TheVariants.{Fault, Memory as LineMemory};

use std::alloc::{AllocError, AllocFailed};
use thiserror::Error;

/// What is at fault in a line. Of a line the first that holds is told.
#[derive(Debug, Drop, Clone, Copy, PartialEq, Eq)]
pub enum TraceKind {
    /// No LF ends it.
    End,
    /// It has another number of fields than there are values in a row.
    Count,
    /// The leftmost field at fault is no decimal number without leading zeros.
    Form,
    /// The leftmost field at fault is a number that is too large for its type.
    Range,
}

/// Why a text is no trace.
#[derive(Debug, Drop, Clone, Copy, PartialEq, Eq, Error)]
pub enum BadTrace {
    /// The first line at fault, counted from 1, and what is at fault in it.
    #[error("line {line} of the trace is at fault")]
    At { line: u32, kind: TraceKind },
    /// Memory ran out.
    #[error("out of memory")]
    Memory,
}

impl From<AllocError> for BadTrace {
    ghost from_gives = { λ _ e. e ≡ Memory };

    fn from(_error: AllocError) -> BadTrace {
        BadTrace::Memory
    }
}

/// Why a line gives no row.
#[derive(Debug, Drop, Clone, Copy, PartialEq, Eq)]
pub(crate) enum BadLine {
    /// What is at fault in it.
    Fault(TraceKind),
    /// Memory ran out.
    Memory,
}

impl BadLine {
    /// Why the text is no trace, where this is the line's number.
    pub fn at(self, line: u32) -> BadTrace
        ensures { result ≡ bad_at line self }
    {
        match self {
            BadLine::Fault(kind) => BadTrace::At { line, kind },
            BadLine::Memory => BadTrace::Memory,
        }
    }
}

impl From<TraceKind> for BadLine {
    ghost from_gives = { λ kind e. e ≡ Fault kind };

    fn from(kind: TraceKind) -> BadLine {
        BadLine::Fault(kind)
    }
}

impl From<AllocError> for BadLine {
    ghost from_gives = { λ _ e. e ≡ LineMemory };

    fn from(_error: AllocError) -> BadLine {
        BadLine::Memory
    }
}

impl<T: Drop> From<AllocFailed<T>> for BadLine {
    ghost from_gives = { λ _ e. e ≡ LineMemory };

    fn from(_error: AllocFailed<T>) -> BadLine {
        BadLine::Memory
    }
}
