//! The rows of inputs that a run is over, as they are held.

ghost use Rattle.std.specs.Prelude.{◌≤◌, length, MatchResult, string_bytes};
ghost use Rattle.std.specs.List.{AllByRecursion};
ghost use Rattle.qz_values.specs.Types.{IsType};
ghost use Rattle.qz_io.specs.Answers.{IfBytes};
ghost use Rattle.qz_driver.specs.SimRow.{IsOfInputs, IsOfTrace};
ghost use Rattle.qz_driver.specs.Running.{AreFound};
ghost use Rattle.qz_driver.specs.Work.{content_of, StopsOver};
ghost use Rattle.qz_driver.specs.Rows.{Bytes};

use crate::work::Stop;
use qz_diag::Refusal;
use qz_io::Got;
use qz_trace::{BadTrace, Trace, read_trace};
use qz_values::Ty;
use std::alloc::Global;

/// The rows of values of these types, from what was found under the name of the inputs.
pub fn inputs_in(alloc: Global, input: String, types: &[Ty], got: &Got) -> Result<Trace, Stop>
    requires types { AllByRecursion IsType types.now }
    requires within { IfBytes got.now (λ bytes. length bytes ≤ 16777216) }
    ensures { MatchResult result (AreFound types.now (content_of got.now))
        (StopsOver (IsOfInputs (string_bytes input) types.now (content_of got.now))) }
{
    match got {
        Got::Absent => Err(Stop::Refused(Refusal::Absent { file: input })),
        Got::TooLong => Err(Stop::Refused(Refusal::TooLong { file: input })),
        Got::Bytes(bytes) => inputs_in_bytes(alloc, input, types, bytes.as_slice()),
    }
}

/// The same from the bytes.
fn inputs_in_bytes(alloc: Global, input: String, types: &[Ty], bytes: &[u8]) -> Result<Trace, Stop>
    requires types { AllByRecursion IsType types.now }
    requires within { length bytes.now ≤ 16777216 }
    ensures { MatchResult result (AreFound types.now (Bytes bytes.now))
        (StopsOver (IsOfTrace (string_bytes input) types.now bytes.now)) }
{
    match read_trace(alloc, bytes, types) {
        Ok(trace) => Ok(trace),
        Err(BadTrace::At { line, kind }) => Err(Stop::Refused(Refusal::BadTrace {
            file: input,
            line,
            kind,
        })),
        Err(BadTrace::Memory) => Err(Stop::Memory),
    }
}
