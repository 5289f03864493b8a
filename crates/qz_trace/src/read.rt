//! From a text to the rows of a trace.

ghost use Rattle.std.specs.Prelude.{◌≡◌, ◌≤◌, ◌↔◌, ℕ, List, [], IsTrue, Result, map, length, IfSome, IfOk};
ghost use Rattle.std.specs.List.{AllByRecursion};
ghost use Rattle.qz_values.specs.Types.{IsType};
ghost use Rattle.qz_trace.specs.Faults.{Fault};
ghost use Rattle.qz_trace.specs.Rows.{IsWhole};
ghost use Rattle.qz_trace.specs.Outcomes.{IsOutcome, outcome_of};
ghost use Rattle.qz_trace.specs.Reading.{IsLineAnswer, IsFieldsAnswer};

use crate::faults::{BadLine, BadTrace, TraceKind};
use crate::fields::{cut, number_of, split};
use crate::traces::Trace;
use qz_values::Ty;
use std::alloc::Global;

/// How many bytes a trace has at most: 16 MiB.
pub const TRACE_LIMIT: usize = 16_777_216;

/// The rows of a text, whose values have these types, in order.
///
/// # Errors
///
/// `At` names the first line at fault and what is at fault in it, `Memory` says that memory ran out.
pub fn read_trace(alloc: Global, bytes: &[u8], types: &[Ty]) -> Result<Trace, BadTrace>
    requires limit { length bytes.now ≤ 16777216 }
    requires types { AllByRecursion IsType types.now }
    // What is returned, but for want of memory, is the text's outcome.
    ensures found { IfSome (outcome_of result) (λ outcome. IsOutcome types.now bytes.now outcome) }
    // What is the text's outcome is returned, but for want of memory.
    ensures only { (outcome : Result (List (List ℕ)) Fault) → IsOutcome types.now bytes.now outcome →
        IfSome (outcome_of result) (λ told. told ≡ outcome) }
    ensures width { IfOk result (λ t. t.width ≡ length types.now) }
    ensures whole { IfOk result IsWhole }
{
    let mut values = Vec::new(alloc);
    let mut fields = Vec::new(alloc);
    let mut steps = 0;
    let mut rest = bytes;
    while !rest.is_empty() {
        let line = steps as u32 + 1;
        let Some((text, after)) = cut(rest, b'\n') else {
            return Err(BadTrace::At {
                line,
                kind: TraceKind::End,
            });
        };
        match read_line(text, types, &mut fields, &mut values) {
            Ok(()) => {}
            Err(bad) => return Err(bad.at(line)),
        }
        steps += 1;
        rest = after;
    }
    Ok(Trace {
        width: types.len(),
        steps,
        values,
    })
}

/// Appends the numbers of an ended line's row to `values`.
fn read_line<'t>(
    line: &'t [u8],
    types: &[Ty],
    fields: &mut Vec<&'t [u8]>,
    values: &mut Vec<u64>,
) -> Result<(), BadLine>
    requires { AllByRecursion IsType types.now }
    ensures { IsLineAnswer types.now line.now values.old.items result values.new.items }
{
    if is_empty_row(line, types) {
        return Ok(());
    }
    split(line, fields)?;
    if fields.len() != types.len() {
        return Err(BadLine::Fault(TraceKind::Count));
    }
    read_fields(fields.as_slice(), types, values)
}

/// Whether it is the line of a row without values.
fn is_empty_row(line: &[u8], types: &[Ty]) -> bool
    ensures { IsTrue result ↔ ((types.now ≡ []) × (line.now ≡ [])) }
{
    types.is_empty() && line.is_empty()
}

/// Appends the numbers that as many fields as types are.
fn read_fields(fields: &[&[u8]], types: &[Ty], values: &mut Vec<u64>) -> Result<(), BadLine>
    requires types { AllByRecursion IsType types.now }
    requires count { length fields.now ≡ length types.now }
    ensures { IsFieldsAnswer types.now (map (λ field. field.now) fields.now) values.old.items result values.new.items }
{
    for (at, ty) in types.iter().enumerate() {
        let number = number_of(fields[at], *ty)?;
        values.push(number)?;
    }
    Ok(())
}
