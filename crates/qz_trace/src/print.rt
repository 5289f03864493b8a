//! From rows to the text of a trace.

ghost use Rattle.std.specs.Prelude.{◌≡◌, ◌++◌, ◌∷◌, [], string_bytes, IfOk, OnOk};
ghost use Rattle.std.specs.List.{flat_map};
ghost use Rattle.std.specs.Fmt.{decimal};
ghost use Rattle.qz_trace.specs.Rows.{row_text, trace_text, rows_in, IsWhole};

use crate::traces::Trace;
use std::alloc::{AllocError, Global};

/// The text of a trace.
///
/// # Errors
///
/// Want of memory alone.
pub fn print_trace(alloc: Global, t: &Trace) -> Result<Vec<u8>, AllocError>
    requires { IsWhole t.now }
    ensures { IfOk result (λ bytes. bytes.items ≡ trace_text (rows_in t.now)) }
{
    let mut text = String::new(alloc);
    let mut rest = t.values.as_slice();
    for _ in 0..t.steps {
        let (row, after) = rest.split_at(t.width);
        push_row(&mut text, row)?;
        rest = after;
    }
    Ok(text.into_bytes())
}

/// Appends a row's line.
fn push_row(text: &mut String, row: &[u64]) -> Result<(), AllocError>
    ensures { OnOk result (string_bytes text.new ≡ string_bytes text.old ++ (row_text row.now ++ (10 ∷ []))) }
{
    if let Some((first, others)) = row.split_first() {
        write!(text, "{first}")?;
        push_others(text, others)?;
    }
    text.push('\n')
}

/// Appends each number, a space before it.
fn push_others(text: &mut String, numbers: &[u64]) -> Result<(), AllocError>
    ensures { OnOk result (string_bytes text.new ≡ string_bytes text.old ++ flat_map (λ m. 32 ∷ decimal m) numbers.now) }
{
    for number in numbers {
        write!(text, " {number}")?;
    }
    Ok(())
}
