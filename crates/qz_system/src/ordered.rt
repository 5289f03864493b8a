//! Whether the instances of a system are those of its cells, in their order.

ghost use Rattle.std.specs.Prelude.{◌≡◌};
ghost use Rattle.std.specs.List.{list_all};
ghost use Rattle.qz_system.specs.Parts.{is_instance_right, comes_after, go_on, are_in_order, count_of, have_one};

use crate::parts::{Inst, SystemParts};
use qz_syntax::Port;

/// Whether each instance is of a cell that there is.
pub(crate) fn have_cells(parts: &SystemParts) -> bool
    ensures { result ≡ list_all (λ one. is_instance_right parts.now one) parts.now.instances }
{
    parts
        .instances
        .as_slice()
        .iter()
        .all(|one| has_cell(parts, one))
}

/// Whether the instance is of a cell that there is.
fn has_cell(parts: &SystemParts, one: &Inst) -> bool
    ensures { result ≡ is_instance_right parts.now one.now }
{
    (one.cell as usize) < parts.cells.len()
}

/// Whether instances are in their order.
pub(crate) fn are_in_order(instances: &[Inst]) -> bool
    ensures { result ≡ are_in_order instances.now }
{
    match instances.split_first() {
        Some((one, others)) => go_on(one, others),
        None => true,
    }
}

/// Whether instances are in their order after one.
fn go_on(one: &Inst, others: &[Inst]) -> bool
    ensures { result ≡ go_on one.now others.now }
{
    let mut last = one;
    for next in others {
        if !comes_after(last, next) {
            return false;
        }
        last = next;
    }
    true
}

/// Whether an instance may come right after another.
fn comes_after(one: &Inst, next: &Inst) -> bool
    ensures { result ≡ comes_after one.now next.now }
{
    one.cell < next.cell || (one.cell == next.cell && !next.zero)
}

/// Whether each output has one instance.
pub(crate) fn have_one(outputs: &[Port], instances: &[Inst]) -> bool
    ensures { result ≡ have_one outputs.now 0 instances.now }
{
    for (cell, _port) in outputs.iter().enumerate() {
        if count_of(cell, instances) != 1 {
            return false;
        }
    }
    true
}

/// How many instances a cell has.
fn count_of(cell: usize, instances: &[Inst]) -> usize
    ensures { result ≡ count_of cell instances.now }
{
    let mut count: usize = 0;
    for one in instances {
        if one.cell as usize == cell {
            count += 1;
        }
    }
    count
}
