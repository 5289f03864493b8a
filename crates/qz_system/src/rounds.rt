//! One round of a system.

ghost use Rattle.std.specs.Prelude.{◌≡◌, ◌+◌, length, [], slice_index_or, replicate};
ghost use Rattle.qz_nets.specs.Readings.{count, listed, Reads};
ghost use Rattle.qz_syntax.specs.declared.places.Later.TheVariants as later;
ghost use Rattle.qz_system.specs.declared.parts.SystemLeaf.TheVariants as leaf;
ghost use Rattle.qz_system.specs.Parts.{AreParts};
ghost use Rattle.qz_system.specs.Valuations.{Fits};
ghost use Rattle.qz_system.specs.Writers.{with_acts};
ghost use Rattle.qz_system.specs.Rounds.{leaf_known, leaves_known, HaveTypes, IsRound, AreSettled, AreSettledBy};

use crate::parts::{Act, SystemLeaf, SystemParts};
use crate::resting::bit;
use crate::settling::settle_values;
use crate::valuation::Valuation;
use crate::writers::add_acts;
use qz_syntax::Later;
use qz_values::{Know, Value};
use sqlite_items::at;

/// Lets `now` be the round after it and `later` the delayed values of that round. The first part of
/// `scratch` takes what is known of the nets, the rest what is known of the leaves.
pub(crate) fn round(
    parts: &SystemParts,
    v: &Valuation,
    scratch: &mut [Know],
    now: &mut [Know],
    later: &mut [Later],
)
    requires parts { AreParts parts.now }
    requires fits { Fits parts.now v.now }
    requires scratch { length scratch.old ≡ count parts.now.table + length parts.now.leaves }
    requires now { length now.old ≡ length parts.now.instances }
    requires later { length later.old ≡ length parts.now.instances }
    requires typed { HaveTypes parts.now now.old }
    ensures round { IsRound parts.now v.now now.old now.new later.new }
    ensures typed { HaveTypes parts.now now.new }
{
    let (values, leaves) = scratch.split_at_mut(parts.table.len() as usize);
    tell_leaves(parts, v, now, leaves);
    parts.table.eval_into(leaves, values);
    settle_by(parts, v, values, now, later);
}

/// Settles instances and delayed values by what is known of the nets.
fn settle_by(
    parts: &SystemParts,
    v: &Valuation,
    values: &[Know],
    now: &mut [Know],
    later: &mut [Later],
)
    requires parts { AreParts parts.now }
    requires fits { Fits parts.now v.now }
    requires now { length now.old ≡ length parts.now.instances }
    requires later { length later.old ≡ length parts.now.instances }
    ensures { AreSettledBy parts.now v.now (listed values.now) now.new later.new }
{
    let acts = parts.acts.as_slice();
    tally(acts, false, values, later);
    settle_values(parts, v, later, now);
    tally(acts, true, values, later);
}

/// Lets the verdicts be those of the delayed acts, or of the present ones.
fn tally(acts: &[Act], delayed: bool, values: &[Know], verdicts: &mut [Later])
    ensures { verdicts.new ≡ with_acts (listed values.now) delayed (replicate (length verdicts.old) later.Absent) acts.now }
{
    forget(verdicts);
    add_acts(acts, delayed, values, verdicts);
}

/// Lets each be the verdict of no writer.
fn forget(verdicts: &mut [Later])
    ensures { verdicts.new ≡ replicate (length verdicts.old) later.Absent }
{
    verdicts.fill(Later::Absent);
}

/// Lets `leaves` be what is known of the leaves.
fn tell_leaves(parts: &SystemParts, v: &Valuation, before: &[Know], leaves: &mut [Know])
    requires fits { Fits parts.now v.now }
    requires room { length leaves.old ≡ length parts.now.leaves }
    ensures { leaves.new ≡ leaves_known parts.now v.now before.now }
{
    for (number, one) in parts.leaves.as_slice().iter().enumerate() {
        leaves[number] = leaf_known(parts, v, before, *one);
    }
}

/// What is known of an input.
fn input_known(parts: &SystemParts, v: &Valuation, input: usize) -> Know
    requires fits { Fits parts.now v.now }
    ensures { result ≡ leaf_known parts.now v.now [] (leaf.Input input) }
{
    match at(parts.inputs.as_slice(), input) {
        Some(port) => Know::Known(Value::new(port.ty, bits_of(&v.inputs, input)).unwrap()),
        None => Know::Unknown,
    }
}

/// The bits of an input's value.
fn bits_of(inputs: &[u64], input: usize) -> u64
    ensures { result ≡ slice_index_or inputs.now input 0 }
{
    inputs.get(input).copied().unwrap_or(0)
}

/// What is known of a leaf.
fn leaf_known(parts: &SystemParts, v: &Valuation, before: &[Know], one: SystemLeaf) -> Know
    requires fits { Fits parts.now v.now }
    ensures { result ≡ leaf_known parts.now v.now before.now one }
{
    match one {
        SystemLeaf::Input(input) => input_known(parts, v, input as usize),
        SystemLeaf::Now(instance) => before
            .get(instance as usize)
            .copied()
            .unwrap_or(Know::Unknown),
        SystemLeaf::At(place) => Know::Known(Value::truth(bit(&v.places, place))),
        SystemLeaf::Started => Know::Known(Value::truth(v.started)),
    }
}
