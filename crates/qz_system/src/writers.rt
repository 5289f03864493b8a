//! What the acts on each instance come to. A verdict is held as the delayed value that it settles to.

ghost use Rattle.std.specs.Prelude.{◌≡◌, slice_index_or};
ghost use Rattle.qz_values.specs.Values.{is_yes};
ghost use Rattle.qz_nets.specs.Readings.{listed};
ghost use Rattle.qz_meaning.specs.Verdicts.{Open, One, join, enabled, verdict_of_one, is_same_value};
ghost use Rattle.qz_meaning.specs.Settling.{settled_later};
ghost use Rattle.qz_syntax.specs.declared.places.Later.TheVariants as later;
ghost use Rattle.qz_system.specs.Writers.{held, with_act, with_acts, is_same_kind};

use crate::parts::Act;
use qz_nets::NetId;
use qz_syntax::Later;
use qz_values::{Know, Ty, Value, is_same_type};

/// Adds the delayed acts, or the present ones, to verdicts on the instances that they write to.
pub(crate) fn add_acts(acts: &[Act], delayed: bool, values: &[Know], verdicts: &mut [Later])
    ensures { verdicts.new ≡ with_acts (listed values.now) delayed verdicts.old acts.now }
{
    for act in acts {
        if act.delayed == delayed {
            add_act(*act, values, verdicts);
        }
    }
}

/// Adds one act; one to an instance that isn't there changes nothing.
fn add_act(act: Act, values: &[Know], verdicts: &mut [Later])
    ensures { verdicts.new ≡ with_act (listed values.now) verdicts.old act }
{
    let number = act.instance as usize;
    let so_far = verdict_at(verdicts, number);
    let guard = known_of(values, act.guard);
    let value = known_of(values, act.value);
    if number < verdicts.len() {
        verdicts[number] = with_writer(so_far, guard, value);
    }
}

/// The verdict on an instance; that of no writer where there is no such instance.
fn verdict_at(verdicts: &[Later], number: usize) -> Later
    ensures { result ≡ slice_index_or verdicts.now number later.Absent }
{
    verdicts.get(number).copied().unwrap_or(Later::Absent)
}

/// What is known of a net.
fn known_of(values: &[Know], id: NetId) -> Know
    ensures { result ≡ listed values.now id.0 }
{
    values.get(id.0 as usize).copied().unwrap_or(Know::Unknown)
}

/// The verdict with one writer more, by what is known of its guard and of its value.
fn with_writer(so_far: Later, guard: Know, value: Know) -> Later
    ensures { result ≡ settled_later (join (held so_far) (verdict_of_one guard value)) }
{
    match guard {
        Know::Unknown => opened(so_far),
        Know::Known(holds) => {
            if is_yes(holds) {
                with_enabled(so_far, value)
            } else {
                so_far
            }
        }
        Know::Clash => Later::Clash,
    }
}

/// The verdict with one enabled writer more.
fn with_enabled(so_far: Later, value: Know) -> Later
    ensures { result ≡ settled_later (join (held so_far) (enabled value)) }
{
    match value {
        Know::Unknown => opened(so_far),
        Know::Known(v) => with_value(so_far, v),
        Know::Clash => Later::Clash,
    }
}

/// The verdict with one writer more that is open.
fn opened(so_far: Later) -> Later
    ensures { result ≡ settled_later (join (held so_far) Open) }
{
    match so_far {
        Later::Absent | Later::Unknown => Later::Unknown,
        Later::Known(v) => Later::Known(v),
        Later::Clash => Later::Clash,
    }
}

/// The verdict with one enabled writer more that gives this value.
fn with_value(so_far: Later, value: Value) -> Later
    ensures { result ≡ settled_later (join (held so_far) (One value)) }
{
    match so_far {
        Later::Absent | Later::Unknown => Later::Known(value),
        Later::Known(other) => {
            if is_same(other, value) {
                Later::Known(other)
            } else {
                Later::Clash
            }
        }
        Later::Clash => Later::Clash,
    }
}

/// The verdict on some writers with one enabled writer before them that gives this value.
pub(crate) fn after_value(value: Value, writers: Later) -> Later
    ensures { held result ≡ join (One value) (held writers) }
{
    match writers {
        Later::Absent | Later::Unknown => Later::Known(value),
        Later::Known(other) => {
            if is_same(value, other) {
                Later::Known(value)
            } else {
                Later::Clash
            }
        }
        Later::Clash => Later::Clash,
    }
}

/// Whether it is the bool `true`.
fn is_yes(v: Value) -> bool
    ensures { result ≡ is_yes v }
{
    match v.ty() {
        Ty::Bool => v.bits() == 1,
        Ty::Bv(_) => false,
    }
}

/// Whether two values are one.
fn is_same(v: Value, w: Value) -> bool
    ensures { result ≡ is_same_value v w }
{
    is_same_type(v.ty(), w.ty()) && v.bits() == w.bits()
}
