//! What variables and delayed values settle to by the verdicts on their writers.

ghost use Rattle.std.specs.Prelude.{◌≡◌};
ghost use Rattle.qz_meaning.specs.Settling.{with_pending, settled_later};
ghost use Rattle.qz_interp.specs.Seeing.{verdict_seen};
ghost use Rattle.qz_interp.specs.Slots.{settled_by, unwritten_by};

use crate::verdicts::Verdict;
use qz_syntax::{Class, Later, Store};
use qz_values::{Know, Value};

/// What a variable with this default settles to that began the step with this store, by the verdict on
/// its writers. A pending delayed value is one more writer.
pub(crate) fn settled(class: Class, default: Value, store: Store, writers: Verdict) -> Know
    ensures { result ≡ settled_by class default store (with_pending store (verdict_seen writers)) }
{
    match with_pending(store, writers) {
        Verdict::Nobody => Know::Known(unwritten(class, default, store)),
        Verdict::Open => Know::Unknown,
        Verdict::One(v) => Know::Known(v),
        Verdict::Torn => Know::Clash,
    }
}

/// What a delayed value settles to, by the verdict on its writers.
pub(crate) fn settled_later(writers: Verdict) -> Later
    ensures { result ≡ settled_later (verdict_seen writers) }
{
    match writers {
        Verdict::Nobody => Later::Absent,
        Verdict::Open => Later::Unknown,
        Verdict::One(v) => Later::Known(v),
        Verdict::Torn => Later::Clash,
    }
}

/// The verdict on the writers and on what is pending in the store.
fn with_pending(store: Store, writers: Verdict) -> Verdict
    ensures { verdict_seen result ≡ with_pending store (verdict_seen writers) }
{
    if store.pending {
        Verdict::One(store.value).join(writers)
    } else {
        writers
    }
}

/// The value without a writer: an event's default, or what is kept.
fn unwritten(class: Class, default: Value, store: Store) -> Value
    ensures { result ≡ unwritten_by class default store }
{
    match class {
        Class::Event => default,
        Class::Mem => store.value,
    }
}
