//! What is known of an instance, and whether it is the same.

ghost use Rattle.std.specs.Prelude.{◌≡◌, true, slice_index_or};
ghost use Rattle.qz_values.specs.declared.Know.TheVariants.{Unknown};
ghost use Rattle.qz_syntax.specs.declared.places.Later.TheVariants as later;

use qz_syntax::Later;
use qz_values::Know;

/// What is known of the instance with this number: nothing where there is none.
pub(crate) fn known_at(known: &[Know], number: usize) -> Know
    ensures { result ≡ slice_index_or known.now number Unknown }
{
    match known.get(number) {
        Some(known) => *known,
        None => Know::Unknown,
    }
}

/// What is known of its delayed value.
pub(crate) fn delayed_at(delayed: &[Later], number: usize) -> Later
    ensures { result ≡ slice_index_or delayed.now number later.Unknown }
{
    match delayed.get(number) {
        Some(delayed) => *delayed,
        None => Later::Unknown,
    }
}

/// Whether the same is known.
pub(crate) fn is_known_as(a: Know, b: Know) -> bool
    ensures { result ≡ true → b ≡ a }
{
    match a {
        Know::Unknown => matches!(b, Know::Unknown),
        Know::Known(v) => match b {
            Know::Known(w) => v == w,
            Know::Unknown | Know::Clash => false,
        },
        Know::Clash => matches!(b, Know::Clash),
    }
}

/// Whether the same is known of a delayed value.
pub(crate) fn is_delayed_as(a: Later, b: Later) -> bool
    ensures { result ≡ true → b ≡ a }
{
    match a {
        Later::Unknown => matches!(b, Later::Unknown),
        Later::Absent => matches!(b, Later::Absent),
        Later::Known(v) => match b {
            Later::Known(w) => v == w,
            Later::Unknown | Later::Absent | Later::Clash => false,
        },
        Later::Clash => matches!(b, Later::Clash),
    }
}
