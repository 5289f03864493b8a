//! What the writers of one target come to.

ghost use Rattle.std.specs.Prelude.{◌≡◌};
ghost use Rattle.qz_values.specs.Values.{is_yes};
ghost use Rattle.qz_meaning.specs.Verdicts.{Open, One, join, enabled, verdict_of_one, is_same_value};
ghost use Rattle.qz_interp.specs.Seeing.{verdict_seen};

use qz_values::{Know, Ty, Value, is_same_type};

/// What the writers of one target come to.
#[derive(Clone, Copy, Debug, PartialEq, Eq)]
pub enum Verdict {
    /// No writer is enabled.
    Nobody,
    /// Not known yet.
    Open,
    /// The enabled writers agree on this value.
    One(Value),
    /// They contradict one another.
    Torn,
}

impl Verdict {
    /// Of one writer, by what is known of its guard and of its value.
    pub fn of(guard: Know, value: Know) -> Verdict
        ensures { verdict_seen result ≡ verdict_of_one guard value }
    {
        match guard {
            Know::Unknown => Verdict::Open,
            Know::Known(holds) => {
                if is_yes(holds) {
                    Verdict::of_enabled(value)
                } else {
                    Verdict::Nobody
                }
            }
            Know::Clash => Verdict::Torn,
        }
    }

    /// Of an enabled writer.
    fn of_enabled(value: Know) -> Verdict
        ensures { verdict_seen result ≡ enabled value }
    {
        match value {
            Know::Unknown => Verdict::Open,
            Know::Known(v) => Verdict::One(v),
            Know::Clash => Verdict::Torn,
        }
    }

    /// Of the writers of both: a contradiction stays, and a value decides over what is open.
    pub fn join(self, other: Verdict) -> Verdict
        ensures { verdict_seen result ≡ join (verdict_seen self) (verdict_seen other) }
    {
        match self {
            Verdict::Nobody => other,
            Verdict::Open => other.over_open(),
            Verdict::One(v) => other.beside(v),
            Verdict::Torn => Verdict::Torn,
        }
    }

    /// Beside writers that are open.
    fn over_open(self) -> Verdict
        ensures { verdict_seen result ≡ join Open (verdict_seen self) }
    {
        match self {
            Verdict::Nobody | Verdict::Open => Verdict::Open,
            Verdict::One(v) => Verdict::One(v),
            Verdict::Torn => Verdict::Torn,
        }
    }

    /// Beside writers that agree on a value.
    fn beside(self, value: Value) -> Verdict
        ensures { verdict_seen result ≡ join (One value) (verdict_seen self) }
    {
        match self {
            Verdict::Nobody | Verdict::Open => Verdict::One(value),
            Verdict::One(other) => {
                if is_same(value, other) {
                    Verdict::One(value)
                } else {
                    Verdict::Torn
                }
            }
            Verdict::Torn => Verdict::Torn,
        }
    }
}

/// Whether it is the bool `true`.
fn is_yes(v: Value) -> bool
    ensures { result ≡ is_yes v }
{
    match v.ty() {
        Ty::Bool => v.bits() == 1,
        Ty::Bv(_) => false,
    }
}

/// Whether two values are one.
fn is_same(v: Value, w: Value) -> bool
    ensures { result ≡ is_same_value v w }
{
    is_same_type(v.ty(), w.ty()) && v.bits() == w.bits()
}
