//! Where control is between macro steps, and what variables keep there.

use qz_values::Value;
use sqlite_items::{Boxed, Items};

/// By which start of its scope a local's instance came about.
#[derive(Clone, Copy, Debug, PartialEq, Eq, Hash)]
pub enum Mark {
    /// Open: the mark with which the surface at hand is started.
    Here,
    /// Kept from the step before, or started without a loop's turn.
    Zero,
    /// Started by the turn of this loop.
    Loop(u32),
}

/// What a delayed assignment leaves to the next step.
#[derive(Clone, Copy, Debug, PartialEq, Eq, Hash)]
pub enum Later {
    Unknown,
    /// Nothing was assigned.
    Absent,
    Known(Value),
    Clash,
}

/// What a variable keeps from one step to the next.
#[derive(Clone, Copy, Debug, PartialEq, Eq, Hash)]
pub struct Store {
    pub value: Value,
    /// The value is a delayed one, which takes effect as a writer of the next step.
    pub pending: bool,
}

/// Where control rests inside a statement.
#[derive(Debug, Drop)]
pub enum Residual {
    /// At a pause.
    At(u32),
    /// At the hold place of an immediate suspend.
    Hold(u32),
    /// Inside one member of a sequence.
    InSeq(u32, Boxed<Residual>),
    /// Inside those members of a parallel that have an entry; the others are done.
    InPar(Items<Option<Residual>>),
    /// Inside one side of an `if`: true for the first.
    InIf(bool, Boxed<Residual>),
    /// Inside the body of a loop, an abort or a suspend.
    InBody(Boxed<Residual>),
    /// Inside a scope, with the stores of its variables.
    InScope(Items<Store>, Boxed<Residual>),
    /// Inside a call, which is one place to the module that makes it.
    InCall(u32),
}

/// Where control is.
#[derive(Debug, Drop)]
pub enum Place {
    NotStarted,
    Rest(Residual),
    Ended,
}
