//! What is known in a step, and what a walk lists.

use qz_syntax::{Later, Store};
use qz_values::{Know, Value};

/// What is known in a step of a program.
#[derive(Debug, Drop)]
pub struct Env {
    /// The values of the input formals, in their order.
    pub inputs: Vec<Value>,
    /// What is known of each instance, by its number.
    pub now: Vec<Know>,
    /// What is known of the value that is delayed for each instance to the next step.
    pub later: Vec<Later>,
}

/// A value that is given to an instance where the guard holds.
#[derive(Clone, Copy, Debug, PartialEq, Eq, Hash)]
pub struct Write {
    /// The instance's number.
    pub instance: u32,
    /// For the next step, and not for this one.
    pub delayed: bool,
    pub guard: Know,
    pub value: Know,
}

/// An instance that a walk comes past.
#[derive(Clone, Copy, Debug, PartialEq, Eq, Hash)]
pub struct Met {
    /// The instance's number.
    pub instance: u32,
    /// What was kept for it, or `None` where it is new.
    pub store: Option<Store>,
}
