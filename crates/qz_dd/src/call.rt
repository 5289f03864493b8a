//! What is asked of diagrams: an operation at operands.

ghost use Rattle.std.specs.Prelude.{◌≡◌, ℕ, Bool, true, false, IfSome};
ghost use Rattle.std.specs.Option.{IfNone};
ghost use Rattle.qz_dd.specs.Calls.{call_value, IsUndecided};

use crate::node::DdId;

/// An operation on two functions, assignment by assignment.
#[derive(Clone, Copy, Debug, PartialEq, Eq)]
pub enum DdOp {
    And,
    Or,
    /// True where the two differ.
    Xor,
}

/// What a call asks for. Results of different tasks at the same operands are kept apart.
#[derive(Clone, Copy, Debug, PartialEq, Eq, Hash)]
pub enum Task {
    And,
    Or,
    Xor,
    /// The second operand where the first is true, else the third.
    Choose,
}

/// A task at its operands, of which only a choice reads the third.
#[derive(Clone, Copy, Debug, PartialEq, Eq, Hash)]
pub struct Call {
    pub task: Task,
    pub a: DdId,
    pub b: DdId,
    pub c: DdId,
}

/// The answer, where it is plain from the operands: one of them or a constant.
pub fn shortcut(call: Call) -> Option<DdId>
    ensures value { IfSome result (λ d. (known : ℕ → Bool) → known 0 ≡ false → known 1 ≡ true → known d.0 ≡ call_value known call) }
    ensures among { IfSome result (λ d. (test : ℕ → Bool) → test 0 ≡ true → test call.a.0 ≡ true → test call.b.0 ≡ true → test call.c.0 ≡ true →
        test d.0 ≡ true) }
    ensures undecided { IfNone result (IsUndecided call) }
{
    let Call { task, a, b, c } = call;
    match task {
        Task::And => {
            if a.0 == 0 || b.0 == 0 {
                Some(DdId(0))
            } else if a.0 == 1 || a.0 == b.0 {
                Some(b)
            } else if b.0 == 1 {
                Some(a)
            } else {
                None
            }
        }
        Task::Or => {
            if a.0 == 1 || b.0 == 0 {
                Some(a)
            } else if a.0 == 0 || a.0 == b.0 || b.0 == 1 {
                Some(b)
            } else {
                None
            }
        }
        Task::Xor => {
            if a.0 == b.0 {
                Some(DdId(0))
            } else if a.0 == 0 {
                Some(b)
            } else if b.0 == 0 {
                Some(a)
            } else {
                None
            }
        }
        Task::Choose => {
            if a.0 == 1 || b.0 == c.0 {
                Some(b)
            } else if a.0 == 0 {
                Some(c)
            } else if b.0 == 1 && c.0 == 0 {
                Some(a)
            } else {
                None
            }
        }
    }
}
