//! The loop that never gives up control.

ghost use Rattle.std.specs.Prelude.{◌≡◌, [], slice_get};
ghost use Rattle.std.specs.List.{flat_map};
ghost use Rattle.qz_syntax.specs.Endings.{instant_loops};

use qz_syntax::{Stmt, may_end};

/// The number of the first loop in tree order whose body may end at once. No call may.
#[cycle(instant)]
pub fn instant_loop(s: &Stmt) -> Option<u32>
    ensures { result ≡ slice_get (instant_loops [] s.now) 0 }
{
    match s {
        Stmt::Nothing | Stmt::Assign(..) | Stmt::Delayed(..) | Stmt::Pause(_) | Stmt::Call(..) =>
            None,
        Stmt::Seq(parts) | Stmt::Par(parts) => instant_loop_among(parts.as_slice()),
        Stmt::If(_, first, second) => match instant_loop(first.get()) {
            Some(turn) => Some(turn),
            None => instant_loop(second.get()),
        },
        Stmt::Loop(turn, body, _) => {
            if may_end(body.get(), &[]) {
                return Some(*turn);
            }
            instant_loop(body.get())
        }
        Stmt::Abort(_, body, _)
        | Stmt::Suspend(_, _, body, _)
        | Stmt::Scope(_, body)
        | Stmt::Bind(_, body) => instant_loop(body.get()),
    }
}

/// The number of the first such loop in some statements.
#[cycle(instant)]
fn instant_loop_among(parts: &[Stmt]) -> Option<u32>
    ensures { result ≡ slice_get (flat_map (λ part. instant_loops [] part) parts.now) 0 }
{
    for part in parts {
        if let Some(turn) = instant_loop(part) {
            return Some(turn);
        }
    }
    None
}
