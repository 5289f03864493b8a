//! Which statements may end in the step in which they start: a loop whose body may is refused.

ghost use Rattle.std.specs.Prelude.{◌≡◌, map};
ghost use Rattle.std.specs.List.{list_all};
ghost use Rattle.qz_syntax.specs.Endings.{may_end_of};

use crate::statements::Stmt;
use sqlite_items::at;

/// Whether a statement may end at once, given for each prototype whether its module may.
///
/// Neither conditions nor values are looked at. A call of a prototype without an entry may not.
#[cycle(endings)]
pub fn may_end(s: &Stmt, callees: &[bool]) -> bool
    ensures { result ≡ may_end_of callees.now s.now }
{
    match s {
        Stmt::Nothing | Stmt::Assign(..) | Stmt::Delayed(..) => true,
        Stmt::Pause(_) => false,
        Stmt::Seq(parts) | Stmt::Par(parts) => all_may_end(parts.as_slice(), callees),
        Stmt::If(_, first, second) => may_end(first.get(), callees)
            || may_end(second.get(), callees),
        Stmt::Abort(kind, body, _) => kind.immediate || may_end(body.get(), callees),
        Stmt::Suspend(_, _, body, _) => may_end(body.get(), callees),
        Stmt::Loop(_, body, _) | Stmt::Scope(_, body) | Stmt::Bind(_, body) => may_end(
            body.get(),
            callees,
        ),
        Stmt::Call(_, proto, _) => at(callees, *proto as usize).copied().unwrap_or(false),
    }
}

/// Whether each of some statements may end at once.
#[cycle(endings)]
fn all_may_end(parts: &[Stmt], callees: &[bool]) -> bool
    ensures { result ≡ list_all (λ ends. ends) (map (λ part. may_end_of callees.now part) parts.now) }
{
    for part in parts {
        if !may_end(part, callees) {
            return false;
        }
    }
    true
}
