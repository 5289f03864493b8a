//! How deep the statements of a program stand in one another.

ghost use Rattle.std.specs.Prelude.{◌≡◌, nat_lt, max, fold, map};
ghost use Rattle.qz_syntax.specs.Numbers.{depth_of};

use qz_syntax::Stmt;

/// Whether more than `limit` statements stand in one another.
#[cycle(depths)]
pub(crate) fn is_deeper(s: &Stmt, limit: u32) -> bool
    ensures { result ≡ nat_lt limit (depth_of s.now) }
{
    if limit == 0 {
        return true;
    }
    let below = limit - 1;
    match s {
        Stmt::Nothing | Stmt::Assign(..) | Stmt::Delayed(..) | Stmt::Pause(_) | Stmt::Call(..) =>
            false,
        Stmt::Seq(parts) | Stmt::Par(parts) => any_is_deeper(parts.as_slice(), below),
        Stmt::If(_, first, second) => is_deeper(first.get(), below)
            || is_deeper(second.get(), below),
        Stmt::Loop(_, body, _)
        | Stmt::Abort(_, body, _)
        | Stmt::Suspend(_, _, body, _)
        | Stmt::Scope(_, body)
        | Stmt::Bind(_, body) => is_deeper(body.get(), below),
    }
}

/// Whether that is so of one of some statements.
#[cycle(depths)]
fn any_is_deeper(parts: &[Stmt], limit: u32) -> bool
    ensures { result ≡ nat_lt limit (fold max 0 (map depth_of parts.now)) }
{
    for part in parts {
        if is_deeper(part, limit) {
            return true;
        }
    }
    false
}
