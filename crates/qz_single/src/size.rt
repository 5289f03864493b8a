//! The size of a whole program.

ghost use Rattle.std.specs.Prelude.{◌≡◌, nat_lt, max, fold, map};
ghost use Rattle.qz_syntax.specs.Numbers.{depth_of};
ghost use Rattle.qz_syntax.specs.Sizes.{whole_size_of};

use qz_syntax::{Module, Stmt, size};

/// The deepest that a statement of a whole program may stand.
const DEEPEST: u32 = 2_000;

/// The size of a whole program, which is the largest where a statement stands too deep.
pub(crate) fn whole_size(m: &Module) -> u64
    ensures { result ≡ whole_size_of m.now }
{
    if is_deeper(&m.body, DEEPEST) {
        u64::MAX
    } else {
        size(m)
    }
}

/// Whether more than `limit` statements stand in one another.
#[cycle(depths)]
fn is_deeper(s: &Stmt, limit: u32) -> bool
    ensures { result ≡ nat_lt limit (depth_of s.now) }
{
    if limit == 0 {
        return true;
    }
    let below = limit - 1;
    match s {
        Stmt::Nothing | Stmt::Assign(..) | Stmt::Delayed(..) | Stmt::Pause(_) | Stmt::Call(..) =>
            false,
        Stmt::Seq(parts) | Stmt::Par(parts) => any_is_deeper(parts.as_slice(), below),
        Stmt::If(_, first, second) => is_deeper(first.get(), below)
            || is_deeper(second.get(), below),
        Stmt::Loop(_, body, _)
        | Stmt::Abort(_, body, _)
        | Stmt::Suspend(_, _, body, _)
        | Stmt::Scope(_, body)
        | Stmt::Bind(_, body) => is_deeper(body.get(), below),
    }
}

/// Whether that is so of one of some statements.
#[cycle(depths)]
fn any_is_deeper(parts: &[Stmt], limit: u32) -> bool
    ensures { result ≡ nat_lt limit (fold max 0 (map depth_of parts.now)) }
{
    for part in parts {
        if is_deeper(part, limit) {
            return true;
        }
    }
    false
}
