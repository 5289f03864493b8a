//! The loop that never gives up control.

ghost use Rattle.std.specs.Prelude.{◌≡◌, ◌&&◌, ◌||◌, [], None, Some, slice_get, map, if◌then◌else◌};
ghost use Rattle.std.specs.Option.{option_or};
ghost use Rattle.std.specs.List.{flat_map, list_all};
ghost use Rattle.qz_syntax.specs.Endings.{instant_loops, may_end_of};

use qz_syntax::Stmt;

/// Whether a statement may end at once, and the first loop in it, in tree order, whose body may.
#[derive(Clone, Copy)]
pub(crate) struct Ending {
    pub may_end: bool,
    pub instant: Option<u32>,
}

impl Ending {
    /// Of a statement without parts.
    fn plain(may_end: bool) -> Ending
        ensures may_end { result.may_end ≡ may_end }
        ensures instant { result.instant ≡ None }
    {
        Ending {
            may_end,
            instant: None,
        }
    }
}

/// What may end at once in a statement that calls nothing.
#[cycle(endings)]
pub(crate) fn ending_of(s: &Stmt) -> Ending
    ensures may_end { result.may_end ≡ may_end_of [] s.now }
    ensures instant { result.instant ≡ slice_get (instant_loops [] s.now) 0 }
{
    match s {
        Stmt::Nothing | Stmt::Assign(..) | Stmt::Delayed(..) => Ending::plain(true),
        Stmt::Pause(_) | Stmt::Call(..) => Ending::plain(false),
        Stmt::Seq(parts) | Stmt::Par(parts) => ending_of_all(parts.as_slice()),
        Stmt::If(_, first, second) => of_either(ending_of(first.get()), ending_of(second.get())),
        Stmt::Loop(number, body, _) => of_loop(*number, ending_of(body.get())),
        Stmt::Abort(kind, body, _) => {
            let body = ending_of(body.get());
            Ending {
                may_end: kind.immediate || body.may_end,
                instant: body.instant,
            }
        }
        Stmt::Suspend(_, _, body, _) | Stmt::Scope(_, body) | Stmt::Bind(_, body) => ending_of(
            body.get(),
        ),
    }
}

/// Of some statements, which may end at once where each of them may.
#[cycle(endings)]
fn ending_of_all(parts: &[Stmt]) -> Ending
    ensures may_end { result.may_end ≡ list_all (λ ends. ends) (map (λ part. may_end_of [] part) parts.now) }
    ensures instant { result.instant ≡ slice_get (flat_map (λ part. instant_loops [] part) parts.now) 0 }
{
    let mut all = Ending::plain(true);
    for part in parts {
        all = after(all, ending_of(part));
    }
    all
}

/// Of one statement and then another.
fn after(first: Ending, second: Ending) -> Ending
    ensures may_end { result.may_end ≡ (first.may_end && second.may_end) }
    ensures instant { result.instant ≡ option_or first.instant second.instant }
{
    Ending {
        may_end: first.may_end && second.may_end,
        instant: earlier(first.instant, second.instant),
    }
}

/// Of one statement or another.
fn of_either(first: Ending, second: Ending) -> Ending
    ensures may_end { result.may_end ≡ (first.may_end || second.may_end) }
    ensures instant { result.instant ≡ option_or first.instant second.instant }
{
    Ending {
        may_end: first.may_end || second.may_end,
        instant: earlier(first.instant, second.instant),
    }
}

/// Of the loop with this number round a body.
fn of_loop(number: u32, body: Ending) -> Ending
    ensures may_end { result.may_end ≡ body.may_end }
    ensures instant { result.instant ≡ (if body.may_end then Some number else body.instant) }
{
    let instant = if body.may_end {
        Some(number)
    } else {
        body.instant
    };
    Ending {
        may_end: body.may_end,
        instant,
    }
}

/// The first of two loops, where there is one.
fn earlier(first: Option<u32>, second: Option<u32>) -> Option<u32>
    ensures { result ≡ option_or first second }
{
    match first {
        Some(number) => Some(number),
        None => second,
    }
}
