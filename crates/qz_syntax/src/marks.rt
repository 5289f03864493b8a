//! The marks of a local's instances: zero, and one for each loop round its scope.

ghost use Rattle.std.specs.Prelude.{◌≡◌, ◌==◌, ◌++◌, [], map, is_some, unwrap_or, IfOk, OnOk};
ghost use Rattle.std.specs.List.{list_any};
ghost use Rattle.qz_syntax.specs.Marks.{loops_round, first_some, marks_of_local};

use crate::modules::Module;
use crate::places::Mark;
use crate::statements::Stmt;
use smallvec::SmallVec;
use std::alloc::{AllocError, Global};

/// The marks of a local, by its number in the module: zero, and then those of the loops round its
/// scope, from the outermost in.
///
/// A number that no scope declares has mark zero alone.
pub fn marks_of(alloc: Global, m: &Module, decl: u32) -> Result<Vec<Mark>, AllocError>
    ensures { IfOk result (λ marks. marks.items ≡ marks_of_local m.now decl) }
{
    let mut round: SmallVec<u32, 8> = SmallVec::new(alloc);
    find_scope(&m.body, decl, &mut round)?;
    let mut marks = Vec::new(alloc);
    marks.push(Mark::Zero)?;
    for number in round.as_slice() {
        marks.push(Mark::Loop(*number))?;
    }
    Ok(marks)
}

/// Whether a statement declares the local, whose loops are then added to `round`.
#[cycle(scopes)]
fn find_scope(s: &Stmt, decl: u32, round: &mut SmallVec<u32, 8>) -> Result<bool, AllocError>
    ensures found { IfOk result (λ found. found ≡ is_some (loops_round decl s.now)) }
    ensures round { OnOk result (round.new.items ≡ round.old.items ++ unwrap_or (loops_round decl s.now) []) }
{
    match s {
        Stmt::Nothing | Stmt::Assign(..) | Stmt::Delayed(..) | Stmt::Pause(_) | Stmt::Call(..) =>
            Ok(false),
        Stmt::Seq(parts) | Stmt::Par(parts) => find_in_parts(parts.as_slice(), decl, round),
        Stmt::If(_, first, second) => {
            if find_scope(first.get(), decl, round)? {
                Ok(true)
            } else {
                find_scope(second.get(), decl, round)
            }
        }
        Stmt::Loop(number, body, _) => {
            round.push(*number)?;
            let found = find_scope(body.get(), decl, round)?;
            if !found {
                round.pop();
            }
            Ok(found)
        }
        Stmt::Scope(locals, body) => {
            if declares(locals.as_slice(), decl) {
                Ok(true)
            } else {
                find_scope(body.get(), decl, round)
            }
        }
        Stmt::Abort(_, body, _) | Stmt::Suspend(_, _, body, _) | Stmt::Bind(_, body) => find_scope(
            body.get(),
            decl,
            round,
        ),
    }
}

/// The same of some statements, of which the first that declares it counts.
#[cycle(scopes)]
fn find_in_parts(
    parts: &[Stmt],
    decl: u32,
    round: &mut SmallVec<u32, 8>,
) -> Result<bool, AllocError>
    ensures found { IfOk result (λ found. found ≡ is_some (first_some (map (λ part. loops_round decl part) parts.now))) }
    ensures round { OnOk result (round.new.items ≡ round.old.items ++ unwrap_or (first_some (map (λ part. loops_round decl part) parts.now)) []) }
{
    for part in parts {
        if find_scope(part, decl, round)? {
            return Ok(true);
        }
    }
    Ok(false)
}

/// Whether a local is among those of a scope.
fn declares(locals: &[u32], local: u32) -> bool
    ensures { result ≡ list_any (λ other. other == local) locals.now }
{
    locals.iter().any(|other| *other == local)
}
