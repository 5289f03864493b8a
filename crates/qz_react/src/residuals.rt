//! Where control rests inside a statement, taken apart. Each part is there for any residual.

ghost use Rattle.std.specs.Prelude.{◌≡◌, ◌+◌, drop};
ghost use Rattle.qz_meaning.specs.Residuals.{inner, member_of, side_of, branches_of, is_held, stores_of};

use qz_syntax::{Residual, Stmt, Store};

/// Where control rests one level further in, or the residual itself where there is no such level.
pub fn inside_of(r: &Residual) -> &Residual
    ensures { result.now ≡ inner r.now }
{
    match r {
        Residual::InSeq(_, inside)
        | Residual::InIf(_, inside)
        | Residual::InBody(inside)
        | Residual::InScope(_, inside) => inside.get(),
        Residual::At(_) | Residual::Hold(_) | Residual::InPar(_) | Residual::InCall(_) => r,
    }
}

/// The member of a sequence.
pub fn member_number(r: &Residual) -> u32
    ensures { result ≡ member_of r.now }
{
    match r {
        Residual::InSeq(member, _) => *member,
        _ => 0,
    }
}

/// Whether control is in the first side of an `if`.
pub fn is_in_first(r: &Residual) -> bool
    ensures { result ≡ side_of r.now }
{
    match r {
        Residual::InIf(side, _) => *side,
        _ => true,
    }
}

/// What rests of each member of a parallel.
pub fn branches(r: &Residual) -> &[Option<Residual>]
    ensures { result.now ≡ branches_of r.now }
{
    match r {
        Residual::InPar(branches) => branches.as_slice(),
        _ => &[],
    }
}

/// The stores of a scope's locals.
pub fn stores(r: &Residual) -> &[Store]
    ensures { result.now ≡ stores_of r.now }
{
    match r {
        Residual::InScope(stores, _) => stores.as_slice(),
        _ => &[],
    }
}

/// Whether control is at a hold place.
pub fn is_at_hold(r: &Residual) -> bool
    ensures { result ≡ is_held r.now }
{
    match r {
        Residual::Hold(_) => true,
        _ => false,
    }
}

/// The members after one.
pub fn later(parts: &[Stmt], member: usize) -> &[Stmt]
    ensures { result.now ≡ drop (member + 1) parts.now }
{
    if member < parts.len() {
        &parts[member + 1..]
    } else {
        &[]
    }
}
