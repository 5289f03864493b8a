//! The instances that a walk comes past. They depend on the place alone.

ghost use Rattle.std.specs.Prelude.{◌≡◌, ◌++◌, ◌∷◌, [], map, Some, OnOk, flat_map};
ghost use Rattle.qz_syntax.specs.declared.places.Residual.{Residual};
ghost use Rattle.qz_meaning.specs.Layouts.{Layout, bare};
ghost use Rattle.qz_meaning.specs.Sequences.{sequence_layout, member};
ghost use Rattle.qz_meaning.specs.Parallels.{parallel_layout, resting};
ghost use Rattle.qz_meaning.specs.Scopes.{met_new, met_kept};
ghost use Rattle.qz_meaning.specs.Residing.{whole_layout};
ghost use Rattle.qz_react.specs.Seeing.{named, met_by};

use crate::environments::Met;
use crate::instances::Instances;
use crate::residuals::{
    branches, inside_of, is_at_hold, is_in_first, later, member_number, stores,
};
use qz_syntax::{Mark, Residual, Stmt, Store, Var};
use sqlite_items::at;
use std::alloc::AllocError;

/// Adds the instances that a start with a mark comes past.
#[cycle(meets_start)]
pub fn meet_start(
    table: &Instances,
    s: &Stmt,
    m: Mark,
    out: &mut Vec<Met>,
) -> Result<(), AllocError>
    ensures { OnOk result (map (met_by (named table.now)) out.new.items
        ≡ map (met_by (named table.now)) out.old.items ++ map Some ((whole_layout s.now).met_on_start m)) }
{
    match s {
        Stmt::Nothing | Stmt::Assign(..) | Stmt::Delayed(..) | Stmt::Pause(_) | Stmt::Call(..) =>
            Ok(()),
        Stmt::Seq(parts) | Stmt::Par(parts) => meet_parts(table, parts.as_slice(), m, out),
        Stmt::If(_, first, second) => {
            meet_start(table, first.get(), m, out)?;
            meet_start(table, second.get(), m, out)
        }
        Stmt::Loop(_, body, _)
        | Stmt::Abort(_, body, _)
        | Stmt::Suspend(_, _, body, _)
        | Stmt::Bind(_, body) => meet_start(table, body.get(), m, out),
        Stmt::Scope(locals, body) => {
            meet_new(table, locals.as_slice(), m, out)?;
            meet_start(table, body.get(), m, out)
        }
    }
}

/// The same of all members.
#[cycle(meets_start)]
fn meet_parts(
    table: &Instances,
    parts: &[Stmt],
    m: Mark,
    out: &mut Vec<Met>,
) -> Result<(), AllocError>
    ensures { OnOk result (map (met_by (named table.now)) out.new.items
        ≡ map (met_by (named table.now)) out.old.items
        ++ map Some (flat_map (λ (part : Layout). part.met_on_start m) (map whole_layout parts.now))) }
{
    for part in parts {
        meet_start(table, part, m, out)?;
    }
    Ok(())
}

/// Adds the new instances of some locals.
fn meet_new(
    table: &Instances,
    locals: &[u32],
    m: Mark,
    out: &mut Vec<Met>,
) -> Result<(), AllocError>
    ensures { OnOk result (map (met_by (named table.now)) out.new.items
        ≡ map (met_by (named table.now)) out.old.items ++ map Some (met_new locals.now m)) }
{
    for local in locals {
        let instance = table.number(Var::Local(*local), m).ok_or(AllocError)?;
        out.push(Met {
            instance,
            store: None,
        })?;
    }
    Ok(())
}

/// Adds the kept instances of some locals, with their stores.
fn meet_kept(
    table: &Instances,
    locals: &[u32],
    stores: &[Store],
    out: &mut Vec<Met>,
) -> Result<(), AllocError>
    ensures { OnOk result (map (met_by (named table.now)) out.new.items
        ≡ map (met_by (named table.now)) out.old.items ++ map Some (met_kept locals.now stores.now)) }
{
    let mut others = stores;
    for local in locals {
        match others.split_first() {
            None => return Err(AllocError),
            Some((store, rest)) => {
                let instance = table
                    .number(Var::Local(*local), Mark::Zero)
                    .ok_or(AllocError)?;
                out.push(Met {
                    instance,
                    store: Some(*store),
                })?;
                others = rest;
            }
        }
    }
    Ok(())
}

/// Adds the instances that a resume comes past.
#[cycle(meets_resume)]
pub fn meet_resume(
    table: &Instances,
    s: &Stmt,
    r: &Residual,
    out: &mut Vec<Met>,
) -> Result<(), AllocError>
    ensures { OnOk result (map (met_by (named table.now)) out.new.items
        ≡ map (met_by (named table.now)) out.old.items ++ map Some ((whole_layout s.now).met_on_resume r.now)) }
{
    match s {
        Stmt::Nothing | Stmt::Assign(..) | Stmt::Delayed(..) | Stmt::Pause(_) | Stmt::Call(..) =>
            Ok(()),
        Stmt::Seq(parts) => meet_sequence(table, parts.as_slice(), r, out),
        Stmt::Par(parts) => meet_parallel(table, parts.as_slice(), r, out),
        Stmt::If(_, first, second) => {
            if is_in_first(r) {
                meet_resume(table, first.get(), inside_of(r), out)
            } else {
                meet_resume(table, second.get(), inside_of(r), out)
            }
        }
        Stmt::Loop(number, body, _) => {
            meet_resume(table, body.get(), inside_of(r), out)?;
            meet_start(table, body.get(), Mark::Loop(*number), out)
        }
        Stmt::Abort(_, body, _) => meet_resume(table, body.get(), inside_of(r), out),
        Stmt::Suspend(_, _, body, _) => {
            if is_at_hold(r) {
                meet_start(table, body.get(), Mark::Zero, out)
            } else {
                meet_resume(table, body.get(), inside_of(r), out)
            }
        }
        Stmt::Scope(locals, body) => {
            meet_kept(table, locals.as_slice(), stores(r), out)?;
            meet_resume(table, body.get(), inside_of(r), out)
        }
        Stmt::Bind(_, body) => meet_resume(table, body.get(), r, out),
    }
}

/// The same of a sequence: the member inside is resumed, and those after it are started.
#[cycle(meets_resume)]
#[tactic(auto, using(crate::proofs::Cutting::cutting))]
fn meet_sequence(
    table: &Instances,
    parts: &[Stmt],
    r: &Residual,
    out: &mut Vec<Met>,
) -> Result<(), AllocError>
    ensures { OnOk result (map (met_by (named table.now)) out.new.items
        ≡ map (met_by (named table.now)) out.old.items
        ++ map Some ((sequence_layout (map whole_layout parts.now)).met_on_resume r.now)) }
{
    let number = member_number(r) as usize;
    meet_member(table, parts, number, inside_of(r), out)?;
    meet_parts(table, later(parts, number), Mark::Zero, out)
}

/// The same of one member.
#[cycle(meets_resume)]
#[tactic(auto, using(crate::proofs::Cutting::cutting))]
fn meet_member(
    table: &Instances,
    parts: &[Stmt],
    number: usize,
    r: &Residual,
    out: &mut Vec<Met>,
) -> Result<(), AllocError>
    ensures { OnOk result (map (met_by (named table.now)) out.new.items
        ≡ map (met_by (named table.now)) out.old.items
        ++ map Some ((member bare (map whole_layout parts.now) number).met_on_resume r.now)) }
{
    match at(parts, number) {
        Some(part) => meet_resume(table, part, r, out),
        None => Err(AllocError),
    }
}

/// The same of the members in which control rests.
#[cycle(meets_resume)]
fn meet_parallel(
    table: &Instances,
    parts: &[Stmt],
    r: &Residual,
    out: &mut Vec<Met>,
) -> Result<(), AllocError>
    ensures { OnOk result (map (met_by (named table.now)) out.new.items
        ≡ map (met_by (named table.now)) out.old.items
        ++ map Some ((parallel_layout (map whole_layout parts.now)).met_on_resume r.now)) }
{
    let mut others = branches(r);
    for part in parts {
        match others.split_first() {
            None => return Ok(()),
            Some((branch, rest)) => {
                meet_branch(table, part, branch, out)?;
                others = rest;
            }
        }
    }
    Ok(())
}

/// The same of a member, if control rests in it.
#[cycle(meets_resume)]
fn meet_branch(
    table: &Instances,
    part: &Stmt,
    branch: &Option<Residual>,
    out: &mut Vec<Met>,
) -> Result<(), AllocError>
    ensures { OnOk result (map (met_by (named table.now)) out.new.items
        ≡ map (met_by (named table.now)) out.old.items
        ++ map Some (flat_map (λ (one : Layout × Residual). one.0.met_on_resume one.1) (resting (whole_layout part.now ∷ []) (branch.now ∷ [])))) }
{
    match branch {
        None => Ok(()),
        Some(r) => meet_resume(table, part, r, out),
    }
}
