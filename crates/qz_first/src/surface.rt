//! What a statement does in the step in which it is started.

ghost use Rattle.std.specs.Prelude.{ℕ, true, false, map, OnOk, IfOk};
ghost use Rattle.qz_first.specs.BitNets.{bit_at};
ghost use Rattle.qz_first.specs.WireTable.{Extends, Has, Carries};
ghost use Rattle.qz_first.specs.Driven.{DeclaresWrites, AppendsWrites};
ghost use Rattle.qz_first.specs.Mirror.{mirror_of, driven, start_all, all_at_once};

use crate::driven::DrivenWrite;
use crate::ends::value;
use crate::wires::Wires;
use qz_syntax::{Expr, Stmt, Var};
use qz_verilog::Ref;
use std::alloc::AllocError;

/// The writes of a start are appended. The answer is whether it ends in the same step.
#[cycle(surface)]
pub fn surface(
    wires: &mut Wires,
    writes: &mut Vec<DrivenWrite>,
    s: &Stmt,
    start: Ref,
) -> Result<Ref, AllocError>
    ensures extends { OnOk result (Extends wires.old wires.new) }
    ensures ends { IfOk result (λ ends. Carries wires.new ends (λ nets. (mirror_of s.now).at_once)) }
    ensures means { OnOk result (AppendsWrites wires.new writes.old.items writes.new.items
        (λ nets. (mirror_of s.now).start (bit_at nets start))) }
    ensures declares { IfOk result (λ ends. (registers : ℕ) → Has registers wires.old start →
        DeclaresWrites registers wires.old writes.old.items →
        DeclaresWrites registers wires.new writes.new.items × Has registers wires.new ends) }
{
    match s {
        Stmt::Assign(target, e) => surface_of_assignment(wires, writes, *target, e, start),
        Stmt::Pause(_) => wires.constant(false),
        Stmt::Seq(parts) => surface_of_all(wires, writes, parts.as_slice(), start),
        Stmt::Loop(_, body, _) => surface_of_loop(wires, writes, body.get(), start),
        _ => wires.constant(true),
    }
}

/// An assignment, which ends at once.
fn surface_of_assignment(
    wires: &mut Wires,
    writes: &mut Vec<DrivenWrite>,
    target: Var,
    e: &Expr,
    guard: Ref,
) -> Result<Ref, AllocError>
    ensures extends { OnOk result (Extends wires.old wires.new) }
    ensures ends { IfOk result (λ ends. Carries wires.new ends (λ nets. true)) }
    ensures means { OnOk result (AppendsWrites wires.new writes.old.items writes.new.items
        (λ nets. driven target e.now (bit_at nets guard))) }
    ensures declares { IfOk result (λ ends. (registers : ℕ) → Has registers wires.old guard →
        DeclaresWrites registers wires.old writes.old.items →
        DeclaresWrites registers wires.new writes.new.items × Has registers wires.new ends) }
{
    assign(wires, writes, target, e, guard)?;
    let ends = wires.constant(true)?;
    Ok(ends)
}

/// The write of an assignment.
fn assign(
    wires: &mut Wires,
    writes: &mut Vec<DrivenWrite>,
    target: Var,
    e: &Expr,
    guard: Ref,
) -> Result<(), AllocError>
    ensures extends { OnOk result (Extends wires.old wires.new) }
    ensures means { OnOk result (AppendsWrites wires.new writes.old.items writes.new.items
        (λ nets. driven target e.now (bit_at nets guard))) }
    ensures declares { OnOk result ((registers : ℕ) → Has registers wires.old guard →
        DeclaresWrites registers wires.old writes.old.items →
        DeclaresWrites registers wires.new writes.new.items) }
{
    if let Var::Formal(output) = target {
        let value = value(wires, e)?;
        writes.push(DrivenWrite {
            output,
            guard,
            value,
        })?;
    }
    Ok(())
}

/// A loop, which starts its body and never ends at once.
#[cycle(surface)]
fn surface_of_loop(
    wires: &mut Wires,
    writes: &mut Vec<DrivenWrite>,
    body: &Stmt,
    start: Ref,
) -> Result<Ref, AllocError>
    ensures extends { OnOk result (Extends wires.old wires.new) }
    ensures ends { IfOk result (λ ends. Carries wires.new ends (λ nets. false)) }
    ensures means { OnOk result (AppendsWrites wires.new writes.old.items writes.new.items
        (λ nets. (mirror_of body.now).start (bit_at nets start))) }
    ensures declares { IfOk result (λ ends. (registers : ℕ) → Has registers wires.old start →
        DeclaresWrites registers wires.old writes.old.items →
        DeclaresWrites registers wires.new writes.new.items × Has registers wires.new ends) }
{
    surface(wires, writes, body, start)?;
    let ends = wires.constant(false)?;
    Ok(ends)
}

/// Members that are started one after the other, each where all before it end at once.
#[cycle(surface)]
fn surface_of_all(
    wires: &mut Wires,
    writes: &mut Vec<DrivenWrite>,
    parts: &[Stmt],
    start: Ref,
) -> Result<Ref, AllocError>
    ensures extends { OnOk result (Extends wires.old wires.new) }
    ensures ends { IfOk result (λ ends. Carries wires.new ends
        (λ nets. all_at_once (map mirror_of parts.now))) }
    ensures means { OnOk result (AppendsWrites wires.new writes.old.items writes.new.items
        (λ nets. start_all (map mirror_of parts.now) (bit_at nets start))) }
    ensures declares { IfOk result (λ ends. (registers : ℕ) → Has registers wires.old start →
        DeclaresWrites registers wires.old writes.old.items →
        DeclaresWrites registers wires.new writes.new.items × Has registers wires.new ends) }
{
    let mut start = start;
    let mut ends = wires.constant(true)?;
    for part in parts {
        let part_ends = surface(wires, writes, part, start)?;
        start = wires.and(start, part_ends)?;
        ends = wires.and(ends, part_ends)?;
    }
    Ok(ends)
}
