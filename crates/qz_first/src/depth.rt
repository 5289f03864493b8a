//! What a statement does in a step in which control rests inside it.

ghost use Rattle.std.specs.Prelude.{◌≡◌, ℕ, true, false, ◌&&◌, not, ◌++◌, map, OnOk, IfOk};
ghost use Rattle.qz_first.specs.BitNets.{bit_at};
ghost use Rattle.qz_first.specs.WireTable.{Extends, Has, Carries};
ghost use Rattle.qz_first.specs.RestsBelow.{rests_below, all_rest_below};
ghost use Rattle.qz_first.specs.Driven.{DeclaresWrites, AppendsWrites};
ghost use Rattle.qz_first.specs.Mirror.{mirror_of, ended_all, resume_all, turns_by, bit_of};

use crate::driven::DrivenWrite;
use crate::ends::{ends_after, leaves, turns};
use crate::surface::surface;
use crate::wires::Wires;
use qz_syntax::{Expr, Stmt};
use qz_verilog::Ref;
use std::alloc::AllocError;

/// The writes of a resume are appended. The answer is whether control rests in the statement and it
/// ends in this step.
#[cycle(depth)]
pub fn depth(
    wires: &mut Wires,
    writes: &mut Vec<DrivenWrite>,
    s: &Stmt,
    act: Ref,
) -> Result<Ref, AllocError>
    ensures extends { OnOk result (Extends wires.old wires.new) }
    ensures ends { IfOk result (λ ends. Carries wires.new ends
        (λ nets. (mirror_of s.now).ended nets.registers)) }
    ensures means { OnOk result (AppendsWrites wires.new writes.old.items writes.new.items
        (λ nets. (mirror_of s.now).resume nets.registers (bit_at nets act))) }
    ensures declares { IfOk result (λ ends. (registers : ℕ) → rests_below registers s.now ≡ true →
        Has registers wires.old act →
        DeclaresWrites registers wires.old writes.old.items →
        DeclaresWrites registers wires.new writes.new.items × Has registers wires.new ends) }
{
    match s {
        Stmt::Pause(place) => Ok(Ref::Reg(u64::from(*place))),
        Stmt::Seq(parts) => depth_of_all(wires, writes, parts.as_slice(), act),
        Stmt::Loop(_, body, condition) => depth_of_loop(wires, writes, body.get(), condition, act),
        _ => wires.constant(false),
    }
}

/// A loop, whose body is resumed, and started again where it ends and the condition holds.
#[cycle(depth)]
fn depth_of_loop(
    wires: &mut Wires,
    writes: &mut Vec<DrivenWrite>,
    body: &Stmt,
    condition: &Expr,
    act: Ref,
) -> Result<Ref, AllocError>
    ensures extends { OnOk result (Extends wires.old wires.new) }
    ensures ends { IfOk result (λ ends. Carries wires.new ends
        (λ nets. (mirror_of body.now).ended nets.registers && not (bit_of condition.now))) }
    ensures means { OnOk result (AppendsWrites wires.new writes.old.items writes.new.items
        (λ nets. (mirror_of body.now).resume nets.registers (bit_at nets act)
        ++ (mirror_of body.now).start (bit_at nets act && turns_by (mirror_of body.now) condition.now nets.registers))) }
    ensures declares { IfOk result (λ ends. (registers : ℕ) → rests_below registers body.now ≡ true →
        Has registers wires.old act →
        DeclaresWrites registers wires.old writes.old.items →
        DeclaresWrites registers wires.new writes.new.items × Has registers wires.new ends) }
{
    let body_ends = depth(wires, writes, body, act)?;
    let turns = turns(wires, body_ends, condition)?;
    let again = wires.and(act, turns)?;
    surface(wires, writes, body, again)?;
    let ends = leaves(wires, body_ends, condition)?;
    Ok(ends)
}

/// Members of which one is resumed, and those after it started as it ends.
#[cycle(depth)]
fn depth_of_all(
    wires: &mut Wires,
    writes: &mut Vec<DrivenWrite>,
    parts: &[Stmt],
    act: Ref,
) -> Result<Ref, AllocError>
    ensures extends { OnOk result (Extends wires.old wires.new) }
    ensures ends { IfOk result (λ ends. Carries wires.new ends
        (λ nets. ended_all (map mirror_of parts.now) nets.registers false)) }
    ensures means { OnOk result (AppendsWrites wires.new writes.old.items writes.new.items
        (λ nets. resume_all (map mirror_of parts.now) nets.registers (bit_at nets act) false)) }
    ensures declares { IfOk result (λ ends. (registers : ℕ) → all_rest_below registers parts.now ≡ true →
        Has registers wires.old act →
        DeclaresWrites registers wires.old writes.old.items →
        DeclaresWrites registers wires.new writes.new.items × Has registers wires.new ends) }
{
    let mut so_far = wires.constant(false)?;
    for part in parts {
        let resumed = depth(wires, writes, part, act)?;
        let start = wires.and(act, so_far)?;
        let at_once = surface(wires, writes, part, start)?;
        so_far = ends_after(wires, so_far, at_once, resumed)?;
    }
    Ok(so_far)
}
