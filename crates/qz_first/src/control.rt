//! Where control goes: nets over the places where it rests.
//!
//! The register of a place says that control rests there.

ghost use Rattle.std.specs.Prelude.{◌≡◌, ℕ, true, false, ◌&&◌, not, ◌++◌, [], ◌∷◌, map, IfOk, OnOk};
ghost use Rattle.qz_first.specs.BitNets.{Nets, bit_at};
ghost use Rattle.qz_first.specs.WireTable.{Extends, Has, Carries};
ghost use Rattle.qz_first.specs.declared.wires.Wires.{Wires};
ghost use Rattle.qz_first.specs.RestsBelow.{rests_below, all_rest_below};
ghost use Rattle.qz_first.specs.Driven.{rests_as_bits, DeclaresRests, AppendsRests};
ghost use Rattle.qz_first.specs.Mirror.{mirror_of, bit_of, all_at_once, enter_all, ended_all, move_all, turns_by};

use crate::driven::DrivenPlace;
use crate::ends::{ends_after, leaves, turns};
use crate::wires::Wires;
use qz_syntax::{Expr, Stmt};
use qz_verilog::Ref;
use std::alloc::AllocError;

/// The places where control rests after a start are appended. The answer is whether the start ends in
/// the same step.
#[cycle(enter)]
pub fn enter(
    wires: &mut Wires,
    rests: &mut Vec<DrivenPlace>,
    s: &Stmt,
    start: Ref,
) -> Result<Ref, AllocError>
    ensures extends { OnOk result (Extends wires.old wires.new) }
    ensures ends { IfOk result (λ ends. Carries wires.new ends (λ nets. (mirror_of s.now).at_once)) }
    ensures means { OnOk result (AppendsRests wires.new rests.old.items rests.new.items
        (λ nets. (mirror_of s.now).enter (bit_at nets start))) }
    ensures declares { IfOk result (λ ends. (registers : ℕ) → rests_below registers s.now ≡ true →
        Has registers wires.old start →
        DeclaresRests registers wires.old rests.old.items →
        DeclaresRests registers wires.new rests.new.items × Has registers wires.new ends) }
{
    match s {
        Stmt::Pause(place) => enter_pause(wires, rests, *place, start),
        Stmt::Seq(parts) => enter_first(wires, rests, parts.as_slice(), start),
        Stmt::Loop(_, body, _) => enter_loop(wires, rests, body.get(), start),
        _ => wires.constant(true),
    }
}

/// A pause, where control rests.
fn enter_pause(
    wires: &mut Wires,
    rests: &mut Vec<DrivenPlace>,
    place: u32,
    when: Ref,
) -> Result<Ref, AllocError>
    ensures extends { OnOk result (Extends wires.old wires.new) }
    ensures ends { IfOk result (λ ends. Carries wires.new ends (λ nets. false)) }
    ensures means { OnOk result (AppendsRests wires.new rests.old.items rests.new.items
        (λ nets. (place, bit_at nets when) ∷ [])) }
    ensures declares { IfOk result (λ ends. (registers : ℕ) → Has registers wires.old when →
        DeclaresRests registers wires.old rests.old.items →
        DeclaresRests registers wires.new rests.new.items × Has registers wires.new ends) }
{
    rest(rests, place, when)?;
    let ends = wires.constant(false)?;
    Ok(ends)
}

/// One more place where control rests.
fn rest(rests: &mut Vec<DrivenPlace>, place: u32, when: Ref) -> Result<(), AllocError>
    ensures means { OnOk result ((nets : Nets) →
        rests_as_bits nets rests.new.items ≡ rests_as_bits nets rests.old.items
        ++ ((place, bit_at nets when) ∷ [])) }
    ensures declares { OnOk result ((registers : ℕ) (wires : Wires) → Has registers wires when →
        DeclaresRests registers wires rests.old.items → DeclaresRests registers wires rests.new.items) }
{
    rests.push(DrivenPlace { place, when })?;
    Ok(())
}

/// A loop, which starts its body and never ends at once.
#[cycle(enter)]
fn enter_loop(
    wires: &mut Wires,
    rests: &mut Vec<DrivenPlace>,
    body: &Stmt,
    start: Ref,
) -> Result<Ref, AllocError>
    ensures extends { OnOk result (Extends wires.old wires.new) }
    ensures ends { IfOk result (λ ends. Carries wires.new ends (λ nets. false)) }
    ensures means { OnOk result (AppendsRests wires.new rests.old.items rests.new.items
        (λ nets. (mirror_of body.now).enter (bit_at nets start))) }
    ensures declares { IfOk result (λ ends. (registers : ℕ) → rests_below registers body.now ≡ true →
        Has registers wires.old start →
        DeclaresRests registers wires.old rests.old.items →
        DeclaresRests registers wires.new rests.new.items × Has registers wires.new ends) }
{
    enter(wires, rests, body, start)?;
    let ends = wires.constant(false)?;
    Ok(ends)
}

/// Members that are started one after the other, each where all before it end at once.
#[cycle(enter)]
fn enter_first(
    wires: &mut Wires,
    rests: &mut Vec<DrivenPlace>,
    parts: &[Stmt],
    start: Ref,
) -> Result<Ref, AllocError>
    ensures extends { OnOk result (Extends wires.old wires.new) }
    ensures ends { IfOk result (λ ends. Carries wires.new ends
        (λ nets. all_at_once (map mirror_of parts.now))) }
    ensures means { OnOk result (AppendsRests wires.new rests.old.items rests.new.items
        (λ nets. enter_all (map mirror_of parts.now) (bit_at nets start))) }
    ensures declares { IfOk result (λ ends. (registers : ℕ) → all_rest_below registers parts.now ≡ true →
        Has registers wires.old start →
        DeclaresRests registers wires.old rests.old.items →
        DeclaresRests registers wires.new rests.new.items × Has registers wires.new ends) }
{
    let mut start = start;
    let mut ends = wires.constant(true)?;
    for part in parts {
        let part_ends = enter(wires, rests, part, start)?;
        start = wires.and(start, part_ends)?;
        ends = wires.and(ends, part_ends)?;
    }
    Ok(ends)
}

/// The places where control rests after a resume are appended. The answer is whether control rests in
/// the statement and it ends in this step.
#[cycle(moves)]
pub fn moves(wires: &mut Wires, rests: &mut Vec<DrivenPlace>, s: &Stmt) -> Result<Ref, AllocError>
    ensures extends { OnOk result (Extends wires.old wires.new) }
    ensures ends { IfOk result (λ ends. Carries wires.new ends
        (λ nets. (mirror_of s.now).ended nets.registers)) }
    ensures means { OnOk result (AppendsRests wires.new rests.old.items rests.new.items
        (λ nets. (mirror_of s.now).move nets.registers)) }
    ensures declares { IfOk result (λ ends. (registers : ℕ) → rests_below registers s.now ≡ true →
        DeclaresRests registers wires.old rests.old.items →
        DeclaresRests registers wires.new rests.new.items × Has registers wires.new ends) }
{
    match s {
        Stmt::Pause(place) => Ok(Ref::Reg(u64::from(*place))),
        Stmt::Seq(parts) => moves_on(wires, rests, parts.as_slice()),
        Stmt::Loop(_, body, condition) => moves_round(wires, rests, body.get(), condition),
        _ => wires.constant(false),
    }
}

/// A loop, whose body is resumed, and started again where it ends and the condition holds.
#[cycle(moves)]
fn moves_round(
    wires: &mut Wires,
    rests: &mut Vec<DrivenPlace>,
    body: &Stmt,
    condition: &Expr,
) -> Result<Ref, AllocError>
    ensures extends { OnOk result (Extends wires.old wires.new) }
    ensures ends { IfOk result (λ ends. Carries wires.new ends
        (λ nets. (mirror_of body.now).ended nets.registers && not (bit_of condition.now))) }
    ensures means { OnOk result (AppendsRests wires.new rests.old.items rests.new.items
        (λ nets. (mirror_of body.now).move nets.registers
        ++ (mirror_of body.now).enter (turns_by (mirror_of body.now) condition.now nets.registers))) }
    ensures declares { IfOk result (λ ends. (registers : ℕ) → rests_below registers body.now ≡ true →
        DeclaresRests registers wires.old rests.old.items →
        DeclaresRests registers wires.new rests.new.items × Has registers wires.new ends) }
{
    let body_ends = moves(wires, rests, body)?;
    let turns = turns(wires, body_ends, condition)?;
    enter(wires, rests, body, turns)?;
    let ends = leaves(wires, body_ends, condition)?;
    Ok(ends)
}

/// Members of which one is resumed, and those after it started as it ends.
#[cycle(moves)]
fn moves_on(
    wires: &mut Wires,
    rests: &mut Vec<DrivenPlace>,
    parts: &[Stmt],
) -> Result<Ref, AllocError>
    ensures extends { OnOk result (Extends wires.old wires.new) }
    ensures ends { IfOk result (λ ends. Carries wires.new ends
        (λ nets. ended_all (map mirror_of parts.now) nets.registers false)) }
    ensures means { OnOk result (AppendsRests wires.new rests.old.items rests.new.items
        (λ nets. move_all (map mirror_of parts.now) nets.registers false)) }
    ensures declares { IfOk result (λ ends. (registers : ℕ) → all_rest_below registers parts.now ≡ true →
        DeclaresRests registers wires.old rests.old.items →
        DeclaresRests registers wires.new rests.new.items × Has registers wires.new ends) }
{
    let mut so_far = wires.constant(false)?;
    for part in parts {
        let resumed = moves(wires, rests, part)?;
        let at_once = enter(wires, rests, part, so_far)?;
        so_far = ends_after(wires, so_far, at_once, resumed)?;
    }
    Ok(so_far)
}
