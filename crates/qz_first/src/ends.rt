//! Where statements end, as nets over the ends of their parts.

ghost use Rattle.std.specs.Prelude.{ℕ, ◌&&◌, ◌||◌, not, IfOk, OnOk};
ghost use Rattle.qz_first.specs.BitNets.{bit_at};
ghost use Rattle.qz_first.specs.WireTable.{Extends, Has, IsSound, Declares, Carries};
ghost use Rattle.qz_first.specs.Mirror.{bit_of};

use crate::wires::{Wires, is_true};
use qz_syntax::Expr;
use qz_verilog::Ref;
use std::alloc::AllocError;

/// The value of an expression.
pub fn value(wires: &mut Wires, e: &Expr) -> Result<Ref, AllocError>
    ensures extends { OnOk result (Extends wires.old wires.new) }
    ensures means { IfOk result (λ net. Carries wires.new net (λ nets. bit_of e.now)) }
    ensures declares { IfOk result (λ net. (registers : ℕ) → IsSound registers wires.old →
        Declares registers wires.new net) }
{
    match e {
        Expr::Lit(v) => wires.constant(is_true(*v)),
        _ => wires.constant(false),
    }
}

/// The ends of a sequence up to and with a member: those before it where the member ends at once, and
/// its own where it is resumed.
pub fn ends_after(
    wires: &mut Wires,
    before: Ref,
    at_once: Ref,
    resumed: Ref,
) -> Result<Ref, AllocError>
    ensures extends { OnOk result (Extends wires.old wires.new) }
    ensures means { IfOk result (λ net. Carries wires.new net
        (λ nets. (bit_at nets before && bit_at nets at_once) || bit_at nets resumed)) }
    ensures declares { IfOk result (λ net. (registers : ℕ) → IsSound registers wires.old →
        Has registers wires.old before →
        Has registers wires.old at_once → Has registers wires.old resumed → Declares registers wires.new net) }
{
    let passed = wires.and(before, at_once)?;
    let net = wires.or(passed, resumed)?;
    Ok(net)
}

/// Resumed, a loop's body ends and its condition holds.
pub fn turns(wires: &mut Wires, body_ends: Ref, condition: &Expr) -> Result<Ref, AllocError>
    ensures extends { OnOk result (Extends wires.old wires.new) }
    ensures means { IfOk result (λ net. Carries wires.new net
        (λ nets. bit_at nets body_ends && bit_of condition.now)) }
    ensures declares { IfOk result (λ net. (registers : ℕ) → IsSound registers wires.old →
        Has registers wires.old body_ends →
        Declares registers wires.new net) }
{
    let again = value(wires, condition)?;
    let net = wires.and(body_ends, again)?;
    Ok(net)
}

/// Resumed, a loop's body ends and its condition doesn't hold.
pub fn leaves(wires: &mut Wires, body_ends: Ref, condition: &Expr) -> Result<Ref, AllocError>
    ensures extends { OnOk result (Extends wires.old wires.new) }
    ensures means { IfOk result (λ net. Carries wires.new net
        (λ nets. bit_at nets body_ends && not (bit_of condition.now))) }
    ensures declares { IfOk result (λ net. (registers : ℕ) → IsSound registers wires.old →
        Has registers wires.old body_ends →
        Declares registers wires.new net) }
{
    let again = value(wires, condition)?;
    let ends = wires.not(again)?;
    let net = wires.and(body_ends, ends)?;
    Ok(net)
}
