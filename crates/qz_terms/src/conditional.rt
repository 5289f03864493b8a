//! Guards and ends of a start, where a condition has a say in them.

ghost use Rattle.std.specs.Prelude.{◌≡◌, IfOk, OnOk, if◌then◌else◌};
ghost use Rattle.qz_values.specs.Knowledge.{both, either, opposite};
ghost use Rattle.qz_control.specs.Circuits.{known, Means, Grows, IsBool};
ghost use Rattle.qz_control.specs.Guarded.{goes};

use qz_control::{Circuit, unless};
use qz_nets::NetId;
use qz_syntax::Kind;
use std::alloc::AllocError;

/// Guards of two sides.
#[derive(Clone, Copy, Debug, PartialEq, Eq)]
pub struct Sides {
    /// Where the condition holds.
    pub first: NetId,
    /// Where it doesn't.
    pub second: NetId,
}

/// A guard where a condition holds, and where it doesn't.
pub fn guards_of_sides(
    circuit: &mut Circuit,
    condition: NetId,
    guard: NetId,
) -> Result<Sides, AllocError>
    requires condition { IsBool circuit.old condition }
    requires guard { IsBool circuit.old guard }
    ensures grows { OnOk result (Grows circuit.old circuit.new) }
    ensures first_ty { IfOk result (λ guards. IsBool circuit.new guards.first) }
    ensures second_ty { IfOk result (λ guards. IsBool circuit.new guards.second) }
    ensures first { IfOk result (λ guards. Means circuit.new guards.first (λ v. both (known v guard) (known v condition))) }
    ensures second { IfOk result (λ guards. Means circuit.new guards.second (λ v. goes (known v condition) (known v guard))) }
{
    let first = circuit.and(guard, condition)?;
    let second = unless(circuit, condition, guard)?;
    Ok(Sides { first, second })
}

/// Whether an `if` ends, from whether its sides do.
pub fn ends_of_choice(
    circuit: &mut Circuit,
    condition: NetId,
    first: NetId,
    second: NetId,
) -> Result<NetId, AllocError>
    requires condition { IsBool circuit.old condition }
    requires first { IsBool circuit.old first }
    requires second { IsBool circuit.old second }
    ensures grows { OnOk result (Grows circuit.old circuit.new) }
    ensures ty { IfOk result (λ id. IsBool circuit.new id) }
    ensures means { IfOk result (λ id. Means circuit.new id (λ v.
        either (both (known v condition) (known v first)) (both (opposite (known v condition)) (known v second)))) }
{
    let not = circuit.not(condition)?;
    let one = circuit.and(condition, first)?;
    let other = circuit.and(not, second)?;
    let id = circuit.or(one, other)?;
    Ok(id)
}

/// Whether an abort that is started ends, from whether its body does: only an immediate one looks at its
/// condition.
pub fn ends_of_abort(
    circuit: &mut Circuit,
    kind: Kind,
    condition: NetId,
    ends: NetId,
) -> Result<NetId, AllocError>
    requires condition { IsBool circuit.old condition }
    requires ends { IsBool circuit.old ends }
    ensures grows { OnOk result (Grows circuit.old circuit.new) }
    ensures ty { IfOk result (λ id. IsBool circuit.new id) }
    ensures means { IfOk result (λ id. Means circuit.new id (λ v.
        if kind.immediate then either (known v condition) (known v ends) else known v ends)) }
{
    if kind.immediate {
        let id = circuit.or(condition, ends)?;
        Ok(id)
    } else {
        Ok(ends)
    }
}

/// Whether a suspend that is started ends, from whether its body does: only an immediate one looks at its
/// condition.
pub fn ends_of_suspend(
    circuit: &mut Circuit,
    kind: Kind,
    condition: NetId,
    ends: NetId,
) -> Result<NetId, AllocError>
    requires condition { IsBool circuit.old condition }
    requires ends { IsBool circuit.old ends }
    ensures grows { OnOk result (Grows circuit.old circuit.new) }
    ensures ty { IfOk result (λ id. IsBool circuit.new id) }
    ensures means { IfOk result (λ id. Means circuit.new id (λ v.
        if kind.immediate then both (opposite (known v condition)) (known v ends) else known v ends)) }
{
    if kind.immediate {
        let not = circuit.not(condition)?;
        let id = circuit.and(not, ends)?;
        Ok(id)
    } else {
        Ok(ends)
    }
}
