//! Guards of preemptions.

ghost use Rattle.std.specs.Prelude.{◌≡◌, IfOk, OnOk};
ghost use Rattle.qz_values.specs.Knowledge.{both, opposite};
ghost use Rattle.qz_meaning.specs.Aborts.{body_guard, start_guard};
ghost use Rattle.qz_control.specs.Circuits.{known, Means, Grows, IsBool};

use crate::circuit::Circuit;
use qz_nets::NetId;
use qz_syntax::Kind;
use std::alloc::AllocError;

/// The guard, where the condition doesn't hold.
pub fn unless(circuit: &mut Circuit, condition: NetId, guard: NetId) -> Result<NetId, AllocError>
    requires condition { IsBool circuit.old condition }
    requires guard { IsBool circuit.old guard }
    ensures grows { OnOk result (Grows circuit.old circuit.new) }
    ensures ty { IfOk result (λ id. IsBool circuit.new id) }
    ensures means { IfOk result (λ id. Means circuit.new id (λ v. both (known v guard) (opposite (known v condition)))) }
{
    let not = circuit.not(condition)?;
    let id = circuit.and(guard, not)?;
    Ok(id)
}

/// The guard of a body that is resumed under a preemption.
pub fn body_guard(
    circuit: &mut Circuit,
    kind: Kind,
    condition: NetId,
    guard: NetId,
) -> Result<NetId, AllocError>
    requires condition { IsBool circuit.old condition }
    requires guard { IsBool circuit.old guard }
    ensures grows { OnOk result (Grows circuit.old circuit.new) }
    ensures ty { IfOk result (λ id. IsBool circuit.new id) }
    ensures means { IfOk result (λ id. Means circuit.new id (λ v. body_guard kind (known v condition) (known v guard))) }
{
    if kind.weak {
        Ok(guard)
    } else {
        unless(circuit, condition, guard)
    }
}

/// The guard of a body that is started under a preemption.
pub fn start_guard(
    circuit: &mut Circuit,
    kind: Kind,
    condition: NetId,
    guard: NetId,
) -> Result<NetId, AllocError>
    requires condition { IsBool circuit.old condition }
    requires guard { IsBool circuit.old guard }
    ensures grows { OnOk result (Grows circuit.old circuit.new) }
    ensures ty { IfOk result (λ id. IsBool circuit.new id) }
    ensures means { IfOk result (λ id. Means circuit.new id (λ v. start_guard kind (known v condition) (known v guard))) }
{
    if kind.immediate {
        body_guard(circuit, kind, condition, guard)
    } else {
        Ok(guard)
    }
}
