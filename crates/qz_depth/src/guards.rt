//! Guards of what a resume does.

ghost use Rattle.std.specs.Prelude.{IfOk, OnOk};
ghost use Rattle.qz_values.specs.Knowledge.{both, either, choose_of};
ghost use Rattle.qz_meaning.specs.Aborts.{body_guard, start_guard};
ghost use Rattle.qz_control.specs.Circuits.{known, Means, Grows, IsBool};

use qz_control::{Circuit, body_guard, start_guard};
use qz_nets::NetId;
use qz_syntax::Kind;
use std::alloc::AllocError;

/// The guards of a body.
#[derive(Clone, Copy, Debug)]
pub struct Guards {
    /// With which it is resumed.
    pub act: NetId,
    /// Where the walk comes to its start.
    pub live: NetId,
    /// With which it is started.
    pub start: NetId,
}

/// The guard with which a loop starts its body anew: that of the resume, where the body ends and the
/// condition holds.
pub fn guard_of_turn(
    circuit: &mut Circuit,
    condition: NetId,
    ended: NetId,
    act: NetId,
) -> Result<NetId, AllocError>
    requires condition { IsBool circuit.old condition }
    requires ended { IsBool circuit.old ended }
    requires act { IsBool circuit.old act }
    ensures grows { OnOk result (Grows circuit.old circuit.new) }
    ensures ty { IfOk result (λ id. IsBool circuit.new id) }
    ensures means { IfOk result (λ id. Means circuit.new id (λ v. both (both (known v act) (known v ended)) (known v condition))) }
{
    let done = circuit.and(act, ended)?;
    let id = circuit.and(done, condition)?;
    Ok(id)
}

/// The guards of the body of an immediate suspend, where `held` says whether control rests at its hold place:
/// from there it goes on as if it were started.
pub fn guards_of_held(
    circuit: &mut Circuit,
    kind: Kind,
    condition: NetId,
    held: NetId,
    act: NetId,
    live: NetId,
    start: NetId,
) -> Result<Guards, AllocError>
    requires condition { IsBool circuit.old condition }
    requires held { IsBool circuit.old held }
    requires act { IsBool circuit.old act }
    requires live { IsBool circuit.old live }
    requires start { IsBool circuit.old start }
    ensures grows { OnOk result (Grows circuit.old circuit.new) }
    ensures act_ty { IfOk result (λ guards. IsBool circuit.new guards.act) }
    ensures live_ty { IfOk result (λ guards. IsBool circuit.new guards.live) }
    ensures start_ty { IfOk result (λ guards. IsBool circuit.new guards.start) }
    ensures act { IfOk result (λ guards. Means circuit.new guards.act (λ v. body_guard kind (known v condition) (known v act))) }
    ensures live { IfOk result (λ guards. Means circuit.new guards.live (λ v. either (known v live) (known v held))) }
    ensures start { IfOk result (λ guards. Means circuit.new guards.start (λ v.
        start_guard kind (known v condition) (choose_of (known v held) (known v act) (known v start)))) }
{
    let resumed = body_guard(circuit, kind, condition, act)?;
    let alive = circuit.or(live, held)?;
    let from = circuit.choose(held, act, start)?;
    let started = start_guard(circuit, kind, condition, from)?;
    Ok(Guards {
        act: resumed,
        live: alive,
        start: started,
    })
}
