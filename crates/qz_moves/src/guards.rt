//! Guards of where control rests under preemptions.

ghost use Rattle.std.specs.Prelude.{◌≡◌, IfOk, OnOk};
ghost use Rattle.qz_values.specs.Knowledge.{both, either, opposite, choose_of};
ghost use Rattle.qz_control.specs.Circuits.{known, Means, Grows, IsBool};
ghost use Rattle.qz_control.specs.Guarded.{goes, stays};
ghost use Rattle.qz_control.specs.BodyMirrors.{kept_guard};

use qz_control::{Circuit, unless};
use qz_nets::NetId;
use qz_syntax::Kind;
use qz_terms::guards_of_sides;
use std::alloc::AllocError;

/// Guards by which control stays or goes on.
#[derive(Clone, Copy, Debug)]
pub struct Ways {
    pub stay: NetId,
    pub go: NetId,
}

/// Guards of an immediate suspend.
#[derive(Clone, Copy, Debug)]
pub struct Held {
    /// Whether control rests at the hold place after the step.
    pub here: NetId,
    /// The guard with which the body is started.
    pub body: NetId,
}

/// The guard of where control rests in the body of an abort that is started: only an immediate one looks at
/// its condition.
pub fn kept_guard(
    circuit: &mut Circuit,
    kind: Kind,
    condition: NetId,
    guard: NetId,
) -> Result<NetId, AllocError>
    requires condition { IsBool circuit.old condition }
    requires guard { IsBool circuit.old guard }
    ensures grows { OnOk result (Grows circuit.old circuit.new) }
    ensures ty { IfOk result (λ id. IsBool circuit.new id) }
    ensures means { IfOk result (λ id. Means circuit.new id (λ v. kept_guard kind (known v condition) (known v guard))) }
{
    if kind.immediate {
        unless(circuit, condition, guard)
    } else {
        Ok(guard)
    }
}

/// How control stays or goes on in the body of a suspend: it stays, too, where it was to go on and the
/// condition holds.
pub fn ways_of_suspend(
    circuit: &mut Circuit,
    condition: NetId,
    stay: NetId,
    go: NetId,
) -> Result<Ways, AllocError>
    requires condition { IsBool circuit.old condition }
    requires stay { IsBool circuit.old stay }
    requires go { IsBool circuit.old go }
    ensures grows { OnOk result (Grows circuit.old circuit.new) }
    ensures stay_ty { IfOk result (λ ways. IsBool circuit.new ways.stay) }
    ensures go_ty { IfOk result (λ ways. IsBool circuit.new ways.go) }
    ensures stay { IfOk result (λ ways. Means circuit.new ways.stay (λ v. stays (known v condition) (known v stay) (known v go))) }
    ensures go { IfOk result (λ ways. Means circuit.new ways.go (λ v. goes (known v condition) (known v go))) }
{
    let suspended = circuit.and(go, condition)?;
    let still = circuit.or(stay, suspended)?;
    let on = unless(circuit, condition, go)?;
    Ok(Ways {
        stay: still,
        go: on,
    })
}

/// Whether control rests at a place: where it does and is to stay, and where it comes there.
pub fn rests_where(
    circuit: &mut Circuit,
    at: NetId,
    stay: NetId,
    comes: NetId,
) -> Result<NetId, AllocError>
    requires at { IsBool circuit.old at }
    requires stay { IsBool circuit.old stay }
    requires comes { IsBool circuit.old comes }
    ensures grows { OnOk result (Grows circuit.old circuit.new) }
    ensures ty { IfOk result (λ id. IsBool circuit.new id) }
    ensures means { IfOk result (λ id. Means circuit.new id (λ v. either (both (known v at) (known v stay)) (known v comes))) }
{
    let stayed = circuit.and(at, stay)?;
    let id = circuit.or(stayed, comes)?;
    Ok(id)
}

/// The guards of an immediate suspend, where `held` says whether control rests at its hold place: from there
/// it goes on as if it were started.
pub fn guards_of_held(
    circuit: &mut Circuit,
    condition: NetId,
    held: NetId,
    stay: NetId,
    go: NetId,
    start: NetId,
) -> Result<Held, AllocError>
    requires condition { IsBool circuit.old condition }
    requires held { IsBool circuit.old held }
    requires stay { IsBool circuit.old stay }
    requires go { IsBool circuit.old go }
    requires start { IsBool circuit.old start }
    ensures grows { OnOk result (Grows circuit.old circuit.new) }
    ensures here_ty { IfOk result (λ guards. IsBool circuit.new guards.here) }
    ensures body_ty { IfOk result (λ guards. IsBool circuit.new guards.body) }
    ensures here { IfOk result (λ guards. Means circuit.new guards.here (λ v.
        either (both (known v held) (known v stay)) (both (choose_of (known v held) (known v go) (known v start)) (known v condition)))) }
    ensures body { IfOk result (λ guards. Means circuit.new guards.body (λ v.
        goes (known v condition) (choose_of (known v held) (known v go) (known v start)))) }
{
    let from = circuit.choose(held, go, start)?;
    let sides = guards_of_sides(circuit, condition, from)?;
    let here = rests_where(circuit, held, stay, sides.first)?;
    Ok(Held {
        here,
        body: sides.second,
    })
}

/// Whether a loop starts its body anew: control goes on, the body ends, and the condition holds.
pub fn turns(
    circuit: &mut Circuit,
    condition: NetId,
    ended: NetId,
    go: NetId,
) -> Result<NetId, AllocError>
    requires condition { IsBool circuit.old condition }
    requires ended { IsBool circuit.old ended }
    requires go { IsBool circuit.old go }
    ensures grows { OnOk result (Grows circuit.old circuit.new) }
    ensures ty { IfOk result (λ id. IsBool circuit.new id) }
    ensures means { IfOk result (λ id. Means circuit.new id (λ v. both (known v go) (both (known v ended) (known v condition)))) }
{
    let again = circuit.and(ended, condition)?;
    let id = circuit.and(go, again)?;
    Ok(id)
}

/// Whether neither is so.
pub fn neither(circuit: &mut Circuit, a: NetId, b: NetId) -> Result<NetId, AllocError>
    requires a { IsBool circuit.old a }
    requires b { IsBool circuit.old b }
    ensures grows { OnOk result (Grows circuit.old circuit.new) }
    ensures ty { IfOk result (λ id. IsBool circuit.new id) }
    ensures means { IfOk result (λ id. Means circuit.new id (λ v. opposite (either (known v a) (known v b)))) }
{
    let one = circuit.or(a, b)?;
    let id = circuit.not(one)?;
    Ok(id)
}
