//! Whether control rests in a statement.

ghost use Rattle.std.specs.Prelude.{◌≡◌, map, IfOk, OnOk};
ghost use Rattle.qz_values.specs.declared.Know.TheVariants.{Known};
ghost use Rattle.qz_values.specs.Values.{no};
ghost use Rattle.qz_values.specs.Knowledge.{either};
ghost use Rattle.qz_control.specs.Leaves.{known_bit};
ghost use Rattle.qz_control.specs.Circuits.{Means, Grows, IsBool};
ghost use Rattle.qz_control.specs.Mirrors.{any_inside};
ghost use Rattle.qz_control.specs.Mirror.{mirror_of};

use crate::circuit::Circuit;
use crate::leaves::LeafKind;
use qz_nets::NetId;
use qz_syntax::Stmt;
use std::alloc::AllocError;

/// Whether control rests in a statement.
#[cycle(inside)]
pub fn inside(circuit: &mut Circuit, s: &Stmt) -> Result<NetId, AllocError>
    ensures grows { OnOk result (Grows circuit.old circuit.new) }
    ensures ty { IfOk result (λ id. IsBool circuit.new id) }
    ensures means { IfOk result (λ id. Means circuit.new id (λ v. (mirror_of v.leaves.scene s.now).inside v.leaves.at)) }
{
    match s {
        Stmt::Pause(place) => circuit.flag(LeafKind::At(*place)),
        Stmt::Seq(parts) | Stmt::Par(parts) => inside_any(circuit, parts.as_slice()),
        Stmt::If(_, first, second) => {
            let in_first = inside(circuit, first.get())?;
            let in_second = inside(circuit, second.get())?;
            circuit.or(in_first, in_second)
        }
        Stmt::Loop(_, body, _)
        | Stmt::Abort(_, body, _)
        | Stmt::Suspend(_, None, body, _)
        | Stmt::Scope(_, body) => inside(circuit, body.get()),
        Stmt::Suspend(_, Some(hold), body, _) => inside_or_held(circuit, *hold, body.get()),
        Stmt::Nothing | Stmt::Assign(..) | Stmt::Delayed(..) | Stmt::Call(..) | Stmt::Bind(..) =>
            circuit.truth(false),
    }
}

/// Whether control rests in one of these.
#[cycle(inside)]
fn inside_any(circuit: &mut Circuit, parts: &[Stmt]) -> Result<NetId, AllocError>
    ensures grows { OnOk result (Grows circuit.old circuit.new) }
    ensures ty { IfOk result (λ id. IsBool circuit.new id) }
    ensures means { IfOk result (λ id. Means circuit.new id
        (λ v. any_inside (map (mirror_of v.leaves.scene) parts.now) v.leaves.at (Known no))) }
{
    let mut so_far = circuit.truth(false)?;
    for part in parts {
        let here = inside(circuit, part)?;
        so_far = circuit.or(so_far, here)?;
    }
    Ok(so_far)
}

/// Whether control rests at a hold place or in a body.
#[cycle(inside)]
fn inside_or_held(circuit: &mut Circuit, hold: u32, body: &Stmt) -> Result<NetId, AllocError>
    ensures grows { OnOk result (Grows circuit.old circuit.new) }
    ensures ty { IfOk result (λ id. IsBool circuit.new id) }
    ensures means { IfOk result (λ id. Means circuit.new id
        (λ v. either (known_bit (v.leaves.at.place hold)) ((mirror_of v.leaves.scene body.now).inside v.leaves.at))) }
{
    let held = circuit.flag(LeafKind::At(hold))?;
    let in_body = inside(circuit, body)?;
    let id = circuit.or(held, in_body)?;
    Ok(id)
}
