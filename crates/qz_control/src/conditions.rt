//! Conditions as nets.

ghost use Rattle.std.specs.Prelude.{◌≡◌, IsTrue, IfOk, OnOk};
ghost use Rattle.qz_meaning.specs.Expressions.{value_here};
ghost use Rattle.qz_control.specs.Circuits.{Means, Grows, IsBool};
ghost use Rattle.qz_control.specs.Contexts.{context_of};
ghost use Rattle.qz_control.specs.Ready.{is_test};

use crate::circuit::Circuit;
use crate::marks::Marks;
use crate::values::value;
use qz_nets::NetId;
use qz_syntax::{Expr, Module};
use std::alloc::AllocError;

/// Whether a condition holds here. The condition is a bool.
pub fn test(
    circuit: &mut Circuit,
    owner: &Module,
    marks: &Marks,
    condition: &Expr,
) -> Result<NetId, AllocError>
    requires { IsTrue (is_test owner.now condition.now) }
    ensures grows { OnOk result (Grows circuit.old circuit.new) }
    ensures ty { IfOk result (λ id. IsBool circuit.new id) }
    ensures means { IfOk result (λ id. Means circuit.new id (λ v. value_here v.leaves.scene (context_of marks.now) condition.now)) }
{
    let id = value(circuit, owner, marks, condition)?;
    Ok(id)
}
