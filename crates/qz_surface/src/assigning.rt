//! Assignments.

ghost use Rattle.std.specs.Prelude.{◌∷◌, [], true, IsTrue, IfOk, OnOk};
ghost use Rattle.qz_values.specs.declared.Know.TheVariants.{Known};
ghost use Rattle.qz_values.specs.Values.{yes};
ghost use Rattle.qz_syntax.specs.Typing.{agree};
ghost use Rattle.qz_meaning.specs.Scenes.{instance_here};
ghost use Rattle.qz_meaning.specs.Expressions.{value_here};
ghost use Rattle.qz_control.specs.Circuits.{known, Means, Grows, IsBool};
ghost use Rattle.qz_control.specs.Contexts.{context_of};
ghost use Rattle.qz_control.specs.Typed.{declared_type, expr_type};
ghost use Rattle.qz_control.specs.Guarded.{where_inside};
ghost use Rattle.qz_surface.specs.Written.{Appends, AreWrites};

use crate::writes::NetWrite;
use qz_control::{Circuit, Marks, value};
use qz_nets::NetId;
use qz_syntax::{Expr, Module, Var};
use qz_terms::where_so;
use std::alloc::AllocError;

/// The write of an assignment is appended, which happens only where it is live. The answer is whether the
/// assignment ends at once: it does.
///
/// # Errors
///
/// Want of memory alone.
pub fn assign(
    circuit: &mut Circuit,
    owner: &Module,
    marks: &Marks,
    writes: &mut Vec<NetWrite>,
    delayed: bool,
    target: Var,
    e: &Expr,
    start: NetId,
    live: NetId,
) -> Result<NetId, AllocError>
    requires agree { IsTrue (agree (declared_type owner.now target) (expr_type owner.now e.now)) }
    requires start { IsBool circuit.old start }
    requires live { IsBool circuit.old live }
    ensures grows { OnOk result (Grows circuit.old circuit.new) }
    ensures ty { IfOk result (λ id. IsBool circuit.new id) }
    ensures ends { IfOk result (λ id. Means circuit.new id (λ v. Known yes)) }
    ensures writes { OnOk result (Appends circuit.new writes.old.items writes.new.items (λ v. record {
      target = instance_here (context_of marks.now) target;
      delayed = delayed;
      guard = where_inside (known v live) (known v start);
      value = value_here v.leaves.scene (context_of marks.now) e.now;
    } ∷ [])) }
    ensures typed { OnOk result (AreWrites owner.now circuit.old writes.old.items → AreWrites owner.now circuit.new writes.new.items) }
{
    let given = value(circuit, owner, marks, e)?;
    let guard = where_so(circuit, live, start)?;
    writes.push(NetWrite {
        delayed,
        target,
        mark: marks.of_variable(target),
        guard,
        value: given,
    })?;
    let ends = circuit.truth(true)?;
    Ok(ends)
}
