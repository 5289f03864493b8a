//! Assignments that a resume may start.

ghost use Rattle.std.specs.Prelude.{◌∷◌, [], IsTrue, IfOk, OnOk};
ghost use Rattle.qz_values.specs.declared.Know.TheVariants.{Known};
ghost use Rattle.qz_values.specs.Values.{yes, no};
ghost use Rattle.qz_syntax.specs.Typing.{agree};
ghost use Rattle.qz_meaning.specs.Scenes.{instance_here};
ghost use Rattle.qz_meaning.specs.Expressions.{value_here};
ghost use Rattle.qz_control.specs.Circuits.{known, Means, Grows, IsBool};
ghost use Rattle.qz_control.specs.Contexts.{context_of};
ghost use Rattle.qz_control.specs.Guarded.{where_inside};
ghost use Rattle.qz_control.specs.Typed.{declared_type, expr_type};
ghost use Rattle.qz_terms.specs.Told.{AreBools};
ghost use Rattle.qz_surface.specs.Written.{Appends, AreWrites};

use qz_control::{Circuit, Marks};
use qz_nets::NetId;
use qz_surface::{NetWrite, assign};
use qz_syntax::{Expr, Module, Var};
use qz_terms::{Terms, passing};
use std::alloc::AllocError;

/// The write of an assignment is appended, which happens only where it is live; control never rests in it.
pub fn resume_assignment(
    circuit: &mut Circuit,
    owner: &Module,
    marks: &Marks,
    writes: &mut Vec<NetWrite>,
    delayed: bool,
    target: Var,
    e: &Expr,
    start: NetId,
    live: NetId,
) -> Result<Terms, AllocError>
    requires agree { IsTrue (agree (declared_type owner.now target) (expr_type owner.now e.now)) }
    requires start { IsBool circuit.old start }
    requires live { IsBool circuit.old live }
    ensures grows { OnOk result (Grows circuit.old circuit.new) }
    ensures ty { IfOk result (λ terms. AreBools circuit.new terms) }
    ensures inside { IfOk result (λ terms. Means circuit.new terms.inside (λ v. Known no)) }
    ensures ended { IfOk result (λ terms. Means circuit.new terms.ended (λ v. Known no)) }
    ensures ends { IfOk result (λ terms. Means circuit.new terms.ends (λ v. Known yes)) }
    ensures writes { OnOk result (Appends circuit.new writes.old.items writes.new.items (λ v. record {
      target = instance_here (context_of marks.now) target;
      delayed = delayed;
      guard = where_inside (known v live) (known v start);
      value = value_here v.leaves.scene (context_of marks.now) e.now;
    } ∷ [])) }
    ensures typed { OnOk result (AreWrites owner.now circuit.old writes.old.items → AreWrites owner.now circuit.new writes.new.items) }
{
    assign(
        circuit, owner, marks, writes, delayed, target, e, start, live,
    )?;
    let terms = passing(circuit)?;
    Ok(terms)
}
