//! The values of expressions as nets.

ghost use Rattle.std.specs.Prelude.{◌≡◌, Some, IsSome, IfOk, OnOk};
ghost use Rattle.qz_syntax.specs.declared.expressions.Var.TheVariants as var;
ghost use Rattle.qz_meaning.specs.Expressions.{known_here, value_here};
ghost use Rattle.qz_nets.specs.Readings.{type_in};
ghost use Rattle.qz_control.specs.Circuits.{Means, Grows};
ghost use Rattle.qz_control.specs.Contexts.{context_of};
ghost use Rattle.qz_control.specs.Typed.{declared_type, expr_type};

use crate::circuit::Circuit;
use crate::leaves::LeafKind;
use crate::marks::Marks;
use qz_nets::NetId;
use qz_syntax::{Expr, Module, Var};
use qz_values::Ty;
use std::alloc::AllocError;

/// The value of an expression here. The expression has a type over the module's variables.
pub fn value(
    circuit: &mut Circuit,
    owner: &Module,
    marks: &Marks,
    e: &Expr,
) -> Result<NetId, AllocError>
    requires { IsSome (expr_type owner.now e.now) }
    ensures grows { OnOk result (Grows circuit.old circuit.new) }
    ensures ty { IfOk result (λ id. type_in circuit.new.table id.0 ≡ expr_type owner.now e.now) }
    ensures means { IfOk result (λ id. Means circuit.new id (λ v. value_here v.leaves.scene (context_of marks.now) e.now)) }
{
    match e {
        Expr::Lit(value) => circuit.constant(*value),
        Expr::Var(variable) => value_of_variable(circuit, owner, marks, *variable),
        Expr::Un(op, a) => {
            let a = value(circuit, owner, marks, a.get())?;
            circuit.unary(*op, a)
        }
        Expr::Bin(op, a, b) => {
            let a = value(circuit, owner, marks, a.get())?;
            let b = value(circuit, owner, marks, b.get())?;
            circuit.binary(*op, a, b)
        }
        Expr::Choose(c, a, b) => {
            let c = value(circuit, owner, marks, c.get())?;
            let a = value(circuit, owner, marks, a.get())?;
            let b = value(circuit, owner, marks, b.get())?;
            circuit.chosen(c, a, b)
        }
        Expr::Bit(a, index) => {
            let a = value(circuit, owner, marks, a.get())?;
            circuit.bit(a, *index)
        }
        Expr::Slice(a, high, low) => {
            let a = value(circuit, owner, marks, a.get())?;
            circuit.slice(a, *high, *low)
        }
        Expr::Concat(a, b) => {
            let a = value(circuit, owner, marks, a.get())?;
            let b = value(circuit, owner, marks, b.get())?;
            circuit.concat(a, b)
        }
    }
}

/// The value of the instance that a variable has here.
fn value_of_variable(
    circuit: &mut Circuit,
    owner: &Module,
    marks: &Marks,
    variable: Var,
) -> Result<NetId, AllocError>
    requires { IsSome (declared_type owner.now variable) }
    ensures grows { OnOk result (Grows circuit.old circuit.new) }
    ensures ty { IfOk result (λ id. type_in circuit.new.table id.0 ≡ declared_type owner.now variable) }
    ensures means { IfOk result (λ id. Means circuit.new id (λ v. known_here v.leaves.scene (context_of marks.now) variable)) }
{
    match variable {
        Var::Formal(n) => {
            let ty = type_of_formal(owner, n);
            circuit.leaf(LeafKind::Formal(n), ty)
        }
        Var::Local(n) => {
            let ty = type_of_local(owner, n);
            circuit.leaf(LeafKind::Local(n, marks.of_local(n)), ty)
        }
        Var::Bound(_) => circuit.truth(false),
    }
}

/// The type that a formal is declared with.
fn type_of_formal(owner: &Module, n: u32) -> Ty
    requires { IsSome (declared_type owner.now (var.Formal n)) }
    ensures { declared_type owner.now (var.Formal n) ≡ Some result }
{
    owner.formals.as_slice()[n as usize].ty
}

/// The type that a local is declared with.
fn type_of_local(owner: &Module, n: u32) -> Ty
    requires { IsSome (declared_type owner.now (var.Local n)) }
    ensures { declared_type owner.now (var.Local n) ≡ Some result }
{
    owner.decls.as_slice()[n as usize].ty
}
