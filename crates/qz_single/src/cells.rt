//! The cells of a program: its outputs and its locals.

ghost use Rattle.std.specs.Prelude.{◌≡◌, ◌++◌, map, length, IfOk, OnOk};
ghost use Rattle.std.specs.List.{range_with_len};
ghost use Rattle.qz_syntax.specs.declared.declarations.Dir.TheVariants as direction;
ghost use Rattle.qz_syntax.specs.declared.expressions.Var.{Var as OfTree};
ghost use Rattle.qz_syntax.specs.declared.expressions.Var.TheVariants as var;
ghost use Rattle.qz_meaning.specs.Programs.{class_in, type_in, delays, formals_of};
ghost use Rattle.qz_react.specs.declared.instances.Instance.{Instance as Named};
ghost use Rattle.qz_closing.specs.ProgramParts.{cell_of, cells_of, variables_of};
ghost use Rattle.qz_single.specs.DelayedTo.{has};

use crate::delayed::Delayed;
use crate::formals::formals_in;
use crate::texts::variable_text;
use qz_react::Instance;
use qz_syntax::{Class, Dir, Module, Text, Var, Whole};
use qz_system::Cell;
use qz_values::Ty;
use sqlite_items::{Items, at};
use std::alloc::{AllocError, Global};

/// The cells of a program: the outputs', and then those of the locals.
pub(crate) fn cells_of(alloc: Global, w: &Whole) -> Result<Items<Cell>, AllocError>
    ensures { IfOk result (λ cells. cells ≡ cells_of w.now) }
{
    let delayed = Delayed::of(alloc, &w.module.body)?;
    let variables = variables_of(alloc, &w.module)?;
    let mut cells = Items::new(alloc);
    for variable in &variables {
        cells.push(cell(alloc, w, &delayed, *variable)?)?;
    }
    Ok(cells)
}

/// A variable's cell.
fn cell(alloc: Global, w: &Whole, delayed: &Delayed, variable: Var) -> Result<Cell, AllocError>
    requires { (x : OfTree) → has delayed.now x ≡ delays x w.now.module.body }
    ensures { IfOk result (λ cell. cell ≡ cell_of w.now variable) }
{
    let text = String::from_str(alloc, variable_text(w, variable))?;
    Ok(Cell {
        class: class_in(&w.module, variable),
        ty: type_in(&w.module, variable),
        marked: delayed.has(variable),
        text: Text::from_string(text),
    })
}

/// The variables that keep something: the outputs, and then the locals.
fn variables_of(alloc: Global, m: &Module) -> Result<Vec<Var>, AllocError>
    ensures { IfOk result (λ variables. variables.items ≡ variables_of m.now) }
{
    let mut variables = outputs_of(alloc, m)?;
    add_locals(&mut variables, m.decls.len())?;
    Ok(variables)
}

#[tactic(auto, using(crate::proofs::Listed::variables_of_outputs))]
fn outputs_of(alloc: Global, m: &Module) -> Result<Vec<Var>, AllocError>
    ensures { IfOk result (λ variables. variables.items ≡ map var.Formal (formals_of direction.Out m.now)) }
{
    let outputs = formals_in(alloc, Dir::Out, m.formals.as_slice())?;
    variables_in(alloc, &outputs)
}

fn variables_in(alloc: Global, instances: &[Instance]) -> Result<Vec<Var>, AllocError>
    ensures { IfOk result (λ variables. variables.items ≡ map (λ (i : Named). i.variable) instances.now) }
{
    instances.iter().map(|one| one.variable).collect(alloc)
}

/// Adds so many locals.
#[tactic(auto, using(crate::proofs::Listed::local_more))]
fn add_locals(variables: &mut Vec<Var>, count: usize) -> Result<(), AllocError>
    ensures { OnOk result (variables.new.items ≡ variables.old.items ++ map var.Local (range_with_len 0 count)) }
{
    for number in 0..count {
        variables.push(local(number)?)?;
    }
    Ok(())
}

fn local(number: usize) -> Result<Var, AllocError>
    ensures { IfOk result (λ x. x ≡ var.Local number) }
{
    match u32::try_from(number) {
        Ok(number) => Ok(Var::Local(number)),
        Err(_) => Err(AllocError),
    }
}

/// The class of a variable, as the module declares it.
fn class_in(m: &Module, variable: Var) -> Class
    ensures { result ≡ class_in m.now variable }
{
    match variable {
        Var::Formal(n) => match at(m.formals.as_slice(), n as usize) {
            Some(formal) => formal.class,
            None => Class::Event,
        },
        Var::Local(n) => match at(m.decls.as_slice(), n as usize) {
            Some(decl) => decl.class,
            None => Class::Event,
        },
        Var::Bound(_) => Class::Event,
    }
}

/// The type of a variable, as the module declares it.
fn type_in(m: &Module, variable: Var) -> Ty
    ensures { result ≡ type_in m.now variable }
{
    match variable {
        Var::Formal(n) => match at(m.formals.as_slice(), n as usize) {
            Some(formal) => formal.ty,
            None => Ty::Bool,
        },
        Var::Local(n) => match at(m.decls.as_slice(), n as usize) {
            Some(decl) => decl.ty,
            None => Ty::Bool,
        },
        Var::Bound(_) => Ty::Bool,
    }
}
