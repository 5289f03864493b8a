//! The names that a file declares, and what is said against their declarations.

ghost use Rattle.std.specs.Prelude.{◌≡◌, [], Some, IfOk, OnOk};
ghost use Rattle.std.specs.List.{flat_map};
ghost use Rattle.qz_types.specs.Faults.{first_with};
ghost use Rattle.qz_types.specs.Meanings.{no_meanings, before};
ghost use Rattle.qz_types.specs.Scopes.{meanings_of};
ghost use Rattle.qz_types.specs.WrittenTypes.{type_faults};
ghost use Rattle.qz_types.specs.Declarations.{declared, double_names, formal_variable, formal_variables, formal_faults, decl_variables, local_variable, local_variables, proto_numbers, too_many};

use crate::expressions::{type_of_text, vectors};
use crate::faults::{FirstFault, TypeKind};
use crate::scope::{Scope, Was};
use crate::variables::Variable;
use qz_syntax::{Dir, FileDecl, FileFormal, FileProto, TypeText};
use sqlite_items::{Items, at};
use std::alloc::{AllocError, Global};

/// The most formals of a list.
const MAX_FORMALS: usize = 256;

/// What the formals of a list stand for, with what is said against the list.
pub(crate) fn formals(
    alloc: Global,
    formals: &[FileFormal],
    first: &mut FirstFault,
) -> Result<Scope<Variable>, AllocError>
    ensures scope { IfOk result (λ scope. meanings_of scope ≡ declared (formal_variables formals.now) no_meanings) }
    ensures faults { OnOk result (first.new.fault ≡ first_with first.old.fault (formal_faults formals.now)) }
{
    formal_widths(formals, first);
    let scope = formal_names(alloc, formals, first)?;
    formal_count(formals, first);
    Ok(scope)
}

fn formal_widths(formals: &[FileFormal], first: &mut FirstFault)
    ensures { first.new.fault ≡ first_with first.old.fault (flat_map (λ formal. type_faults formal.ty) formals.now) }
{
    for formal in formals {
        written_type(formal.ty, first);
    }
}

/// Looks at the width of a type.
fn written_type(text: TypeText, first: &mut FirstFault)
    ensures { first.new.fault ≡ first_with first.old.fault (type_faults text) }
{
    match text {
        TypeText::Bool => {}
        TypeText::Bv { width, at } => {
            first.check(vectors(width).is_some(), TypeKind::WidthRange, at);
        }
    }
}

fn formal_names(
    alloc: Global,
    formals: &[FileFormal],
    first: &mut FirstFault,
) -> Result<Scope<Variable>, AllocError>
    ensures scope { IfOk result (λ scope. meanings_of scope ≡ declared (formal_variables formals.now) no_meanings) }
    ensures faults { OnOk result (first.new.fault
        ≡ first_with first.old.fault (double_names (formal_variables formals.now) no_meanings)) }
{
    let mut scope = Scope::new(alloc);
    for formal in formals {
        scope.declare(&formal.name, variable(formal), first)?;
    }
    Ok(scope)
}

/// What a formal's name stands for.
pub(crate) fn variable(formal: &FileFormal) -> Variable
    ensures { result ≡ (formal_variable formal.now).meaning }
{
    Variable {
        class: formal.class,
        dir: formal.dir,
        ty: type_of_text(formal.ty),
    }
}

fn formal_count(formals: &[FileFormal], first: &mut FirstFault)
    ensures { first.new.fault ≡ first_with first.old.fault (too_many formals.now) }
{
    match at(formals, MAX_FORMALS) {
        Some(formal) => first.note(TypeKind::TooMany, formal.name.at),
        None => {}
    }
}

/// The numbers of prototypes by their names.
pub(crate) fn protos(
    alloc: Global,
    protos: &[FileProto],
    first: &mut FirstFault,
) -> Result<Scope<usize>, AllocError>
    ensures scope { IfOk result (λ scope. meanings_of scope ≡ declared (proto_numbers 0 protos.now) no_meanings) }
    ensures faults { OnOk result (first.new.fault
        ≡ first_with first.old.fault (double_names (proto_numbers 0 protos.now) no_meanings)) }
{
    let mut scope = Scope::new(alloc);
    for (number, proto) in protos.iter().enumerate() {
        scope.declare(&proto.name, number, first)?;
    }
    Ok(scope)
}

/// Looks at the widths of the types of some declarations.
pub(crate) fn local_widths(decls: &[FileDecl], first: &mut FirstFault)
    ensures { first.new.fault ≡ first_with first.old.fault (flat_map (λ decl. type_faults decl.ty) decls.now) }
{
    for decl in decls {
        written_type(decl.ty, first);
    }
}

/// Lets the names of some declarations stand for their locals, and gives what they stood for.
pub(crate) fn declare_locals(
    alloc: Global,
    decls: &[FileDecl],
    scope: &mut Scope<Variable>,
    first: &mut FirstFault,
) -> Result<Items<Was<Variable>>, AllocError>
    ensures scope { OnOk result (meanings_of scope.new ≡ declared (local_variables decls.now) (meanings_of scope.old)) }
    ensures undone { IfOk result (λ hidden. before hidden (meanings_of scope.new) ≡ meanings_of scope.old) }
    ensures faults { OnOk result (first.new.fault
        ≡ first_with first.old.fault (double_names (local_variables decls.now) (meanings_of scope.old))) }
{
    let mut hidden = Items::new(alloc);
    for decl in decls {
        declare_names(decl, scope, &mut hidden, first)?;
    }
    Ok(hidden)
}

fn declare_names(
    decl: &FileDecl,
    scope: &mut Scope<Variable>,
    hidden: &mut Items<Was<Variable>>,
    first: &mut FirstFault,
) -> Result<(), AllocError>
    ensures scope { OnOk result (meanings_of scope.new ≡ declared (decl_variables decl.now) (meanings_of scope.old)) }
    ensures undone { OnOk result (before hidden.new (meanings_of scope.new) ≡ before hidden.old (meanings_of scope.old)) }
    ensures faults { OnOk result (first.new.fault
        ≡ first_with first.old.fault (double_names (decl_variables decl.now) (meanings_of scope.old))) }
{
    let variable = local(decl);
    for name in decl.names.as_slice() {
        let meaning = scope.declare(name, variable, first)?;
        hidden.push(Was {
            name: name.name.clone()?,
            meaning,
        })?;
    }
    Ok(())
}

/// What the names of a declaration stand for.
fn local(decl: &FileDecl) -> Variable
    ensures { result ≡ local_variable decl.now }
{
    Variable {
        class: decl.class,
        dir: Dir::Out,
        ty: type_of_text(decl.ty),
    }
}
