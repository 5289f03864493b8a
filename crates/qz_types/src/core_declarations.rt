//! What a module declares, as it is in the core tree.

ghost use Rattle.std.specs.Prelude.{◌≡◌, ◌∷◌, [], map, Some, IfOk, OnOk};
ghost use Rattle.qz_types.specs.Meanings.{before};
ghost use Rattle.qz_types.specs.Scopes.{meanings_of};
ghost use Rattle.qz_types.specs.CoreDeclarations.{core_formal, core_proto, core_local, core_decl, core_decls, local_names};
ghost use Rattle.qz_types.specs.CoreModules.{root_names};
ghost use Rattle.qz_types.specs.DeclaredLocals.{DeclaresLocals};

use crate::core_expressions::core_type;
use crate::numbers::{Numbers, number};
use crate::scope::{Scope, Was};
use qz_syntax::{Decl, FileDecl, FileFormal, FileProto, Formal, NameAt, Proto, Var};
use sqlite_items::Items;
use std::alloc::{AllocError, Global};

/// The locals of a scope, and what their names stood for before.
#[derive(Drop)]
pub(crate) struct Locals {
    pub numbers: Items<u32>,
    pub hidden: Items<Was<Var>>,
}

/// The formals of a module.
pub(crate) fn core_formals(
    alloc: Global,
    formals: &[FileFormal],
) -> Result<Items<Formal>, AllocError>
    ensures { IfOk result (λ core. core ≡ map core_formal formals.now) }
{
    let mut core = Items::new(alloc);
    for formal in formals {
        core.push(core_formal(formal)?)?;
    }
    Ok(core)
}

fn core_formal(formal: &FileFormal) -> Result<Formal, AllocError>
    ensures { IfOk result (λ core. core ≡ core_formal formal.now) }
{
    Ok(Formal {
        class: formal.class,
        dir: formal.dir,
        ty: core_type(formal.ty),
        name: formal.name.name.clone()?,
    })
}

/// The prototypes of a file.
pub(crate) fn core_protos(alloc: Global, protos: &[FileProto]) -> Result<Items<Proto>, AllocError>
    ensures { IfOk result (λ core. core ≡ map core_proto protos.now) }
{
    let mut core = Items::new(alloc);
    for proto in protos {
        core.push(core_proto(alloc, proto)?)?;
    }
    Ok(core)
}

fn core_proto(alloc: Global, proto: &FileProto) -> Result<Proto, AllocError>
    ensures { IfOk result (λ core. core ≡ core_proto proto.now) }
{
    let formals = core_formals(alloc, proto.formals.as_slice())?;
    Ok(Proto {
        name: proto.name.name.clone()?,
        formals,
    })
}

/// What names stand for at the root of a body.
pub(crate) fn root_names(alloc: Global, formals: &[FileFormal]) -> Result<Scope<Var>, AllocError>
    ensures { IfOk result (λ names. meanings_of names ≡ root_names formals.now) }
{
    let mut names = Scope::new(alloc);
    for (place, formal) in formals.iter().enumerate() {
        let number = number(place)?;
        names.set(&formal.name.name, Some(Var::Formal(number)))?;
    }
    Ok(names)
}

/// Lets the names of some declarations stand for their locals, which are numbered.
pub(crate) fn declare(
    alloc: Global,
    decls: &[FileDecl],
    names: &mut Scope<Var>,
    numbers: &mut Numbers,
) -> Result<Locals, AllocError>
    ensures { IfOk result (λ locals. DeclaresLocals (local_names decls.now) (core_decls decls.now)
        (meanings_of names.old) (meanings_of names.new) numbers.old numbers.new (record { numbers = []; hidden = [] }) locals) }
{
    let mut locals = Locals {
        numbers: Items::new(alloc),
        hidden: Items::new(alloc),
    };
    for decl in decls {
        declare_names(decl, names, numbers, &mut locals)?;
    }
    Ok(locals)
}

fn declare_names(
    decl: &FileDecl,
    names: &mut Scope<Var>,
    numbers: &mut Numbers,
    locals: &mut Locals,
) -> Result<(), AllocError>
    ensures { OnOk result (DeclaresLocals decl.now.names (core_decl decl.now)
        (meanings_of names.old) (meanings_of names.new) numbers.old numbers.new locals.old locals.new) }
{
    for name in decl.names.as_slice() {
        declare_name(decl, name, names, numbers, locals)?;
    }
    Ok(())
}

fn declare_name(
    decl: &FileDecl,
    name: &NameAt,
    names: &mut Scope<Var>,
    numbers: &mut Numbers,
    locals: &mut Locals,
) -> Result<(), AllocError>
    ensures { OnOk result (DeclaresLocals (name.now ∷ []) (core_local decl.now name.now ∷ [])
        (meanings_of names.old) (meanings_of names.new) numbers.old numbers.new locals.old locals.new) }
{
    let local = core_local(decl, name)?;
    let number = numbers.local(local)?;
    let meaning = names.set(&name.name, Some(Var::Local(number)))?;
    locals.numbers.push(number)?;
    locals.hidden.push(Was {
        name: name.name.clone()?,
        meaning,
    })?;
    Ok(())
}

fn core_local(decl: &FileDecl, name: &NameAt) -> Result<Decl, AllocError>
    ensures { IfOk result (λ core. core ≡ core_local decl.now name.now) }
{
    Ok(Decl {
        class: decl.class,
        ty: core_type(decl.ty),
        name: name.name.clone()?,
    })
}
