//! Whole programs from tables.

use crate::building::{Part, built};
use qz_expand::expand_one;
use qz_syntax::{Class, Decl, Dir, Formal, Module, Name, Whole};
use qz_values::Ty;
use sqlite_items::Items;
use std::alloc::Global;
use std::test::Fail;

/// The class, type and name of a variable.
pub type Declared = (Class, Ty, &'static str);

/// A module that calls nothing.
#[derive(Clone, Copy)]
pub struct Program {
    pub inputs: &'static [Declared],
    /// Behind the inputs in the list of formals.
    pub outputs: &'static [Declared],
    pub locals: &'static [Declared],
    /// How many places there are, and how many loops.
    pub places: u32,
    pub loops: u32,
    pub body: &'static [Part],
}

fn name(alloc: Global, text: &str) -> Result<Name, Fail> {
    Ok(Name::new(alloc, text)?.ok_or("no name")?)
}

fn add_formals(
    alloc: Global,
    formals: &mut Items<Formal>,
    dir: Dir,
    all: &[Declared],
) -> Result<(), Fail> {
    for (class, ty, text) in all {
        formals.push(Formal {
            class: *class,
            dir,
            ty: *ty,
            name: name(alloc, text)?,
        })?;
    }
    Ok(())
}

fn formals(alloc: Global, program: &Program) -> Result<Items<Formal>, Fail> {
    let mut formals = Items::new(alloc);
    add_formals(alloc, &mut formals, Dir::In, program.inputs)?;
    add_formals(alloc, &mut formals, Dir::Out, program.outputs)?;
    Ok(formals)
}

fn decls(alloc: Global, all: &[Declared]) -> Result<Items<Decl>, Fail> {
    let mut decls = Items::new(alloc);
    for (class, ty, text) in all {
        decls.push(Decl {
            class: *class,
            ty: *ty,
            name: name(alloc, text)?,
        })?;
    }
    Ok(decls)
}

fn labels(alloc: Global, places: u32) -> Result<Items<Option<Name>>, Fail> {
    let mut labels = Items::new(alloc);
    for _ in 0..places {
        labels.push(None)?;
    }
    Ok(labels)
}

/// The module T.
fn module(alloc: Global, program: &Program) -> Result<Module, Fail> {
    let name = name(alloc, "T")?;
    let formals = formals(alloc, program)?;
    let decls = decls(alloc, program.locals)?;
    let labels = labels(alloc, program.places)?;
    let body = built(alloc, program.body)?;
    Ok(Module {
        name,
        formals,
        decls,
        labels,
        loops: program.loops,
        calls: 0,
        body,
    })
}

/// The whole program.
pub fn whole(alloc: Global, program: &Program) -> Result<Whole, Fail> {
    match expand_one(alloc, module(alloc, program)?, "T") {
        Ok(whole) => Ok(whole),
        Err(_) => Err(Fail::from("refused")),
    }
}
