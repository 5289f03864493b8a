//! A file after typing, or its first fault.

ghost use Rattle.std.specs.Prelude.{◌≡◌, [], true, IfOk, IfErr, OnOk};
ghost use Rattle.qz_syntax.specs.WellFormed.{IsTyped};
ghost use Rattle.qz_types.specs.declared.typed.TypeRefusal.TheVariants.{Memory};
ghost use Rattle.qz_types.specs.CoreModules.{core_of, core_body, module_with, root_names};
ghost use Rattle.qz_types.specs.CoreStatements.{made};
ghost use Rattle.qz_types.specs.FileFaults.{faults_of, body_of, callees_of};
ghost use Rattle.qz_types.specs.Levels.{IsBounded};
ghost use Rattle.qz_types.specs.Orderly.{IsOrderly};
ghost use Rattle.qz_types.specs.Refusals.{IsRefused};
ghost use Rattle.qz_types.specs.Scopes.{meanings_of};
ghost use Rattle.qz_types.specs.ShortLists.{has_short_lists};

use crate::core_declarations::{core_formals, core_protos, root_names};
use crate::core_statements::block;
use crate::declarations::protos as proto_numbers;
use crate::faults::{FirstFault, TypeKind};
use crate::file_faults::first_fault;
use crate::numbers::Numbers;
use crate::short_lists::lists_are_short;
use crate::statements::Callees;
use qz_syntax::{File, Formal, Module, Name, Stmt, Typed};
use sqlite_items::Items;
use std::alloc::{AllocError, Global};
use thiserror::Error;

/// Why a file isn't typed.
#[derive(Debug, Drop, Clone, Copy, PartialEq, Eq, Error)]
pub enum TypeRefusal {
    /// The file has this fault, and none comes before it.
    #[error("a fault of types at byte {offset}")]
    At { offset: u32, kind: TypeKind },
    /// Memory ran out.
    #[error("out of memory")]
    Memory,
}

impl From<AllocError> for TypeRefusal {
    ghost from_gives = { λ _ e. e ≡ Memory };

    fn from(_error: AllocError) -> TypeRefusal {
        TypeRefusal::Memory
    }
}

/// The prototypes of a file, and its module with the core tree of its body, exactly where nothing is said
/// against the file. Otherwise the fault with the least offset, at one offset the first in the order of the
/// kinds. For a list of more members than there are numbers there is no memory; no text has one.
pub fn check(alloc: Global, f: &File) -> Result<Typed, TypeRefusal>
    ensures typed { IfOk result (λ typed. typed ≡ core_of f.now) }
    ensures accepted { OnOk result (faults_of f.now ≡ []) }
    ensures refused { IfErr result (λ refusal. IsRefused f.now refusal) }
    ensures orderly { IfOk result (λ typed. IsOrderly typed) }
    ensures well_typed { IfOk result (λ typed. IsBounded f.now → IsTyped typed) }
{
    match first_fault(alloc, f)? {
        Some(fault) => Err(TypeRefusal::At {
            offset: fault.offset,
            kind: fault.kind,
        }),
        None => {
            let typed = typed(alloc, f)?;
            Ok(typed)
        }
    }
}

/// The prototypes of a file, and its module. For a list of more members than there are numbers there is no
/// memory.
fn typed(alloc: Global, f: &File) -> Result<Typed, AllocError>
    ensures core { IfOk result (λ typed. typed ≡ core_of f.now) }
    ensures short { OnOk result (has_short_lists (body_of f.now) ≡ true) }
{
    if !lists_are_short(&f.body) {
        return Err(AllocError);
    }
    let module = module(alloc, f)?;
    let protos = core_protos(alloc, f.protos.as_slice())?;
    Ok(Typed { protos, module })
}

/// The module of a file.
fn module(alloc: Global, f: &File) -> Result<Module, AllocError>
    ensures { IfOk result (λ m. m ≡ module_with f.now (core_body f.now)) }
{
    let formals = core_formals(alloc, f.module.formals.as_slice())?;
    let name = f.module.name.name.clone()?;
    let mut numbers = Numbers::new(alloc);
    let body = body(alloc, f, &mut numbers)?;
    Ok(module_with(name, formals, numbers, body))
}

/// A module of which this is the body, in which so much was numbered.
fn module_with(name: Name, formals: Items<Formal>, numbers: Numbers, body: Stmt) -> Module
    ensures { result ≡ record {
      name = name;
      formals = formals;
      decls = numbers.decls;
      labels = numbers.labels;
      loops = numbers.loops;
      calls = numbers.calls;
      body = body;
    } }
{
    let Numbers {
        labels,
        decls,
        loops,
        calls,
    } = numbers;
    Module {
        name,
        formals,
        decls,
        labels,
        loops,
        calls,
        body,
    }
}

/// The core tree of a file's body.
fn body(alloc: Global, f: &File, numbers: &mut Numbers) -> Result<Stmt, AllocError>
    ensures tree { IfOk result (λ tree. tree ≡ (made f.now.protos (callees_of f.now.protos) (body_of f.now)
        (root_names f.now.«module».formals) numbers.old).tree) }
    ensures next { OnOk result (numbers.new ≡ (made f.now.protos (callees_of f.now.protos) (body_of f.now)
        (root_names f.now.«module».formals) numbers.old).next) }
{
    let callees = callees(alloc, f)?;
    let mut names = root_names(alloc, f.module.formals.as_slice())?;
    block(alloc, &callees, &mut names, numbers, &f.body)
}

/// The prototypes of a file, and the numbers that their names stand for.
fn callees(alloc: Global, f: &File) -> Result<Callees<'_>, AllocError>
    ensures protos { IfOk result (λ callees. callees.protos.now ≡ f.now.protos) }
    ensures numbers { IfOk result (λ callees. meanings_of callees.numbers ≡ callees_of f.now.protos) }
{
    let mut unsaid = FirstFault::new();
    let protos = f.protos.as_slice();
    let numbers = proto_numbers(alloc, protos, &mut unsaid)?;
    Ok(Callees { protos, numbers })
}
