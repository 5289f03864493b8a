//! Where control rests after a step, put together from the inside out.

ghost use Rattle.std.specs.Prelude.{◌≡◌, ◌+◌, IfOk, is_some};
ghost use Rattle.std.specs.List.{list_any};
ghost use Rattle.std.specs.Option.{option_map};
ghost use Rattle.qz_syntax.specs.declared.places.Residual.TheVariants.{Hold, InBody, InIf, InScope, InSeq};
ghost use Rattle.qz_meaning.specs.Instances.{local_instance};
ghost use Rattle.qz_meaning.specs.Scenes.{Passing, store_of, store_from, unmarked_store, default_store};
ghost use Rattle.qz_meaning.specs.Residing.{in_some_branch, stores_from};
ghost use Rattle.qz_react.specs.Landing.{Passes};

use crate::expressions::{View, known_instance, later_instance};
use qz_syntax::{Class, Decl, Later, Mark, Module, Residual, Store, Var};
use qz_values::{Know, Ty, Value};
use sqlite_items::{Boxed, Items, at};
use std::alloc::{AllocError, Global};

/// What next places go by.
#[derive(Clone, Copy)]
pub struct Land<'a> {
    pub alloc: Global,
    pub module: &'a Module,
    pub view: View<'a>,
}

/// Whether a statement ends, and where control rests in it after the step.
#[derive(Debug, Drop)]
pub struct Rested {
    pub ends: Know,
    pub place: Option<Residual>,
}

/// What becomes of what is inside.
#[derive(Clone, Copy, Debug, PartialEq, Eq)]
pub enum Way {
    /// It goes on.
    Goes,
    /// It is suspended, and stays as it is.
    Stays,
}

/// Inside the body of a loop, an abort or a suspend.
pub fn in_body(land: &Land, inside: Option<Residual>) -> Result<Option<Residual>, AllocError>
    ensures { IfOk result (λ place. place ≡ option_map (λ r. InBody r) inside) }
{
    match inside {
        Some(r) => {
            let boxed = Boxed::new(land.alloc, r)?;
            Ok(Some(Residual::InBody(boxed)))
        }
        None => Ok(None),
    }
}

/// Inside one side of an `if`.
pub fn in_side(
    land: &Land,
    side: bool,
    inside: Option<Residual>,
) -> Result<Option<Residual>, AllocError>
    ensures { IfOk result (λ place. place ≡ option_map (λ r. InIf side r) inside) }
{
    match inside {
        Some(r) => {
            let boxed = Boxed::new(land.alloc, r)?;
            Ok(Some(Residual::InIf(side, boxed)))
        }
        None => Ok(None),
    }
}

/// Inside a member of a sequence.
pub fn in_member(
    land: &Land,
    number: u32,
    inside: Option<Residual>,
) -> Result<Option<Residual>, AllocError>
    ensures { IfOk result (λ place. place ≡ option_map (λ r. InSeq number r) inside) }
{
    match inside {
        Some(r) => {
            let boxed = Boxed::new(land.alloc, r)?;
            Ok(Some(Residual::InSeq(number, boxed)))
        }
        None => Ok(None),
    }
}

/// The number after this one.
pub fn next_number(number: u32) -> Result<u32, AllocError>
    ensures { IfOk result (λ n. n ≡ number + 1) }
{
    match number.checked_add(1) {
        Some(next) => Ok(next),
        None => Err(AllocError),
    }
}

/// Inside a parallel, where control rests in some member.
pub fn in_members(branches: Items<Option<Residual>>) -> Option<Residual>
    ensures { result ≡ in_some_branch branches }
{
    if is_somewhere(branches.as_slice()) {
        Some(Residual::InPar(branches))
    } else {
        None
    }
}

/// Whether control rests in some member.
fn is_somewhere(branches: &[Option<Residual>]) -> bool
    ensures { result ≡ list_any (λ branch. is_some branch) branches.now }
{
    branches.iter().any(|branch| branch.is_some())
}

/// At a hold place, if there is one.
pub fn at_hold(hold: Option<u32>) -> Option<Residual>
    ensures { result ≡ option_map (λ place. Hold place) hold }
{
    match hold {
        Some(place) => Some(Residual::Hold(place)),
        None => None,
    }
}

/// Inside a scope, with the stores that come from its locals' instances with this mark.
pub fn in_scope(
    land: &Land,
    locals: &[u32],
    m: Mark,
    inside: Option<Residual>,
) -> Result<Option<Residual>, AllocError>
    ensures { IfOk result (λ place. (step : Passing) → Passes land.now.module.now land.now.view.table.now land.now.view.env.now step
        → place ≡ option_map (λ r. InScope (stores_from step locals.now m) r) inside) }
{
    match inside {
        Some(r) => {
            let boxed = Boxed::new(land.alloc, r)?;
            let stores = stores(land, locals, m)?;
            Ok(Some(Residual::InScope(stores, boxed)))
        }
        None => Ok(None),
    }
}

/// The stores that come from the locals' instances with this mark.
fn stores(land: &Land, locals: &[u32], m: Mark) -> Result<Items<Store>, AllocError>
    ensures { IfOk result (λ made. (step : Passing) → Passes land.now.module.now land.now.view.table.now land.now.view.env.now step
        → made ≡ stores_from step locals.now m) }
{
    let mut made = Vec::new(land.alloc);
    for local in locals {
        let store = store(land, *local, m)?;
        made.push(store)?;
    }
    Ok(Items::from_vec(made))
}

/// The store that comes from an instance of a local.
fn store(land: &Land, local: u32, m: Mark) -> Result<Store, AllocError>
    ensures { IfOk result (λ one. (step : Passing) → Passes land.now.module.now land.now.view.table.now land.now.view.env.now step
        → one ≡ store_from step (local_instance local m)) }
{
    match at(land.module.decls.as_slice(), local as usize) {
        Some(decl) => store_by(land, decl, local, m),
        None => Err(AllocError),
    }
}

/// The same, of a local that is declared so.
fn store_by(land: &Land, decl: &Decl, local: u32, m: Mark) -> Result<Store, AllocError>
    ensures { IfOk result (λ one. (step : Passing) → Passes land.now.module.now land.now.view.table.now land.now.view.env.now step
        → one ≡ store_of decl.now.class decl.now.ty (step.now (local_instance local m)) (step.later (local_instance local m))) }
{
    let now = known_instance(&land.view, Var::Local(local), m)?;
    let later = later_instance(&land.view, Var::Local(local), m)?;
    store_of(decl.class, decl.ty, now, later)
}

/// What is kept for a variable after a step: the value delayed to the next one, with a mark, or
/// without one what the step left.
///
/// # Errors
///
/// Want of memory, though none is taken, where there is no such type.
pub fn store_of(class: Class, ty: Ty, now: Know, later: Later) -> Result<Store, AllocError>
    ensures { IfOk result (λ store. store ≡ store_of class ty now later) }
{
    match later {
        Later::Known(value) => Ok(Store {
            value,
            pending: true,
        }),
        Later::Unknown | Later::Absent | Later::Clash => unmarked(class, ty, now),
    }
}

/// What is kept without a mark.
fn unmarked(class: Class, ty: Ty, now: Know) -> Result<Store, AllocError>
    ensures { IfOk result (λ store. store ≡ unmarked_store class ty now) }
{
    match class {
        Class::Event => new_store(ty),
        Class::Mem => match now {
            Know::Known(value) => Ok(Store {
                value,
                pending: false,
            }),
            Know::Unknown | Know::Clash => new_store(ty),
        },
    }
}

/// The default of a type, without a mark.
fn new_store(ty: Ty) -> Result<Store, AllocError>
    ensures { IfOk result (λ store. store ≡ default_store ty) }
{
    match Value::new(ty, 0) {
        Some(value) => Ok(Store {
            value,
            pending: false,
        }),
        None => Err(AllocError),
    }
}
