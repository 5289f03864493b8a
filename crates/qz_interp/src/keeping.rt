//! What the outputs give and keep after a step.

ghost use Rattle.std.specs.Prelude.{◌≡◌, ◌++◌, ◌∷◌, [], map, take, length, IfOk, OnOk, slice_index_or, if◌then◌else◌};
ghost use Rattle.std.specs.List.{range_with_len};
ghost use Rattle.qz_values.specs.declared.Know.TheVariants.{Unknown};
ghost use Rattle.qz_syntax.specs.declared.declarations.Dir.TheVariants as direction;
ghost use Rattle.qz_syntax.specs.declared.places.Later.TheVariants as later;
ghost use Rattle.qz_meaning.specs.Scenes.{default_store};
ghost use Rattle.qz_meaning.specs.Programs.{is_same_direction};
ghost use Rattle.qz_interp.specs.Slots.{new_by};
ghost use Rattle.qz_interp.specs.Keeping.{output_types, value_of_known, unmarked_by, kept_by, kept_at, outputs_kept};

use crate::knowing::{delayed_at, known_at};
use crate::slots::{Slot, new_store, slot_at};
use qz_react::Env;
use qz_syntax::{Class, Dir, Formal, Later, Store};
use qz_values::{Know, Ty, Value};
use std::alloc::{AllocError, Global};

/// What the outputs keep before the first step: their defaults, without mark.
#[tactic(auto, using(crate::proofs::KeepingLemmas::store_more))]
pub(crate) fn first_stores(alloc: Global, formals: &[Formal]) -> Result<Vec<Store>, AllocError>
    ensures { IfOk result (λ stores. stores.items ≡ map default_store (output_types formals.now)) }
{
    let mut stores = Vec::new(alloc);
    for formal in formals {
        add_store(&mut stores, formal.dir, formal.ty)?;
    }
    Ok(stores)
}

/// Adds the store of a formal if it is an output.
fn add_store(stores: &mut Vec<Store>, side: Dir, ty: Ty) -> Result<(), AllocError>
    ensures { OnOk result (stores.new.items ≡ stores.old.items
        ++ map default_store (if is_same_direction side direction.Out then ty ∷ [] else [])) }
{
    match side {
        Dir::In => Ok(()),
        Dir::Out => {
            stores.push(default_store(ty)?)?;
            Ok(())
        }
    }
}

fn default_store(ty: Ty) -> Result<Store, AllocError>
    ensures { IfOk result (λ store. store ≡ default_store ty) }
{
    match Value::new(ty, 0) {
        Some(default) => Ok(new_store(default)),
        None => Err(AllocError),
    }
}

/// What so many outputs keep after a step with these values.
#[tactic(auto, using(crate::proofs::KeepingLemmas::one_more))]
pub(crate) fn keep_outputs(
    slots: &[Slot],
    env: &Env,
    count: usize,
    stores: &mut Vec<Store>,
) -> Result<(), AllocError>
    ensures { OnOk result (stores.new.items ≡ outputs_kept slots.now env.entry.now.now.items env.entry.now.later.items count) }
{
    stores.clear();
    for number in 0..count {
        stores.push(kept_at(slots, env, number))?;
    }
    Ok(())
}

/// What the instance with this number keeps.
fn kept_at(slots: &[Slot], env: &Env, number: usize) -> Store
    ensures { result ≡ kept_at slots.now env.entry.now.now.items env.entry.now.later.items number }
{
    let slot = slot_at(slots, number);
    kept(
        slot.class,
        slot.default,
        known_at(&env.now, number),
        delayed_at(&env.later, number),
    )
}

/// What is kept for a variable after a step: the value delayed to the next one, with a mark, or
/// without one what the step left.
fn kept(class: Class, default: Value, now: Know, later: Later) -> Store
    ensures { result ≡ kept_by class default now later }
{
    match later {
        Later::Known(value) => Store {
            value,
            pending: true,
        },
        Later::Unknown | Later::Absent | Later::Clash => unmarked(class, default, now),
    }
}

/// What is kept without a mark.
fn unmarked(class: Class, default: Value, now: Know) -> Store
    ensures { result ≡ unmarked_by class default now }
{
    match class {
        Class::Event => new_store(default),
        Class::Mem => match now {
            Know::Known(value) => Store {
                value,
                pending: false,
            },
            Know::Unknown | Know::Clash => new_store(default),
        },
    }
}

/// Gives the outputs their values: those of the first instances.
pub(crate) fn give_outputs(known: &[Know], outputs: &mut [Value])
    ensures { length outputs.old ≡ length known.now → outputs.new ≡ map value_of_known known.now }
{
    for (number, know) in known.iter().enumerate() {
        if number < outputs.len() {
            outputs[number] = value_of_known(*know);
        }
    }
}

fn value_of_known(known: Know) -> Value
    ensures { result ≡ value_of_known known }
{
    match known {
        Know::Known(value) => value,
        Know::Unknown | Know::Clash => Value::truth(false),
    }
}

/// What is known of the first instances.
pub(crate) fn first_known(known: &[Know], count: usize) -> &[Know]
    ensures { result.now ≡ take count known.now }
{
    if count <= known.len() {
        &known[..count]
    } else {
        known
    }
}
