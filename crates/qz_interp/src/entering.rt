//! How a step comes to the instances: the outputs first, and then those that its walk comes past.

ghost use Rattle.std.specs.Prelude.{◌≡◌, ◌++◌, ◌∷◌, [], map, Some, IfOk, OnOk, length, slice_index_or};
ghost use Rattle.qz_values.specs.Values.{default_of};
ghost use Rattle.qz_interp.specs.declared.slots.Entry.TheVariants.{Unmet};
ghost use Rattle.qz_syntax.specs.declared.declarations.Dir.TheVariants as direction;
ghost use Rattle.qz_meaning.specs.Programs.{program_of, instances_of, formals_of};
ghost use Rattle.qz_meaning.specs.Settling.{step_met};
ghost use Rattle.qz_react.specs.Reacting.{IsWalkerOf};
ghost use Rattle.qz_react.specs.Seeing.{instance_of, met_by};
ghost use Rattle.qz_interp.specs.RoundTables.{entry_with};
ghost use Rattle.qz_interp.specs.Entering.{blank_slot, no_slot, first_entry, with_entry, with_met, entered, outputs_met};

use crate::slots::{Entry, Slot, slot_at};
use qz_react::{Instance, Met, Walker, meet};
use qz_syntax::{Class, Module, Place, Store, Var, Whole};
use qz_values::{Ty, Value};
use sqlite_items::at;
use std::alloc::{AllocError, Global};

/// A slot for each instance, to which no step has come.
pub(crate) fn blank_slots(
    alloc: Global,
    m: &Module,
    instances: &[Instance],
) -> Result<Vec<Slot>, AllocError>
    ensures { IfOk result (λ slots. slots.items ≡ map (λ i. blank_slot m.now (instance_of i)) instances.now) }
{
    let mut slots = Vec::new(alloc);
    for instance in instances {
        slots.push(blank_slot(m, *instance)?)?;
    }
    Ok(slots)
}

fn blank_slot(m: &Module, instance: Instance) -> Result<Slot, AllocError>
    ensures { IfOk result (λ slot. slot ≡ blank_slot m.now (instance_of instance)) }
{
    match instance.variable {
        Var::Formal(n) => match at(m.formals.as_slice(), n as usize) {
            Some(formal) => unmet(formal.class, formal.ty),
            None => unmet(Class::Event, Ty::Bool),
        },
        Var::Local(n) => match at(m.decls.as_slice(), n as usize) {
            Some(decl) => unmet(decl.class, decl.ty),
            None => unmet(Class::Event, Ty::Bool),
        },
        Var::Bound(_) => unmet(Class::Event, Ty::Bool),
    }
}

/// The slot of a variable of this class and type, which isn't met.
fn unmet(class: Class, ty: Ty) -> Result<Slot, AllocError>
    ensures { IfOk result (λ slot. slot ≡ record { class = class; default = default_of ty; entry = Unmet }) }
{
    match Value::new(ty, 0) {
        Some(default) => Ok(Slot {
            class,
            default,
            entry: Entry::Unmet,
        }),
        None => Err(AllocError),
    }
}

/// Lists the instances that a step from this place meets: the outputs with their stores, and then
/// those that the walk comes past.
pub(crate) fn list_met(
    w: &Whole,
    walker: &Walker,
    place: &Place,
    outputs: &[Store],
    met: &mut Vec<Met>,
) -> Result<(), AllocError>
    requires { IsWalkerOf w.now.module walker.now }
    ensures { OnOk result (length outputs.now ≡ length (formals_of direction.Out w.now.module)
        → map (met_by (instances_of w.now.module)) met.new.items
        ≡ map Some (step_met (program_of w.now.module) (record { place = place.now; outputs = outputs.now }))) }
{
    met.clear();
    list_outputs(outputs, met)?;
    meet(w, walker, place, met)?;
    Ok(())
}

/// Adds the outputs with their stores.
fn list_outputs(stores: &[Store], met: &mut Vec<Met>) -> Result<(), AllocError>
    ensures { OnOk result (met.new.items ≡ met.old.items ++ outputs_met 0 stores.now) }
{
    for (number, store) in stores.iter().enumerate() {
        add_output(number, *store, met)?;
    }
    Ok(())
}

/// Adds the output with this number.
fn add_output(number: usize, store: Store, met: &mut Vec<Met>) -> Result<(), AllocError>
    ensures { OnOk result (met.new.items ≡ met.old.items ++ (record { instance = number; store = Some store }) ∷ []) }
{
    match u32::try_from(number) {
        Ok(instance) => {
            met.push(Met {
                instance,
                store: Some(store),
            })?;
            Ok(())
        }
        Err(_) => Err(AllocError),
    }
}

/// Lets the step come to these instances.
pub(crate) fn enter(slots: &mut Vec<Slot>, met: &[Met])
    ensures { slots.new.items ≡ entered slots.old.items met.now }
{
    for one in met {
        enter_one(slots, *one);
    }
}

/// Lets the step come to this instance, if it hasn't yet.
fn enter_one(slots: &mut Vec<Slot>, one: Met)
    ensures { slots.new.items ≡ with_met slots.old.items one }
{
    let number = one.instance as usize;
    let slot = with_entry(slot_at(slots, number), entry_with(one.store));
    if number < slots.len() {
        slots[number] = slot;
    }
}

fn with_entry(slot: Slot, entry: Entry) -> Slot
    ensures { result ≡ with_entry slot entry }
{
    Slot {
        class: slot.class,
        default: slot.default,
        entry: first_entry(slot.entry, entry),
    }
}

fn first_entry(first: Entry, second: Entry) -> Entry
    ensures { result ≡ first_entry first second }
{
    match first {
        Entry::Unmet => second,
        Entry::New => Entry::New,
        Entry::Kept(store) => Entry::Kept(store),
    }
}

fn entry_with(store: Option<Store>) -> Entry
    ensures { result ≡ entry_with store }
{
    match store {
        Some(store) => Entry::Kept(store),
        None => Entry::New,
    }
}
