//! The lists between steps: how they are made, and how a step sets them back.

ghost use Rattle.std.specs.Prelude.{◌≡◌, map, length, replicate, IfOk, slice_index_or, slice_set};
ghost use Rattle.qz_values.specs.declared.Know.TheVariants.{Unknown};
ghost use Rattle.qz_syntax.specs.declared.modules.Module.{Module};
ghost use Rattle.qz_syntax.specs.declared.places.Later.TheVariants as later;
ghost use Rattle.qz_meaning.specs.Programs.{instances_of};
ghost use Rattle.qz_interp.specs.Entering.{blank_slot, no_slot};
ghost use Rattle.qz_interp.specs.Resting.{AreAtRest, AreTouched};
ghost use Rattle.qz_interp.specs.Touching.{assigned, IsClear};

use crate::lists::Lists;
use crate::rounds::Sheet;
use crate::slots::{Slot, set_delayed, set_known, slot_at};
use crate::tallies::Tally;
use qz_react::{Env, Met};
use qz_syntax::Later;
use qz_values::Know;
use std::alloc::{AllocError, Global};

impl Lists {
    /// The lists before any step, with these slots, in which nothing is met.
    pub(crate) fn make(alloc: Global, blank: Vec<Slot>) -> Result<Lists, AllocError>
        ensures { IfOk result (λ lists. (m : Module) → blank.items ≡ map (blank_slot m) (instances_of m) → AreAtRest m lists) }
    {
        let count = blank.len();
        let slots = copied(alloc, &blank)?;
        let env = nothing_known(alloc, count)?;
        let sheet = clear_sheet(alloc, count)?;
        Ok(Lists {
            blank,
            slots,
            met: Vec::new(alloc),
            env,
            sheet,
            stores: Vec::new(alloc),
        })
    }

    /// Sets what a step touched back.
    pub(crate) fn rest(&mut self)
        ensures { (m : Module) → AreTouched m self.old → AreAtRest m self.new }
    {
        unmeet(&mut self.slots, &self.blank, &self.met);
        forget_values(&mut self.env.now, &self.met);
        forget_delayed(&mut self.env.later, &self.met);
    }
}

fn copied(alloc: Global, slots: &[Slot]) -> Result<Vec<Slot>, AllocError>
    ensures { IfOk result (λ copy. copy.items ≡ slots.now) }
{
    let mut copy = Vec::new(alloc);
    copy.extend_from_slice(slots)?;
    Ok(copy)
}

/// No inputs, and nothing known of so many instances.
fn nothing_known(alloc: Global, count: usize) -> Result<Env, AllocError>
    ensures now { IfOk result (λ env. env.now.items ≡ replicate count Unknown) }
    ensures later { IfOk result (λ env. env.later.items ≡ replicate count later.Unknown) }
{
    let mut now = Vec::new(alloc);
    now.resize(count, Know::Unknown)?;
    let mut later = Vec::new(alloc);
    later.resize(count, Later::Unknown)?;
    Ok(Env {
        inputs: Vec::new(alloc),
        now,
        later,
    })
}

/// A sheet on which nothing is written.
fn clear_sheet(alloc: Global, count: usize) -> Result<Sheet, AllocError>
    ensures { IfOk result (IsClear count) }
{
    let now = Tally::make(alloc, count)?;
    let later = Tally::make(alloc, count)?;
    Ok(Sheet {
        writes: Vec::new(alloc),
        now,
        later,
    })
}

/// Lets these not be met.
fn unmeet(slots: &mut Vec<Slot>, blank: &[Slot], met: &[Met])
    ensures { slots.new.items ≡ assigned (λ number. slice_index_or blank.now number no_slot) slots.old.items met.now }
{
    for one in met {
        set_slot(
            slots,
            one.instance as usize,
            slot_at(blank, one.instance as usize),
        );
    }
}

fn set_slot(slots: &mut Vec<Slot>, number: usize, slot: Slot)
    ensures { slots.new.items ≡ slice_set slots.old.items number slot }
{
    if number < slots.len() {
        slots[number] = slot;
    }
}

/// Lets nothing be known of the values of these.
fn forget_values(known: &mut Vec<Know>, met: &[Met])
    ensures { known.new.items ≡ assigned (λ number. Unknown) known.old.items met.now }
{
    for one in met {
        set_known(known, one.instance as usize, Know::Unknown);
    }
}

/// Lets nothing be known of the delayed values of these.
fn forget_delayed(delayed: &mut Vec<Later>, met: &[Met])
    ensures { delayed.new.items ≡ assigned (λ number. later.Unknown) delayed.old.items met.now }
{
    for one in met {
        set_delayed(delayed, one.instance as usize, Later::Unknown);
    }
}
