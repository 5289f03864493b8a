//! The instances of a step by their numbers: how the step comes to each, and what it settles to.

ghost use Rattle.std.specs.Prelude.{◌≡◌, false, slice_index_or, slice_set};
ghost use Rattle.qz_interp.specs.Entering.{no_slot};
ghost use Rattle.qz_interp.specs.Seeing.{verdict_seen};
ghost use Rattle.qz_interp.specs.Slots.{new_by, value_at, later_at};
ghost use Rattle.qz_interp.specs.Touching.{assigned, value_by, later_by};

use crate::knowing::{delayed_at, is_delayed_as, is_known_as, known_at};
use crate::settling::{settled, settled_later};
use crate::tallies::Tally;
use crate::verdicts::Verdict;
use qz_react::Met;
use qz_syntax::{Class, Later, Store};
use qz_values::{Know, Value};

/// How a step comes to an instance.
#[derive(Clone, Copy, Debug, PartialEq, Eq)]
pub enum Entry {
    /// Not at all.
    Unmet,
    /// Its scope is entered.
    New,
    /// It was there before, with this store.
    Kept(Store),
}

/// An instance in a step.
#[derive(Clone, Copy, Debug)]
pub struct Slot {
    pub class: Class,
    /// The default of its variable.
    pub default: Value,
    pub entry: Entry,
}

impl Slot {
    /// What its value settles to by the verdict on its writers, what is pending apart; Unknown where it
    /// isn't met.
    pub fn value(&self, writers: Verdict) -> Know
        ensures { result ≡ value_at self.now (verdict_seen writers) }
    {
        match self.entry {
            Entry::Unmet => Know::Unknown,
            Entry::New => settled(self.class, self.default, new_store(self.default), writers),
            Entry::Kept(store) => settled(self.class, self.default, store, writers),
        }
    }

    /// What its delayed value settles to by the verdict on its writers; Unknown where it isn't met.
    pub fn delayed(&self, writers: Verdict) -> Later
        ensures { result ≡ later_at self.now (verdict_seen writers) }
    {
        match self.entry {
            Entry::Unmet => Later::Unknown,
            Entry::New | Entry::Kept(_) => settled_later(writers),
        }
    }
}

/// The default without mark.
pub(crate) fn new_store(default: Value) -> Store
    ensures { result ≡ new_by default }
{
    Store {
        value: default,
        pending: false,
    }
}

/// The slot with this number, or one of nothing.
pub(crate) fn slot_at(slots: &[Slot], number: usize) -> Slot
    ensures { result ≡ slice_index_or slots.now number no_slot }
{
    match slots.get(number) {
        Some(slot) => *slot,
        None => Slot {
            class: Class::Event,
            default: Value::truth(false),
            entry: Entry::Unmet,
        },
    }
}

/// Settles the values of the instances that are met by the verdicts on their writers, and tells whether
/// one of them changed.
pub fn settle_values(slots: &[Slot], met: &[Met], writers: &Tally, known: &mut Vec<Know>) -> bool
    ensures settled { known.new.items ≡ assigned (value_by slots.now writers.now) known.old.items met.now }
    ensures same { result ≡ false → known.new.items ≡ known.old.items }
{
    let mut changed = false;
    for one in met {
        if settle_value(slots, one.instance as usize, writers, known) {
            changed = true;
        }
    }
    changed
}

/// Settles the value of one instance, and tells whether it changed.
fn settle_value(slots: &[Slot], number: usize, writers: &Tally, known: &mut Vec<Know>) -> bool
    ensures settled { known.new.items ≡ slice_set known.old.items number (value_by slots.now writers.now number) }
    ensures same { result ≡ false → known.new.items ≡ known.old.items }
{
    let value = slot_at(slots, number).value(writers.at(number));
    if is_known_as(known_at(known, number), value) {
        return false;
    }
    set_known(known, number, value);
    true
}

/// Writes what is known of the instance with this number; a number that there isn't changes nothing.
pub(crate) fn set_known(known: &mut Vec<Know>, number: usize, value: Know)
    ensures { known.new.items ≡ slice_set known.old.items number value }
{
    if number < known.len() {
        known[number] = value;
    }
}

/// Settles the delayed values of the instances that are met, and tells whether one of them changed.
pub fn settle_delayed(
    slots: &[Slot],
    met: &[Met],
    writers: &Tally,
    delayed: &mut Vec<Later>,
) -> bool
    ensures settled { delayed.new.items ≡ assigned (later_by slots.now writers.now) delayed.old.items met.now }
    ensures same { result ≡ false → delayed.new.items ≡ delayed.old.items }
{
    let mut changed = false;
    for one in met {
        if settle_one_delayed(slots, one.instance as usize, writers, delayed) {
            changed = true;
        }
    }
    changed
}

/// Settles the delayed value of one instance, and tells whether it changed.
fn settle_one_delayed(
    slots: &[Slot],
    number: usize,
    writers: &Tally,
    delayed: &mut Vec<Later>,
) -> bool
    ensures settled { delayed.new.items ≡ slice_set delayed.old.items number (later_by slots.now writers.now number) }
    ensures same { result ≡ false → delayed.new.items ≡ delayed.old.items }
{
    let value = slot_at(slots, number).delayed(writers.at(number));
    if is_delayed_as(delayed_at(delayed, number), value) {
        return false;
    }
    set_delayed(delayed, number, value);
    true
}

/// Writes what is known of the delayed value of the instance with this number.
pub(crate) fn set_delayed(delayed: &mut Vec<Later>, number: usize, value: Later)
    ensures { delayed.new.items ≡ slice_set delayed.old.items number value }
{
    if number < delayed.len() {
        delayed[number] = value;
    }
}
