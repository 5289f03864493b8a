//! What isn't definite after the last round.

ghost use Rattle.std.specs.Prelude.{◌≡◌, true, slice_index_or};
ghost use Rattle.std.specs.Option.{option_map};
ghost use Rattle.qz_interp.specs.Doubts.{doubt_of, doubt_of_later, doubted_at, doubted_in, doubted_from, are_definite};
ghost use Rattle.qz_interp.specs.Touching.{Suits};

use crate::knowing::{delayed_at, known_at};
use crate::rounds::Setting;
use crate::slots::{Entry, Slot};
use qz_react::{Env, Met};
use qz_syntax::{Doubt, Later};
use qz_values::Know;

/// An instance, by its number, whose value or delayed value isn't definite, and why.
#[derive(Clone, Copy, Debug, PartialEq, Eq)]
pub struct Doubted {
    pub number: usize,
    /// Of the delayed value: the value itself is definite.
    pub delayed: bool,
    pub doubt: Doubt,
}

/// The first instance that the step meets and that isn't definite, by its number; its value comes before
/// its delayed value. The instances are gone through in their order only where one isn't definite.
#[tactic(auto, using(crate::proofs::DefiniteLemmas::nothing_doubted))]
pub(crate) fn first_doubted_met(setting: &Setting<'_>, env: &Env) -> Option<Doubted>
    requires suits { Suits setting.now.slots.now setting.now.met.now env.now }
    ensures { result ≡ doubted_from 0 setting.now.slots.now env.entry.now.now.items env.entry.now.later.items }
{
    if are_definite(setting.met, &env.now, &env.later) {
        return None;
    }
    first_doubted(setting.slots, &env.now, &env.later)
}

/// Whether each of these is definite.
fn are_definite(met: &[Met], known: &[Know], delayed: &[Later]) -> bool
    ensures { result ≡ are_definite met.now known.now delayed.now }
{
    for one in met {
        let number = one.instance as usize;
        let doubted = doubted_at(number, known_at(known, number), delayed_at(delayed, number));
        if doubted.is_some() {
            return false;
        }
    }
    true
}

/// The first instance that isn't definite, among all.
fn first_doubted(slots: &[Slot], known: &[Know], delayed: &[Later]) -> Option<Doubted>
    ensures { result ≡ doubted_from 0 slots.now known.now delayed.now }
{
    for (number, slot) in slots.iter().enumerate() {
        let doubted = doubted_in(
            slot.entry,
            number,
            known_at(known, number),
            delayed_at(delayed, number),
        );
        if doubted.is_some() {
            return doubted;
        }
    }
    None
}

fn doubted_in(entry: Entry, number: usize, known: Know, delayed: Later) -> Option<Doubted>
    ensures { result ≡ doubted_in entry number known delayed }
{
    match entry {
        Entry::Unmet => None,
        Entry::New | Entry::Kept(_) => doubted_at(number, known, delayed),
    }
}

fn doubted_at(number: usize, known: Know, delayed: Later) -> Option<Doubted>
    ensures { result ≡ doubted_at number known delayed }
{
    match doubt_of(known) {
        Some(doubt) => Some(Doubted {
            number,
            delayed: false,
            doubt,
        }),
        None => of_delayed(number, doubt_of_later(delayed)),
    }
}

/// The doubt of a delayed value, if there is one.
fn of_delayed(number: usize, doubt: Option<Doubt>) -> Option<Doubted>
    ensures { result ≡ option_map (λ reason. record { number = number; delayed = true; doubt = reason }) doubt }
{
    match doubt {
        Some(doubt) => Some(Doubted {
            number,
            delayed: true,
            doubt,
        }),
        None => None,
    }
}

/// Why a value isn't definite, if it isn't.
fn doubt_of(known: Know) -> Option<Doubt>
    ensures { result ≡ doubt_of known }
{
    match known {
        Know::Unknown => Some(Doubt::Unknown),
        Know::Known(_) => None,
        Know::Clash => Some(Doubt::Clash),
    }
}

/// Why a delayed value isn't definite, if it isn't.
fn doubt_of_later(delayed: Later) -> Option<Doubt>
    ensures { result ≡ doubt_of_later delayed }
{
    match delayed {
        Later::Unknown => Some(Doubt::Unknown),
        Later::Absent | Later::Known(_) => None,
        Later::Clash => Some(Doubt::Clash),
    }
}
