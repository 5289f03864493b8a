//! Verdicts on the writers of all instances, by the instances' numbers.

ghost use Rattle.std.specs.Prelude.{◌≡◌, false, true, map, IfOk, replicate, slice_index_or, slice_set};
ghost use Rattle.qz_meaning.specs.Verdicts.{Nobody, verdict_of_one};
ghost use Rattle.qz_interp.specs.Seeing.{verdict_seen};
ghost use Rattle.qz_interp.specs.Tallying.{with_one, tallied, cleared};
ghost use Rattle.qz_interp.specs.Walked.{numbered};

use crate::verdicts::Verdict;
use qz_react::Write;
use qz_values::Know;
use std::alloc::{AllocError, Global};
use std::marker::Model;

/// A verdict for each instance, in the order of their numbers.
#[derive(Debug, Drop)]
pub struct Tally {
    verdicts: Vec<Verdict>,
}

impl Model for Tally {
    ghost use Rattle.std.specs.Prelude.{List, map};
    ghost use Rattle.qz_meaning.specs.Verdicts.{Verdict};
    ghost use Rattle.qz_interp.specs.Seeing.{verdict_seen};

    ghost Value = { List Verdict };

    ghost view = { λ t. map verdict_seen t.verdicts.items };
}

impl Tally {
    /// Of so many instances, of which none has a writer.
    pub fn make(alloc: Global, count: usize) -> Result<Tally, AllocError>
        ensures { IfOk result (λ tally. tally ≡ replicate count Nobody) }
    {
        let mut verdicts = Vec::new(alloc);
        verdicts.resize(count, Verdict::Nobody)?;
        Ok(Tally { verdicts })
    }

    /// The verdict on an instance's writers.
    pub fn at(&self, number: usize) -> Verdict
        ensures { verdict_seen result ≡ slice_index_or self.now number Nobody }
    {
        match self.verdicts.get(number) {
            Some(verdict) => *verdict,
            None => Verdict::Nobody,
        }
    }

    /// One writer more of an instance; a number that no instance has changes nothing.
    pub fn add(&mut self, number: usize, guard: Know, value: Know)
        ensures { self.new ≡ with_one self.old number (verdict_of_one guard value) }
    {
        let verdict = self.at(number).join(Verdict::of(guard, value));
        if number < self.verdicts.len() {
            self.verdicts[number] = verdict;
        }
    }

    /// Takes an instance's writers away; a number that no instance has changes nothing.
    pub fn clear(&mut self, number: usize)
        ensures { self.new ≡ slice_set self.old number Nobody }
    {
        if number < self.verdicts.len() {
            self.verdicts[number] = Verdict::Nobody;
        }
    }
}

/// Adds the writers that some writes are, to the tally of present ones or of delayed ones.
pub(crate) fn tally_writes(now: &mut Tally, later: &mut Tally, writes: &[Write])
    ensures now { now.new ≡ tallied false now.old (map numbered writes.now) }
    ensures later { later.new ≡ tallied true later.old (map numbered writes.now) }
{
    for write in writes {
        if write.delayed {
            later.add(write.instance as usize, write.guard, write.value);
        } else {
            now.add(write.instance as usize, write.guard, write.value);
        }
    }
}

/// Takes the writers of the instances that some writes are to away again.
pub(crate) fn clear_writes(now: &mut Tally, later: &mut Tally, writes: &[Write])
    ensures now { now.new ≡ cleared now.old (map numbered writes.now) }
    ensures later { later.new ≡ cleared later.old (map numbered writes.now) }
{
    for write in writes {
        now.clear(write.instance as usize);
        later.clear(write.instance as usize);
    }
}
