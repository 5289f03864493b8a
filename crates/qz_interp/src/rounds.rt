//! One round after the other, on buffers that are kept.
//!
//! A round touches only the instances that the step meets: of the others nothing is known, and nothing of
//! them is read.

ghost use Rattle.std.specs.Prelude.{◌≡◌, ◌≤◌, ◌*◌, false, List, length, IfOk, OnOk};
ghost use Rattle.qz_values.specs.declared.Value.{Value};
ghost use Rattle.qz_meaning.specs.Programs.{program_of};
ghost use Rattle.qz_meaning.specs.Configurations.{Configuration};
ghost use Rattle.qz_meaning.specs.Settling.{Environment, step_met};
ghost use Rattle.qz_react.specs.Reacting.{IsWalkerOf, Tells};
ghost use Rattle.qz_interp.specs.Walked.{Settles, IsNextRound};
ghost use Rattle.qz_interp.specs.LastRounds.{AreLastRound};
ghost use Rattle.qz_interp.specs.Beginning.{BeginsRounds};
ghost use Rattle.qz_interp.specs.RoundTables.{AreSlotsOf};
ghost use Rattle.qz_interp.specs.Touching.{Suits, IsClear};

use crate::slots::{Slot, settle_delayed, settle_values};
use crate::tallies::{Tally, clear_writes, tally_writes};
use qz_react::{Env, Met, Walker, Write, react};
use qz_syntax::{Place, Whole};
use std::alloc::AllocError;

/// What stays as it is through the rounds of a step.
#[derive(Clone, Copy, Debug)]
pub struct Setting<'s> {
    pub whole: &'s Whole,
    pub place: &'s Place,
    pub slots: &'s [Slot],
    /// What the step meets.
    pub met: &'s [Met],
}

/// What is written down in a round, on buffers that a later round takes again.
#[derive(Debug, Drop)]
pub struct Sheet {
    pub writes: Vec<Write>,
    /// The verdicts on present writers; between rounds there is none.
    pub now: Tally,
    /// The verdicts on delayed writers.
    pub later: Tally,
}

/// Lets the environment be the round after it, and tells whether it changed.
pub fn settle_round(
    setting: &Setting<'_>,
    walker: &mut Walker,
    env: &mut Env,
    sheet: &mut Sheet,
) -> Result<bool, AllocError>
    requires walker { IsWalkerOf setting.now.whole.now.module walker.old }
    requires suits { Suits setting.now.slots.now setting.now.met.now env.old }
    requires clear { IsClear (length setting.now.slots.now) sheet.old }
    ensures walker { IsWalkerOf setting.now.whole.now.module walker.new }
    ensures suits { Suits setting.now.slots.now setting.now.met.now env.new }
    ensures clear { IsClear (length setting.now.slots.now) sheet.new }
    ensures inputs { env.new.inputs.items ≡ env.old.inputs.items }
    ensures round { OnOk result ((c : Configuration) (row : List Value) (e : Environment) → c.place ≡ setting.now.place.now
        → AreSlotsOf (program_of setting.now.whole.now.module) c setting.now.slots.now → Tells (program_of setting.now.whole.now.module) env.old e
        → IsNextRound setting.now.whole.now.module c row e env.new.now.items env.new.later.items) }
    ensures same_now { IfOk result (λ changed. changed ≡ false → env.new.now.items ≡ env.old.now.items) }
    ensures same_later { IfOk result (λ changed. changed ≡ false → env.new.later.items ≡ env.old.later.items) }
{
    sheet.writes.clear();
    react(setting.whole, walker, setting.place, env, &mut sheet.writes)?;
    Ok(settle_writes(setting.slots, setting.met, env, sheet))
}

/// Settles the instances that are met by the writes on the sheet, and tells whether one changed.
fn settle_writes(slots: &[Slot], met: &[Met], env: &mut Env, sheet: &mut Sheet) -> bool
    requires suits { Suits slots.now met.now env.old }
    requires clear { IsClear (length slots.now) sheet.old }
    ensures suits { Suits slots.now met.now env.new }
    ensures clear { IsClear (length slots.now) sheet.new }
    ensures inputs { env.new.inputs ≡ env.old.inputs }
    ensures settled { Settles slots.now sheet.old.writes.items env.new.now.items env.new.later.items }
    ensures same_now { result ≡ false → env.new.now.items ≡ env.old.now.items }
    ensures same_later { result ≡ false → env.new.later.items ≡ env.old.later.items }
{
    tally_writes(&mut sheet.now, &mut sheet.later, &sheet.writes);
    let now = settle_values(slots, met, &sheet.now, &mut env.now);
    let later = settle_delayed(slots, met, &sheet.later, &mut env.later);
    clear_writes(&mut sheet.now, &mut sheet.later, &sheet.writes);
    now | later
}

/// Goes on from round 0 until nothing changes, or for so many rounds.
///
/// Four rounds for each instance that the step meets are enough: each value and each delayed value
/// changes twice at most.
pub fn run_rounds(
    setting: &Setting<'_>,
    walker: &mut Walker,
    env: &mut Env,
    sheet: &mut Sheet,
    most: usize,
) -> Result<(), AllocError>
    requires walker { IsWalkerOf setting.now.whole.now.module walker.old }
    requires suits { Suits setting.now.slots.now setting.now.met.now env.old }
    requires clear { IsClear (length setting.now.slots.now) sheet.old }
    ensures walker { IsWalkerOf setting.now.whole.now.module walker.new }
    ensures suits { Suits setting.now.slots.now setting.now.met.now env.new }
    ensures clear { IsClear (length setting.now.slots.now) sheet.new }
    ensures inputs { env.new.inputs.items ≡ env.old.inputs.items }
    ensures last { OnOk result ((c : Configuration) (row : List Value) → BeginsRounds setting.now.whole.now.module c row setting.now.place.now setting.now.slots.now env.old
        → 4 * length (step_met (program_of setting.now.whole.now.module) c) ≤ most
        → AreLastRound (program_of setting.now.whole.now.module) c row env.new.now.items env.new.later.items) }
{
    for _round in 0..most {
        let changed = settle_round(setting, walker, env, sheet)?;
        if !changed {
            return Ok(());
        }
    }
    Ok(())
}
