//! The lists of a step, which the next step takes again.
//!
//! Each has a place for each instance. A step touches only those of the instances that it meets, and sets
//! them back at its end, whatever comes of it: its time doesn't grow with the instances that it doesn't meet.

ghost use Rattle.std.specs.Prelude.{◌≡◌, ◌*◌, length, IfOk, OnOk};
ghost use Rattle.qz_syntax.specs.declared.declarations.Dir.TheVariants as direction;
ghost use Rattle.qz_syntax.specs.WellFormed.{IsNumbered};
ghost use Rattle.qz_meaning.specs.Programs.{program_of, formals_of};
ghost use Rattle.qz_meaning.specs.Configurations.{IsValuationOf};
ghost use Rattle.qz_react.specs.Reacting.{IsWalkerOf};
ghost use Rattle.qz_interp.specs.OnlySteps.{IsPrepared, IsDecided};
ghost use Rattle.qz_interp.specs.Resting.{AreAtRest, AreTouched};

use crate::decisions::decide;
use crate::doubts::Doubted;
use crate::entering::{enter, list_met};
use crate::rounds::{Setting, Sheet};
use crate::slots::Slot;
use qz_react::{Env, Met, Walker};
use qz_syntax::{Place, Store, Whole};
use qz_values::Value;
use std::alloc::AllocError;

/// The lists of a step.
#[derive(Debug, Drop)]
pub(crate) struct Lists {
    /// A slot for each instance, with nothing met.
    pub blank: Vec<Slot>,
    pub slots: Vec<Slot>,
    pub met: Vec<Met>,
    pub env: Env,
    pub sheet: Sheet,
    /// What the outputs keep after the step.
    pub stores: Vec<Store>,
}

/// Goes on from round 0 of a step to the last round, and tells the first instance that isn't definite in
/// it, if there is one.
pub(crate) fn decide_step(
    w: &Whole,
    walker: &mut Walker,
    place: &Place,
    outputs: &[Store],
    inputs: &[Value],
    lists: &mut Lists,
) -> Result<Option<Doubted>, AllocError>
    requires walker { IsWalkerOf w.now.module walker.old }
    requires rest { AreAtRest w.now.module lists.old }
    ensures walker { IsWalkerOf w.now.module walker.new }
    ensures touched { AreTouched w.now.module lists.new }
    ensures decided { IfOk result (λ answer. IsNumbered w.now.module
        → IsValuationOf (program_of w.now.module) (record { place = place.now; outputs = outputs.now }) inputs.now
        → IsDecided w.now.module (record { place = place.now; outputs = outputs.now }) inputs.now lists.new.env answer) }
{
    let most = prepare(w, walker, place, outputs, inputs, lists)?;
    let setting = Setting {
        whole: w,
        place,
        slots: &lists.slots,
        met: &lists.met,
    };
    let answer = decide(&setting, walker, &mut lists.env, &mut lists.sheet, most)?;
    Ok(answer)
}

/// Sets the lists of a step to those with which its rounds begin, and answers how many rounds are enough.
fn prepare(
    w: &Whole,
    walker: &Walker,
    place: &Place,
    outputs: &[Store],
    inputs: &[Value],
    lists: &mut Lists,
) -> Result<usize, AllocError>
    requires walker { IsWalkerOf w.now.module walker.now }
    requires rest { AreAtRest w.now.module lists.old }
    ensures touched { AreTouched w.now.module lists.new }
    ensures prepared { IfOk result (λ most. IsNumbered w.now.module → length outputs.now ≡ length (formals_of direction.Out w.now.module)
        → IsPrepared w.now.module (record { place = place.now; outputs = outputs.now }) inputs.now lists.new.slots.items lists.new.env most) }
{
    list_met(w, walker, place, outputs, &mut lists.met)?;
    enter(&mut lists.slots, &lists.met);
    take_inputs(&mut lists.env, inputs)?;
    let most = four_times(lists.met.len())?;
    Ok(most)
}

/// Lets the environment have these inputs.
fn take_inputs(env: &mut Env, inputs: &[Value]) -> Result<(), AllocError>
    ensures inputs { OnOk result (env.new.inputs.items ≡ inputs.now) }
    ensures now { env.new.now ≡ env.old.now }
    ensures later { env.new.later ≡ env.old.later }
{
    env.inputs.clear();
    env.inputs.extend_from_slice(inputs)?;
    Ok(())
}

fn four_times(count: usize) -> Result<usize, AllocError>
    ensures { IfOk result (λ most. most ≡ 4 * count) }
{
    match count.checked_mul(4) {
        Some(most) => Ok(most),
        None => Err(AllocError),
    }
}
