//! Whether a step is definite.

ghost use Rattle.std.specs.Prelude.{◌≡◌, ◌≤◌, ◌*◌, List, length, IfOk, OnOk};
ghost use Rattle.qz_values.specs.declared.Value.{Value};
ghost use Rattle.qz_meaning.specs.Programs.{program_of};
ghost use Rattle.qz_meaning.specs.Configurations.{Configuration, IsValuationOf};
ghost use Rattle.qz_meaning.specs.Settling.{step_met};
ghost use Rattle.qz_react.specs.Reacting.{IsWalkerOf};
ghost use Rattle.qz_interp.specs.Beginning.{BeginsRounds};
ghost use Rattle.qz_interp.specs.LastRounds.{AreLastRound, Decides};
ghost use Rattle.qz_interp.specs.Touching.{Suits, IsClear};

use crate::doubts::{Doubted, first_doubted_met};
use crate::rounds::{Setting, Sheet, run_rounds};
use qz_react::{Env, Walker};
use std::alloc::AllocError;

/// Goes on from round 0 to the last round, and tells the first instance that isn't definite in it, if
/// there is one. The environment is then the least one.
///
/// `most` is at least four times the number of instances that the step meets.
pub fn decide(
    setting: &Setting<'_>,
    walker: &mut Walker,
    env: &mut Env,
    sheet: &mut Sheet,
    most: usize,
) -> Result<Option<Doubted>, AllocError>
    requires walker { IsWalkerOf setting.now.whole.now.module walker.old }
    requires suits { Suits setting.now.slots.now setting.now.met.now env.old }
    requires clear { IsClear (length setting.now.slots.now) sheet.old }
    ensures walker { IsWalkerOf setting.now.whole.now.module walker.new }
    ensures suits { Suits setting.now.slots.now setting.now.met.now env.new }
    ensures clear { IsClear (length setting.now.slots.now) sheet.new }
    ensures inputs { env.new.inputs.items ≡ env.old.inputs.items }
    ensures last { OnOk result ((c : Configuration) (row : List Value) → BeginsRounds setting.now.whole.now.module c row setting.now.place.now setting.now.slots.now env.old
        → 4 * length (step_met (program_of setting.now.whole.now.module) c) ≤ most
        → AreLastRound (program_of setting.now.whole.now.module) c row env.new.now.items env.new.later.items) }
    ensures decided { IfOk result (λ answer. (c : Configuration) (row : List Value) → BeginsRounds setting.now.whole.now.module c row setting.now.place.now setting.now.slots.now env.old
        → 4 * length (step_met (program_of setting.now.whole.now.module) c) ≤ most → IsValuationOf (program_of setting.now.whole.now.module) c row
        → Decides (program_of setting.now.whole.now.module) c row answer) }
{
    run_rounds(setting, walker, env, sheet, most)?;
    Ok(first_doubted_met(setting, env))
}
