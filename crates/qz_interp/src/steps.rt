//! One macro step, from a place and the stores of the outputs.

ghost use Rattle.std.specs.Prelude.{◌≡◌, map, take, length, IfErr, IfOk, OnOk, OnErr};
ghost use Rattle.qz_meaning.specs.Programs.{program_of};
ghost use Rattle.qz_meaning.specs.Settling.{Environment, body_under};
ghost use Rattle.qz_meaning.specs.MacroSteps.{next_place as place_after};
ghost use Rattle.qz_react.specs.Reacting.{IsWalkerOf, Tells};
ghost use Rattle.qz_interp.specs.Keeping.{outputs_kept, value_of_known};
ghost use Rattle.qz_interp.specs.OnlySteps.{FitsStep, IsOnlyStep, IsRefusal, IsDoubtOrMemory, state_of};
ghost use Rattle.qz_interp.specs.Resting.{AreTouched};
ghost use Rattle.qz_interp.specs.Tables.{AreTablesOf};

use crate::doubts::Doubted;
use crate::keeping::{first_known, give_outputs, keep_outputs};
use crate::lists::{Lists, decide_step};
use crate::tables::Tables;
use qz_react::{Walker, next_place};
use qz_syntax::{Doubt, Place, Store, Whole};
use qz_values::Value;
use std::alloc::{AllocError, Global};
use std::mem;

/// Why a step isn't taken.
#[derive(Clone, Copy, Debug, PartialEq, Eq)]
pub enum StepRefusal {
    /// The least environment isn't definite: the first instance of which that is so, by its number. Of
    /// one instance the value comes before the delayed value.
    NotDefinite {
        instance: u32,
        /// Of the delayed value: the value itself is definite.
        delayed: bool,
        doubt: Doubt,
    },
    /// Want of memory.
    Memory,
}

/// Where a program is: the place of control with the stores of the scopes there, and the stores of the
/// outputs.
#[derive(Debug, Drop)]
pub(crate) struct State {
    pub place: Place,
    pub outputs: Vec<Store>,
}

/// Does the only macro step with these inputs where there is one, and gives the outputs' values; or tells
/// what isn't definite, and leaves the state.
pub(crate) fn take_step(
    alloc: Global,
    w: &Whole,
    tables: &mut Tables,
    state: &mut State,
    inputs: &[Value],
    values: &mut [Value],
) -> Result<(), StepRefusal>
    requires tables { AreTablesOf w.now tables.old }
    ensures tables { AreTablesOf w.now tables.new }
    ensures steps { OnOk result (FitsStep w.now.module (state_of state.old) inputs.now (length values.old)
        → IsOnlyStep (program_of w.now.module) (state_of state.old) inputs.now values.new (state_of state.new)) }
    ensures refused { IfErr result (λ refusal. FitsStep w.now.module (state_of state.old) inputs.now (length values.old)
        → IsRefusal (program_of w.now.module) (state_of state.old) inputs.now refusal) }
    ensures unchanged { OnErr result (state_of state.new ≡ state_of state.old) }
{
    let taken = attempt(alloc, w, tables, state, inputs, values);
    tables.lists.rest();
    taken
}

/// The same, but for the lists, which are left as the step touched them.
fn attempt(
    alloc: Global,
    w: &Whole,
    tables: &mut Tables,
    state: &mut State,
    inputs: &[Value],
    values: &mut [Value],
) -> Result<(), StepRefusal>
    requires tables { AreTablesOf w.now tables.old }
    ensures walker { IsWalkerOf w.now.module tables.new.walker }
    ensures touched { AreTouched w.now.module tables.new.lists }
    ensures texts { tables.new.texts ≡ tables.old.texts }
    ensures steps { OnOk result (FitsStep w.now.module (state_of state.old) inputs.now (length values.old)
        → IsOnlyStep (program_of w.now.module) (state_of state.old) inputs.now values.new (state_of state.new)) }
    ensures refused { IfErr result (λ refusal. FitsStep w.now.module (state_of state.old) inputs.now (length values.old)
        → IsRefusal (program_of w.now.module) (state_of state.old) inputs.now refusal) }
    ensures unchanged_place { OnErr result (state.new.place ≡ state.old.place) }
    ensures unchanged_outputs { OnErr result (state.new.outputs.items ≡ state.old.outputs.items) }
{
    let walker = &mut tables.walker;
    match decide_step(
        w,
        walker,
        &state.place,
        &state.outputs,
        inputs,
        &mut tables.lists,
    ) {
        Err(AllocError) => Err(StepRefusal::Memory),
        Ok(Some(doubted)) => Err(not_definite(doubted)),
        Ok(None) => match take_definite(alloc, w, walker, state, &mut tables.lists, values) {
            Ok(()) => Ok(()),
            Err(AllocError) => Err(StepRefusal::Memory),
        },
    }
}

/// That this instance isn't definite.
fn not_definite(doubted: Doubted) -> StepRefusal
    ensures { IsDoubtOrMemory doubted result }
{
    match u32::try_from(doubted.number) {
        Ok(instance) => StepRefusal::NotDefinite {
            instance,
            delayed: doubted.delayed,
            doubt: doubted.doubt,
        },
        Err(_) => StepRefusal::Memory,
    }
}

/// Goes on by the values of the environment.
fn take_definite(
    alloc: Global,
    w: &Whole,
    walker: &mut Walker,
    state: &mut State,
    lists: &mut Lists,
    values: &mut [Value],
) -> Result<(), AllocError>
    requires walker { IsWalkerOf w.now.module walker.old }
    requires touched { AreTouched w.now.module lists.old }
    ensures walker { IsWalkerOf w.now.module walker.new }
    ensures touched { AreTouched w.now.module lists.new }
    ensures place { OnOk result ((e : Environment) → Tells (program_of w.now.module) lists.old.env e
        → state.new.place ≡ place_after (body_under (program_of w.now.module) e) state.old.place) }
    ensures outputs { OnOk result (state.new.outputs.items
        ≡ outputs_kept lists.old.blank.items lists.old.env.now.items lists.old.env.later.items (length state.old.outputs.items)) }
    ensures values { OnOk result (length values.old ≡ length (take (length values.old) lists.old.env.now.items)
        → values.new ≡ map value_of_known (take (length values.old) lists.old.env.now.items)) }
    ensures unchanged_place { OnErr result (state.new.place ≡ state.old.place) }
    ensures unchanged_outputs { OnErr result (state.new.outputs.items ≡ state.old.outputs.items) }
{
    keep_outputs(
        &lists.blank,
        &lists.env,
        state.outputs.len(),
        &mut lists.stores,
    )?;
    let next = next_place(alloc, w, walker, &state.place, &lists.env)?;
    state.place = next;
    mem::swap(&mut state.outputs, &mut lists.stores);
    give_outputs(first_known(&lists.env.now, values.len()), values);
    Ok(())
}
