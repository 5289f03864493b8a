//! A program that goes from macro step to macro step.

ghost use Rattle.std.specs.Prelude.{◌≡◌, [], map, length, IfOk, IfErr, OnOk, OnErr, slice_index_or};
ghost use Rattle.std.proofs.Props.{props};
ghost use Rattle.qz_meaning.specs.Scenes.{default_store};
ghost use Rattle.qz_meaning.specs.Programs.{program_of, instances_of};
ghost use Rattle.qz_interp.specs.Keeping.{output_types};
ghost use Rattle.qz_interp.specs.InstanceTexts.{instance_text};
ghost use Rattle.qz_interp.specs.Tables.{AreTablesOf};

use crate::instance_texts::text_at;
use crate::keeping::first_stores;
use crate::steps::{State, StepRefusal, take_step};
use crate::tables::Tables;
use qz_syntax::{Place, Store, Whole};
use qz_values::Value;
use std::alloc::{AllocError, Global};

/// A whole program, and where it is: the place of control with the stores of the scopes there, and the
/// stores of the outputs.
#[derive(Drop)]
pub struct Machine {
    whole: Whole,
    state: State,
    tables: Tables,
    ghost tables_fit: { AreTablesOf whole tables } by { Prim.hlevel props },
}

/// The tables of a program, and what its outputs keep before the first step.
fn begin(alloc: Global, w: &Whole) -> Result<(Tables, Vec<Store>), AllocError>
    ensures tables { IfOk result (λ begun. AreTablesOf w.now begun.0) }
    ensures outputs { IfOk result (λ begun. begun.1.items ≡ map default_store (output_types w.now.module.formals)) }
{
    let tables = Tables::make(alloc, w)?;
    let outputs = first_stores(alloc, w.module.formals.as_slice())?;
    Ok((tables, outputs))
}

impl Machine {
    ghost use Rattle.qz_interp.specs.OnlySteps.{IsOnlyStep, IsRefusal};
    ghost use Rattle.qz_interp.specs.Machines.{configuration_of, IsAtBeginning, CanTake};

    /// A program at its beginning.
    ///
    /// # Errors
    ///
    /// Want of memory. A module in which some type is none may be answered so too.
    pub fn make(alloc: Global, w: Whole) -> Result<Machine, AllocError>
        ensures { IfOk result (λ machine. IsAtBeginning w machine) }
    {
        match begin(alloc, &w) {
            Ok((tables, outputs)) => Ok(Machine {
                whole: w,
                state: State {
                    place: Place::NotStarted,
                    outputs,
                },
                tables,
            }),
            Err(AllocError) => Err(AllocError),
        }
    }

    /// One macro step with a value for each input, in the order of the formals. `outputs` has room for a
    /// value of each output and gets them; where the step isn't taken they are open, and the machine is
    /// as it was.
    ///
    /// # Errors
    ///
    /// The first instance that isn't definite in the least environment. Want of memory; inputs that don't
    /// fit the program may be answered so too.
    pub fn step(
        &mut self,
        alloc: Global,
        inputs: &[Value],
        outputs: &mut [Value],
    ) -> Result<(), StepRefusal>
        ensures program { self.new.whole ≡ self.old.whole }
        ensures steps { OnOk result (CanTake self.old inputs.now (length outputs.old)
            → IsOnlyStep (program_of self.old.whole.module) (configuration_of self.old) inputs.now outputs.new (configuration_of self.new)) }
        ensures refused { IfErr result (λ refusal. CanTake self.old inputs.now (length outputs.old)
            → IsRefusal (program_of self.old.whole.module) (configuration_of self.old) inputs.now refusal) }
        ensures unchanged { OnErr result (configuration_of self.new ≡ configuration_of self.old) }
    {
        take_step(
            alloc,
            &self.whole,
            &mut self.tables,
            &mut self.state,
            inputs,
            outputs,
        )
    }

    /// The text by which an instance is named, by its number; empty where there is none.
    pub fn name_of(&self, instance: u32) -> &str
        ensures { result.now ≡ slice_index_or (map (instance_text self.now.whole) (instances_of self.now.whole.module)) instance [] }
    {
        text_at(&self.tables.texts, instance as usize)
    }
}
