//! The instances of a module in their order.

ghost use Rattle.std.specs.Prelude.{◌≡◌, ◌+◌, ◌++◌, ◌∷◌, [], map, IfOk, OnOk, if◌then◌else◌};
ghost use Rattle.qz_syntax.specs.declared.declarations.Dir.TheVariants as direction;
ghost use Rattle.qz_syntax.specs.Marks.{marks_of_local};
ghost use Rattle.qz_meaning.specs.Instances.{formal_instance, local_instance};
ghost use Rattle.qz_meaning.specs.Programs.{numbers_in, instances_of, is_same_direction};
ghost use Rattle.qz_react.specs.Seeing.{instance_of};

use crate::instances::{Carrier, Instance};
use qz_syntax::{Dir, Formal, Mark, Module, Var, marks_of};
use std::alloc::{AllocError, Global};

/// The numbers of the input formals.
#[tactic(auto, using(crate::proofs::Counting::input_more))]
pub fn inputs_of(alloc: Global, formals: &[Formal]) -> Result<Vec<u32>, AllocError>
    ensures { IfOk result (λ numbers. numbers.items ≡ numbers_in direction.In 0 formals.now) }
{
    let mut numbers = Vec::new(alloc);
    let mut number = 0;
    for formal in formals {
        add_input(&mut numbers, formal.dir, number)?;
        number = next(number)?;
    }
    Ok(numbers)
}

/// Adds a number if it is an input's.
fn add_input(numbers: &mut Vec<u32>, side: Dir, number: u32) -> Result<(), AllocError>
    ensures { OnOk result (numbers.new.items ≡ numbers.old.items ++ (if is_same_direction side direction.In then number ∷ [] else [])) }
{
    match side {
        Dir::In => {
            numbers.push(number)?;
            Ok(())
        }
        Dir::Out => Ok(()),
    }
}

/// The instances of the output formals.
#[tactic(auto, using(crate::proofs::Counting::output_more))]
pub fn outputs_of(alloc: Global, formals: &[Formal]) -> Result<Vec<Instance>, AllocError>
    ensures { IfOk result (λ all. map instance_of all.items ≡ map formal_instance (numbers_in direction.Out 0 formals.now)) }
{
    let mut all = Vec::new(alloc);
    let mut number = 0;
    for formal in formals {
        add_output(&mut all, formal.dir, number)?;
        number = next(number)?;
    }
    Ok(all)
}

/// Adds an instance if it is an output's.
fn add_output(all: &mut Vec<Instance>, side: Dir, number: u32) -> Result<(), AllocError>
    ensures { OnOk result (map instance_of all.new.items
        ≡ map instance_of all.old.items ++ map formal_instance (if is_same_direction side direction.Out then number ∷ [] else [])) }
{
    match side {
        Dir::Out => {
            all.push(Instance {
                variable: Var::Formal(number),
                mark: Mark::Zero,
            })?;
            Ok(())
        }
        Dir::In => Ok(()),
    }
}

fn next(number: u32) -> Result<u32, AllocError>
    ensures { IfOk result (λ n. n ≡ number + 1) }
{
    match number.checked_add(1) {
        Some(next) => Ok(next),
        None => Err(AllocError),
    }
}

/// The instances of a module: its outputs', and then those of each local with its marks.
#[tactic(auto, using(crate::proofs::Counting::one_local_more))]
pub fn all_instances(alloc: Global, m: &Module) -> Result<Vec<Instance>, AllocError>
    ensures { IfOk result (λ all. map instance_of all.items ≡ instances_of m.now) }
{
    let mut all = outputs_of(alloc, m.formals.as_slice())?;
    for local in 0..m.decls.len() {
        add_local(alloc, m, &mut all, local)?;
    }
    Ok(all)
}

/// Adds the instances of a local.
fn add_local(
    alloc: Global,
    m: &Module,
    all: &mut Vec<Instance>,
    local: usize,
) -> Result<(), AllocError>
    ensures { OnOk result (map instance_of all.new.items
        ≡ map instance_of all.old.items ++ map (local_instance local) (marks_of_local m.now local)) }
{
    match u32::try_from(local) {
        Ok(number) => {
            let marks = marks_of(alloc, m, number)?;
            add_marks(all, number, marks.as_slice())?;
            Ok(())
        }
        Err(_) => Err(AllocError),
    }
}

/// Adds the instances of a local with these marks.
fn add_marks(all: &mut Vec<Instance>, local: u32, marks: &[Mark]) -> Result<(), AllocError>
    ensures { OnOk result (map instance_of all.new.items ≡ map instance_of all.old.items ++ map (local_instance local) marks.now) }
{
    for mark in marks {
        all.push(Instance {
            variable: Var::Local(local),
            mark: *mark,
        })?;
    }
    Ok(())
}

/// For each formal where its value stands.
pub fn carriers_of(alloc: Global, formals: &[Formal]) -> Result<Vec<Carrier>, AllocError> {
    let mut carriers = Vec::new(alloc);
    let mut inputs = 0;
    let mut outputs = 0;
    for formal in formals {
        match formal.dir {
            Dir::In => {
                carriers.push(Carrier::Input(inputs))?;
                inputs = next(inputs)?;
            }
            Dir::Out => {
                carriers.push(Carrier::Instance(outputs))?;
                outputs = next(outputs)?;
            }
        }
    }
    Ok(carriers)
}

/// For each local the number of its instance with mark zero, which are in the order of the locals.
pub fn firsts_of(alloc: Global, all: &[Instance]) -> Result<Vec<u32>, AllocError> {
    let mut firsts = Vec::new(alloc);
    let mut number = 0;
    for instance in all {
        if is_first(*instance) {
            firsts.push(number)?;
        }
        number = next(number)?;
    }
    Ok(firsts)
}

/// Whether it is a local's instance with mark zero.
fn is_first(instance: Instance) -> bool {
    match instance.variable {
        Var::Local(_) => instance.mark == Mark::Zero,
        Var::Formal(_) | Var::Bound(_) => false,
    }
}

/// For each loop how many loops stand round it: a local's instances have the loops round it in their
/// order.
pub fn depths_of(alloc: Global, all: &[Instance], loops: u32) -> Result<Vec<u32>, AllocError> {
    let mut depths = Vec::new(alloc);
    for _ in 0..loops {
        depths.push(0)?;
    }
    let mut round = 0;
    for instance in all {
        match instance.mark {
            Mark::Loop(number) => {
                put(&mut depths, number as usize, round);
                round = next(round)?;
            }
            Mark::Zero | Mark::Here => round = 0,
        }
    }
    Ok(depths)
}

/// Sets one number, if there is such a place.
fn put(numbers: &mut Vec<u32>, place: usize, number: u32) {
    if place < numbers.len() {
        numbers[place] = number;
    }
}
