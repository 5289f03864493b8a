//! The instances of formals.

ghost use Rattle.std.specs.Prelude.{◌≡◌, ◌++◌, ◌∷◌, [], map, IfOk, OnOk, if◌then◌else◌};
ghost use Rattle.qz_meaning.specs.Instances.{formal_instance};
ghost use Rattle.qz_meaning.specs.Programs.{numbers_in, is_same_direction};
ghost use Rattle.qz_react.specs.Seeing.{instance_of};

use crate::ports::is_same_direction;
use crate::shapes::sum;
use qz_react::Instance;
use qz_syntax::{Dir, Formal, Mark, Var};
use std::alloc::{AllocError, Global};

/// The instances of the formals of one direction, in their order.
#[tactic(auto, using(crate::proofs::Listed::formal_more))]
pub(crate) fn formals_in(
    alloc: Global,
    side: Dir,
    formals: &[Formal],
) -> Result<Vec<Instance>, AllocError>
    ensures { IfOk result (λ all. map instance_of all.items ≡ map formal_instance (numbers_in side 0 formals.now)) }
{
    let mut all = Vec::new(alloc);
    let mut number = 0;
    for formal in formals {
        add_formal(&mut all, side, formal.dir, number)?;
        number = sum(number, 1)?;
    }
    Ok(all)
}

/// Adds the instance of a formal if it has this direction.
fn add_formal(
    all: &mut Vec<Instance>,
    side: Dir,
    direction: Dir,
    number: u32,
) -> Result<(), AllocError>
    ensures { OnOk result (map instance_of all.new.items
        ≡ map instance_of all.old.items ++ map formal_instance (if is_same_direction direction side then number ∷ [] else [])) }
{
    if is_same_direction(direction, side) {
        all.push(formal_instance(number))?;
    }
    Ok(())
}

/// The instance of a formal.
pub(crate) fn formal_instance(number: u32) -> Instance
    ensures { instance_of result ≡ formal_instance number }
{
    Instance {
        variable: Var::Formal(number),
        mark: Mark::Zero,
    }
}
