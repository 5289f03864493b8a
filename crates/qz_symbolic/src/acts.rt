//! The tallies of the instances' acts.

ghost use Rattle.std.specs.Prelude.{◌≡◌, ◌<◌, IfOk, OnOk, Some, length, true};
ghost use Rattle.qz_dd.specs.Tables.{Extends};
ghost use Rattle.qz_system.specs.declared.parts.SystemParts.{SystemParts as PartsOf};
ghost use Rattle.qz_system.specs.Parts.{AreParts, instance_type, is_act_right};
ghost use Rattle.qz_symbolic.specs.Knowing.{AreOfTypes, HaveTallies, AreEmpty, HaveAct, AreTallies};

use qz_dd::Diagrams;
use qz_rails::Rail;
use qz_system::{Act, SystemParts};
use qz_tallies::Tally;
use qz_values::Ty;
use std::alloc::{AllocError, Global};

/// For each instance the tally of the acts on its value or, where `delayed` is true, of those on its
/// delayed value; from the rails of the nets.
pub(crate) fn tallies_of(
    diagrams: &mut Diagrams,
    alloc: Global,
    parts: &SystemParts,
    nets: &[Rail],
    delayed: bool,
) -> Result<Vec<Tally>, AllocError>
    requires parts { AreParts parts.now }
    requires nets { AreOfTypes diagrams.old parts.now nets.now }
    ensures extends { Extends diagrams.old diagrams.new }
    ensures tallies { IfOk result (λ r. AreTallies diagrams.new parts.now nets.now delayed r.items) }
{
    let mut tallies = without_acts(diagrams, alloc, parts)?;
    for act in parts.acts.as_slice() {
        add_act(diagrams, alloc, parts, nets, delayed, *act, &mut tallies)?;
    }
    Ok(tallies)
}

/// For each instance the tally of no act.
fn without_acts(
    diagrams: &Diagrams,
    alloc: Global,
    parts: &SystemParts,
) -> Result<Vec<Tally>, AllocError>
    requires { AreParts parts.now }
    ensures have { IfOk result (λ r. HaveTallies diagrams.now parts.now r.items) }
    ensures says { IfOk result (λ r. AreEmpty diagrams.now parts.now r.items) }
{
    let mut all = Vec::new(alloc);
    for n in 0..parts.instances.len() {
        let one = Tally::without_writers(diagrams, alloc, type_of_instance(parts, n))?;
        all.push(one)?;
    }
    Ok(all)
}

/// Adds an act to the tally of its instance, if it is delayed or not as is asked.
fn add_act(
    diagrams: &mut Diagrams,
    alloc: Global,
    parts: &SystemParts,
    nets: &[Rail],
    delayed: bool,
    act: Act,
    tallies: &mut Vec<Tally>,
) -> Result<(), AllocError>
    requires parts { AreParts parts.now }
    requires nets { AreOfTypes diagrams.old parts.now nets.now }
    requires act { is_act_right parts.now act ≡ true }
    requires tallies { HaveTallies diagrams.old parts.now tallies.old.items }
    ensures extends { Extends diagrams.old diagrams.new }
    ensures have { OnOk result (HaveTallies diagrams.new parts.now tallies.new.items) }
    ensures says { OnOk result (HaveAct diagrams.new parts.now nets.now delayed act tallies.old.items tallies.new.items) }
{
    if act.delayed != delayed {
        return Ok(());
    }
    let number = act.instance as usize;
    let ty = type_of_instance(parts, number);
    let guard = &nets[act.guard.0 as usize];
    let value = &nets[act.value.0 as usize];
    let more = tallies[number].with_write(diagrams, alloc, ty, guard, value)?;
    tallies[number] = more;
    Ok(())
}

/// The type of an instance.
pub(crate) fn type_of_instance(parts: &SystemParts, n: usize) -> Ty
    requires parts { AreParts parts.now }
    requires there { n < length parts.now.instances }
    ensures { instance_type parts.now n ≡ Some result }
{
    let one = &parts.instances.as_slice()[n];
    let cell = &parts.cells.as_slice()[one.cell as usize];
    cell.ty
}
