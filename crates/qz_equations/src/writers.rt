//! What the writers to each instance come to, in one pass over the acts.

ghost use Rattle.std.specs.Prelude.{◌≡◌, ℕ, true, IfOk, OnOk, Some, length, if◌then◌else◌};
ghost use Rattle.qz_values.specs.declared.Know.{Know};
ghost use Rattle.qz_nets.specs.Readings.{count};
ghost use Rattle.qz_verilog.specs.Meaning.{Nets};
ghost use Rattle.qz_meaning.specs.Verdicts.{Verdict, Nobody, join};
ghost use Rattle.qz_system.specs.Parts.{AreParts, is_act_right};
ghost use Rattle.qz_system.specs.Writers.{is_to, verdict_of_act, verdict_of};
ghost use Rattle.qz_wires.specs.WireTable.{types_in, Reads, Extends};
ghost use Rattle.qz_wires.specs.Rails.{ShowEach};
ghost use Rattle.qz_wires.specs.NetRails.{AreNetRails};
ghost use Rattle.qz_equations.specs.Tallies.{ShowVerdicts};
ghost use Rattle.qz_equations.specs.Unrolled.{AreTallies};

use crate::instances::type_of;
use crate::tallies::{Tally, nobody, one_more};
use qz_system::{Act, SystemParts};
use qz_wires::{Rail, Wires};
use std::alloc::{AllocError, Global};

/// The verdict on each instance's delayed writers, or on its present ones, by the instances' numbers.
pub fn tallies(
    alloc: Global,
    wires: &mut Wires,
    parts: &SystemParts,
    nets: &[Rail],
    delayed: bool,
) -> Result<Vec<Tally>, AllocError>
    requires parts { AreParts parts.now }
    requires nets { AreNetRails (types_in wires.old) parts.now.table nets.now }
    requires size { length nets.now ≡ count parts.now.table }
    ensures extends { OnOk result (Extends wires.old wires.new) }
    ensures tallies { IfOk result (λ tallies. AreTallies (types_in wires.new) parts.now tallies.items) }
    ensures means { IfOk result (λ tallies. (settled : Nets) → Reads settled wires.new → (know : ℕ → Know) → ShowEach settled nets.now know →
        ShowVerdicts settled tallies.items (λ n. verdict_of know n delayed parts.now.acts)) }
{
    let mut tallies = no_writers(alloc, wires, parts)?;
    for act in parts.acts.as_slice() {
        add_act(wires, parts, nets, delayed, *act, &mut tallies)?;
    }
    Ok(tallies)
}

/// No writer to any instance.
fn no_writers(
    alloc: Global,
    wires: &mut Wires,
    parts: &SystemParts,
) -> Result<Vec<Tally>, AllocError>
    requires parts { AreParts parts.now }
    ensures extends { OnOk result (Extends wires.old wires.new) }
    ensures tallies { IfOk result (λ tallies. AreTallies (types_in wires.new) parts.now tallies.items) }
    ensures means { IfOk result (λ tallies. (settled : Nets) → Reads settled wires.new → ShowVerdicts settled tallies.items (λ n. Nobody)) }
{
    let mut tallies = Vec::new(alloc);
    for number in 0..parts.instances.len() {
        let tally = nobody(wires, type_of(parts, number))?;
        tallies.push(tally)?;
    }
    Ok(tallies)
}

/// Counts one act, if it is one of the kind.
fn add_act(
    wires: &mut Wires,
    parts: &SystemParts,
    nets: &[Rail],
    delayed: bool,
    act: Act,
    tallies: &mut Vec<Tally>,
) -> Result<(), AllocError>
    requires parts { AreParts parts.now }
    requires act { is_act_right parts.now act ≡ true }
    requires nets { AreNetRails (types_in wires.old) parts.now.table nets.now }
    requires size { length nets.now ≡ count parts.now.table }
    requires tallies { AreTallies (types_in wires.old) parts.now tallies.old.items }
    ensures extends { OnOk result (Extends wires.old wires.new) }
    ensures tallies { OnOk result (AreTallies (types_in wires.new) parts.now tallies.new.items) }
    ensures means { OnOk result ((settled : Nets) → Reads settled wires.new → (know : ℕ → Know) → ShowEach settled nets.now know →
        (verdicts : ℕ → Verdict) → ShowVerdicts settled tallies.old.items verdicts →
        ShowVerdicts settled tallies.new.items (λ n. if is_to n delayed act then join (verdicts n) (verdict_of_act know act) else verdicts n)) }
{
    if act.delayed != delayed {
        return Ok(());
    }
    let number = act.instance as usize;
    let ty = type_of(parts, number);
    let guard = nets[act.guard.0 as usize];
    let value = nets[act.value.0 as usize];
    let tally = one_more(wires, ty, tallies[number], guard, value)?;
    tallies[number] = tally;
    Ok(())
}
