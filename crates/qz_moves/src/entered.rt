//! What is told of a statement that is started, and how it comes from what is told of its parts.

ghost use Rattle.std.specs.Prelude.{◌≡◌, IfOk, OnOk};
ghost use Rattle.qz_values.specs.declared.Know.TheVariants.{Known};
ghost use Rattle.qz_values.specs.Values.{yes, no};
ghost use Rattle.qz_values.specs.Knowledge.{both, either, opposite};
ghost use Rattle.qz_control.specs.Circuits.{known, Means, Grows, IsBool};
ghost use Rattle.qz_moves.specs.Told.{AreEntered};

use qz_control::Circuit;
use qz_nets::NetId;
use qz_terms::ends_of_choice;
use std::alloc::AllocError;

/// Nets that tell of a statement that is started.
#[derive(Clone, Copy, Debug)]
pub struct Entered {
    /// Whether the start ends in the same step, whatever its guard.
    pub ends: NetId,
    /// Whether control rests anywhere in it after the step.
    pub rests: NetId,
}

/// Of a statement in which control never rests.
pub fn entered_nowhere(circuit: &mut Circuit) -> Result<Entered, AllocError>
    ensures grows { OnOk result (Grows circuit.old circuit.new) }
    ensures ty { IfOk result (λ entered. AreEntered circuit.new entered) }
    ensures ends { IfOk result (λ entered. Means circuit.new entered.ends (λ v. Known yes)) }
    ensures rests { IfOk result (λ entered. Means circuit.new entered.rests (λ v. Known no)) }
{
    let ends = circuit.truth(true)?;
    let rests = circuit.truth(false)?;
    Ok(Entered { ends, rests })
}

/// Of some members and one more.
pub fn entered_more(
    circuit: &mut Circuit,
    so_far: Entered,
    part: Entered,
) -> Result<Entered, AllocError>
    requires so_far { AreEntered circuit.old so_far }
    requires part { AreEntered circuit.old part }
    ensures grows { OnOk result (Grows circuit.old circuit.new) }
    ensures ty { IfOk result (λ entered. AreEntered circuit.new entered) }
    ensures ends { IfOk result (λ entered. Means circuit.new entered.ends (λ v. both (known v so_far.ends) (known v part.ends))) }
    ensures rests { IfOk result (λ entered. Means circuit.new entered.rests (λ v. either (known v so_far.rests) (known v part.rests))) }
{
    let ends = circuit.and(so_far.ends, part.ends)?;
    let rests = circuit.or(so_far.rests, part.rests)?;
    Ok(Entered { ends, rests })
}

/// Of an `if`, from its sides.
pub fn entered_choice(
    circuit: &mut Circuit,
    condition: NetId,
    first: Entered,
    second: Entered,
) -> Result<Entered, AllocError>
    requires condition { IsBool circuit.old condition }
    requires first { AreEntered circuit.old first }
    requires second { AreEntered circuit.old second }
    ensures grows { OnOk result (Grows circuit.old circuit.new) }
    ensures ty { IfOk result (λ entered. AreEntered circuit.new entered) }
    ensures ends { IfOk result (λ entered. Means circuit.new entered.ends (λ v.
        either (both (known v condition) (known v first.ends)) (both (opposite (known v condition)) (known v second.ends)))) }
    ensures rests { IfOk result (λ entered. Means circuit.new entered.rests (λ v. either (known v first.rests) (known v second.rests))) }
{
    let ends = ends_of_choice(circuit, condition, first.ends, second.ends)?;
    let rests = circuit.or(first.rests, second.rests)?;
    Ok(Entered { ends, rests })
}
