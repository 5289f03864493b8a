//! What is told of a statement in which control moves, and how it comes from what is told of its parts.

ghost use Rattle.std.specs.Prelude.{◌≡◌, IfOk, OnOk};
ghost use Rattle.qz_values.specs.declared.Know.TheVariants.{Known};
ghost use Rattle.qz_values.specs.Values.{yes, no};
ghost use Rattle.qz_values.specs.Knowledge.{both, either, opposite, choose_of};
ghost use Rattle.qz_control.specs.Circuits.{known, Means, Grows, IsBool};
ghost use Rattle.qz_control.specs.Guarded.{where_inside};
ghost use Rattle.qz_moves.specs.Told.{AreMoved};

use qz_control::Circuit;
use qz_nets::NetId;
use qz_terms::{Terms, at_once, in_turn, none_inside, of_choice, passing};
use std::alloc::AllocError;

/// Nets that tell of a statement in which control moves.
#[derive(Clone, Copy, Debug)]
pub struct Moved {
    /// Of the step itself.
    pub terms: Terms,
    /// Whether control rests anywhere in it after the step.
    pub rests: NetId,
}

/// Of a statement in which control never rests.
pub fn moved_nowhere(circuit: &mut Circuit) -> Result<Moved, AllocError>
    ensures grows { OnOk result (Grows circuit.old circuit.new) }
    ensures ty { IfOk result (λ moved. AreMoved circuit.new moved) }
    ensures inside { IfOk result (λ moved. Means circuit.new moved.terms.inside (λ v. Known no)) }
    ensures ended { IfOk result (λ moved. Means circuit.new moved.terms.ended (λ v. Known no)) }
    ensures ends { IfOk result (λ moved. Means circuit.new moved.terms.ends (λ v. Known yes)) }
    ensures rests { IfOk result (λ moved. Means circuit.new moved.rests (λ v. Known no)) }
{
    let terms = passing(circuit)?;
    let rests = circuit.truth(false)?;
    Ok(Moved { terms, rests })
}

/// Of no members at all, which count as ended.
pub fn moved_in_none(circuit: &mut Circuit) -> Result<Moved, AllocError>
    ensures grows { OnOk result (Grows circuit.old circuit.new) }
    ensures ty { IfOk result (λ moved. AreMoved circuit.new moved) }
    ensures inside { IfOk result (λ moved. Means circuit.new moved.terms.inside (λ v. Known no)) }
    ensures ended { IfOk result (λ moved. Means circuit.new moved.terms.ended (λ v. Known yes)) }
    ensures ends { IfOk result (λ moved. Means circuit.new moved.terms.ends (λ v. Known yes)) }
    ensures rests { IfOk result (λ moved. Means circuit.new moved.rests (λ v. Known no)) }
{
    let terms = none_inside(circuit)?;
    let rests = circuit.truth(false)?;
    Ok(Moved { terms, rests })
}

/// Of some members of a sequence and one more.
pub fn moved_in_turn(circuit: &mut Circuit, so_far: Moved, part: Moved) -> Result<Moved, AllocError>
    requires so_far { AreMoved circuit.old so_far }
    requires part { AreMoved circuit.old part }
    ensures grows { OnOk result (Grows circuit.old circuit.new) }
    ensures ty { IfOk result (λ moved. AreMoved circuit.new moved) }
    ensures inside { IfOk result (λ moved. Means circuit.new moved.terms.inside (λ v. either (known v so_far.terms.inside) (known v part.terms.inside))) }
    ensures ended { IfOk result (λ moved. Means circuit.new moved.terms.ended (λ v.
        choose_of (known v part.terms.inside) (known v part.terms.ended)
        (where_inside (known v so_far.terms.inside) (both (known v so_far.terms.ended) (known v part.terms.ends))))) }
    ensures ends { IfOk result (λ moved. Means circuit.new moved.terms.ends (λ v. both (known v so_far.terms.ends) (known v part.terms.ends))) }
    ensures rests { IfOk result (λ moved. Means circuit.new moved.rests (λ v. either (known v so_far.rests) (known v part.rests))) }
{
    let terms = in_turn(circuit, so_far.terms, part.terms)?;
    let rests = circuit.or(so_far.rests, part.rests)?;
    Ok(Moved { terms, rests })
}

/// Of some members that go on all at once, and one more.
pub fn moved_at_once(circuit: &mut Circuit, so_far: Moved, part: Moved) -> Result<Moved, AllocError>
    requires so_far { AreMoved circuit.old so_far }
    requires part { AreMoved circuit.old part }
    ensures grows { OnOk result (Grows circuit.old circuit.new) }
    ensures ty { IfOk result (λ moved. AreMoved circuit.new moved) }
    ensures inside { IfOk result (λ moved. Means circuit.new moved.terms.inside (λ v. either (known v so_far.terms.inside) (known v part.terms.inside))) }
    ensures ended { IfOk result (λ moved. Means circuit.new moved.terms.ended (λ v.
        choose_of (known v part.terms.inside) (both (known v so_far.terms.ended) (known v part.terms.ended)) (known v so_far.terms.ended))) }
    ensures ends { IfOk result (λ moved. Means circuit.new moved.terms.ends (λ v. both (known v so_far.terms.ends) (known v part.terms.ends))) }
    ensures rests { IfOk result (λ moved. Means circuit.new moved.rests (λ v. either (known v so_far.rests) (known v part.rests))) }
{
    let terms = at_once(circuit, so_far.terms, part.terms)?;
    let rests = circuit.or(so_far.rests, part.rests)?;
    Ok(Moved { terms, rests })
}

/// Of an `if`, from its sides.
pub fn moved_choice(
    circuit: &mut Circuit,
    condition: NetId,
    first: Moved,
    second: Moved,
) -> Result<Moved, AllocError>
    requires condition { IsBool circuit.old condition }
    requires first { AreMoved circuit.old first }
    requires second { AreMoved circuit.old second }
    ensures grows { OnOk result (Grows circuit.old circuit.new) }
    ensures ty { IfOk result (λ moved. AreMoved circuit.new moved) }
    ensures inside { IfOk result (λ moved. Means circuit.new moved.terms.inside (λ v. either (known v first.terms.inside) (known v second.terms.inside))) }
    ensures ended { IfOk result (λ moved. Means circuit.new moved.terms.ended (λ v.
        choose_of (known v first.terms.inside) (known v first.terms.ended) (known v second.terms.ended))) }
    ensures ends { IfOk result (λ moved. Means circuit.new moved.terms.ends (λ v.
        either (both (known v condition) (known v first.terms.ends)) (both (opposite (known v condition)) (known v second.terms.ends)))) }
    ensures rests { IfOk result (λ moved. Means circuit.new moved.rests (λ v. either (known v first.rests) (known v second.rests))) }
{
    let terms = of_choice(circuit, condition, first.terms, second.terms)?;
    let rests = circuit.or(first.rests, second.rests)?;
    Ok(Moved { terms, rests })
}
