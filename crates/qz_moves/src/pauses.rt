//! Pauses, where control rests.

ghost use Rattle.std.specs.Prelude.{◌≡◌, ◌∷◌, [], IfOk, OnOk};
ghost use Rattle.qz_values.specs.declared.Know.TheVariants.{Known};
ghost use Rattle.qz_values.specs.Values.{no};
ghost use Rattle.qz_values.specs.Knowledge.{both, either};
ghost use Rattle.qz_meaning.specs.Landings.{At};
ghost use Rattle.qz_control.specs.Leaves.{known_bit};
ghost use Rattle.qz_control.specs.Circuits.{known, Means, Grows, IsBool};
ghost use Rattle.qz_moves.specs.Told.{AreEntered, AreMoved};
ghost use Rattle.qz_moves.specs.Appended.{Appends, AreTests};

use crate::entered::Entered;
use crate::guards::rests_where;
use crate::moved::Moved;
use crate::spots::{NetSpot, rest_at};
use qz_control::Circuit;
use qz_nets::NetId;
use qz_terms::of_pause;
use std::alloc::AllocError;

/// A pause that is started.
pub fn enter_pause(
    circuit: &mut Circuit,
    spots: &mut Vec<NetSpot>,
    place: u32,
    start: NetId,
) -> Result<Entered, AllocError>
    requires start { IsBool circuit.old start }
    ensures grows { OnOk result (Grows circuit.old circuit.new) }
    ensures ty { IfOk result (λ entered. AreEntered circuit.new entered) }
    ensures ends { IfOk result (λ entered. Means circuit.new entered.ends (λ v. Known no)) }
    ensures rests { IfOk result (λ entered. Means circuit.new entered.rests (λ v. known v start)) }
    ensures spots { OnOk result (Appends circuit.new spots.old.items spots.new.items (λ v. (At place, known v start) ∷ [])) }
    ensures tests { OnOk result (AreTests circuit.old spots.old.items → AreTests circuit.new spots.new.items) }
{
    rest_at(spots, place, start)?;
    let ends = circuit.truth(false)?;
    Ok(Entered { ends, rests: start })
}

/// A pause on a resume: control rests there where it does and is to stay, and where it comes there.
pub fn move_pause(
    circuit: &mut Circuit,
    spots: &mut Vec<NetSpot>,
    place: u32,
    stay: NetId,
    start: NetId,
) -> Result<Moved, AllocError>
    requires stay { IsBool circuit.old stay }
    requires start { IsBool circuit.old start }
    ensures grows { OnOk result (Grows circuit.old circuit.new) }
    ensures ty { IfOk result (λ moved. AreMoved circuit.new moved) }
    ensures inside { IfOk result (λ moved. Means circuit.new moved.terms.inside
        (λ v. known_bit (v.leaves.at.place place))) }
    ensures ended { IfOk result (λ moved. Means circuit.new moved.terms.ended
        (λ v. known_bit (v.leaves.at.place place))) }
    ensures ends { IfOk result (λ moved. Means circuit.new moved.terms.ends
        (λ v. Known no)) }
    ensures rests { IfOk result (λ moved. Means circuit.new moved.rests
        (λ v. either (both (known_bit (v.leaves.at.place place)) (known v stay)) (known v start))) }
    ensures spots { OnOk result (Appends circuit.new spots.old.items spots.new.items
        (λ v. (At place, either (both (known_bit (v.leaves.at.place place)) (known v stay)) (known v start)) ∷ [])) }
    ensures tests { OnOk result (AreTests circuit.old spots.old.items → AreTests circuit.new spots.new.items) }
{
    let terms = of_pause(circuit, place)?;
    let rests = rests_where(circuit, terms.inside, stay, start)?;
    rest_at(spots, place, rests)?;
    Ok(Moved { terms, rests })
}
