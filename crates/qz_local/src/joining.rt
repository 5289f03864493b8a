//! Spots that say the same, joined.

ghost use Rattle.std.specs.Prelude.{◌≡◌, IfOk, OnOk};
ghost use Rattle.qz_values.specs.declared.Know.TheVariants.{Known};
ghost use Rattle.qz_values.specs.Values.{no};
ghost use Rattle.qz_control.specs.Circuits.{View, Views, Grows};
ghost use Rattle.qz_moves.specs.declared.spots.Rest.{Rest};
ghost use Rattle.qz_moves.specs.Appended.{read_spots, AreTests};
ghost use Rattle.qz_local.specs.Joined.{joined};
ghost use Rattle.qz_local.specs.Nets.{next_known, HasBools};

use crate::nexts::Nexts;
use qz_control::Circuit;
use qz_moves::NetSpot;
use std::alloc::{AllocError, Global};

/// One net for each place and each copy of a local: whether any of the spots that say it is so.
///
/// # Errors
///
/// Want of memory alone.
pub fn join(alloc: Global, circuit: &mut Circuit, spots: &[NetSpot]) -> Result<Nexts, AllocError>
    requires { AreTests circuit.old spots.now }
    ensures grows { OnOk result (Grows circuit.old circuit.new) }
    ensures bools { IfOk result (λ all. HasBools circuit.new all) }
    ensures joins { IfOk result (λ all. (v : View) → Views v circuit.new → (rest : Rest) →
        next_known v all rest ≡ joined rest (Known no) (read_spots v spots.now)) }
{
    let mut all = Nexts::new(alloc);
    let never = circuit.truth(false)?;
    for spot in spots {
        all.add(circuit, never, *spot)?;
    }
    Ok(all)
}
