//! What is so after a step, each thing with its net.

ghost use Rattle.std.specs.Prelude.{◌≡◌, None, OnOk, if◌then◌else◌};
ghost use Rattle.qz_values.specs.declared.Know.TheVariants.{Known};
ghost use Rattle.qz_values.specs.Values.{no};
ghost use Rattle.qz_values.specs.Knowledge.{either};
ghost use Rattle.qz_control.specs.Circuits.{View, Views, known, Means, Grows, IsBool};
ghost use Rattle.qz_moves.specs.declared.spots.Rest.{Rest};
ghost use Rattle.qz_moves.specs.Appended.{spot_of};
ghost use Rattle.qz_local.specs.Joined.{says};
ghost use Rattle.qz_local.specs.Nets.{net_of, next_known, HasBools};

use indexmap::IndexMap;
use qz_control::Circuit;
use qz_moves::{NetSpot, Rest};
use qz_nets::NetId;
use std::alloc::{AllocError, Global};

/// What is so after a step: places where control rests, and the locals' copies that are carried, in the
/// order in which the walk came by them, each once. What isn't among them is never so.
#[derive(Drop)]
pub struct Nexts {
    pub nets: IndexMap<Rest, NetId>,
}

impl Nexts {
    /// Nothing is so.
    pub(crate) fn new(alloc: Global) -> Nexts
        ensures { (rest : Rest) → net_of result rest ≡ None }
    {
        Nexts {
            nets: IndexMap::new(alloc),
        }
    }

    /// The net of a place or a copy, if it is ever so.
    pub fn net(&self, rest: Rest) -> Option<NetId>
        ensures { result ≡ net_of self.now rest }
    {
        self.nets.get(&rest).copied()
    }

    /// Joins the net of a spot to that of what it says, where `never` is the net of what is never so.
    ///
    /// # Errors
    ///
    /// Want of memory alone.
    pub(crate) fn add(
        &mut self,
        circuit: &mut Circuit,
        never: NetId,
        spot: NetSpot,
    ) -> Result<(), AllocError>
        requires bools { HasBools circuit.old self.old }
        requires never { IsBool circuit.old never }
        requires no { Means circuit.old never (λ v. Known no) }
        requires when { IsBool circuit.old spot.when }
        ensures grows { OnOk result (Grows circuit.old circuit.new) }
        ensures bools { OnOk result (HasBools circuit.new self.new) }
        ensures joins { OnOk result ((v : View) → Views v circuit.new → (rest : Rest) →
            next_known v self.new rest
            ≡ (if says rest (spot_of spot.rest) then either (next_known v self.old rest) (known v spot.when) else next_known v self.old rest)) }
    {
        let before = self.net(spot.rest).unwrap_or(never);
        let when = circuit.or(before, spot.when)?;
        self.nets.insert(spot.rest, when)?;
        Ok(())
    }
}
