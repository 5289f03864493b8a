//! Rounds at every valuation at once.

ghost use Rattle.std.specs.Prelude.{ℕ, ◌≡◌, IfOk, length};
ghost use Rattle.qz_dd.specs.Tables.{Reading, Reads, Extends};
ghost use Rattle.qz_values.specs.declared.Know.{Know as KnowOf};
ghost use Rattle.qz_system.specs.declared.parts.SystemParts.{SystemParts as PartsOf};
ghost use Rattle.qz_system.specs.declared.valuation.Valuation.{Valuation as ValuationOf};
ghost use Rattle.qz_system.specs.Parts.{AreParts};
ghost use Rattle.qz_system.specs.Rounds.{AreSettledBy};
ghost use Rattle.qz_symbolic.specs.Variables.{AreVariables};
ghost use Rattle.qz_symbolic.specs.Telling.{AreInstanceRails, knows_in, laters_in};
ghost use Rattle.qz_symbolic.specs.Views.{Views, AreStoresOf, AreLives};
ghost use Rattle.qz_symbolic.specs.Knowing.{AreOfTypes, AreKnown};
ghost use Rattle.qz_symbolic.specs.Rounds.{IsNothing, TellsFirstRound, TellsRound};

use crate::acts::{tallies_of, type_of_instance};
use crate::leaves::rails_of_nets;
use crate::rails::InstanceRails;
use crate::settling::{Kept, Tallied, settle_all};
use crate::spelled::{lives_of, places_of, stores_of};
use crate::variables::Variables;
use qz_dd::Diagrams;
use qz_rails::{Rail, unknown};
use qz_system::{System, SystemParts};
use qz_values::Ty;
use std::alloc::{AllocError, Global};

/// Round 0: nothing is known of any instance at any valuation.
pub fn first_round(
    diagrams: &Diagrams,
    alloc: Global,
    s: &System,
) -> Result<Vec<InstanceRails>, AllocError>
    ensures rails { IfOk result (λ rails. AreInstanceRails diagrams.now s.now.parts rails.items) }
    ensures tells { IfOk result (λ rails. TellsFirstRound diagrams.now s.now.parts rails.items) }
{
    let parts = s.parts();
    let mut all = Vec::new(alloc);
    for n in 0..parts.instances.len() {
        let one = nothing(diagrams, alloc, type_of_instance(parts, n))?;
        all.push(one)?;
    }
    Ok(all)
}

/// The rails of an instance of which nothing is known.
fn nothing(diagrams: &Diagrams, alloc: Global, ty: Ty) -> Result<InstanceRails, AllocError>
    ensures { IfOk result (λ r. IsNothing diagrams.now ty r) }
{
    let now = unknown(diagrams, alloc, ty)?;
    let later = unknown(diagrams, alloc, ty)?;
    Ok(InstanceRails {
        now,
        later,
        absent: diagrams.constant(false),
    })
}

/// The round after one in which this was known of the instances, in instance order.
///
/// The time is linear in the system, but for that of the diagrams' operations.
pub fn round(
    diagrams: &mut Diagrams,
    alloc: Global,
    s: &System,
    variables: &Variables,
    before: &[InstanceRails],
) -> Result<Vec<InstanceRails>, AllocError>
    requires variables { AreVariables s.now.parts variables.now }
    requires count { diagrams.old.vars ≡ variables.now.count }
    requires before { AreInstanceRails diagrams.old s.now.parts before.now }
    ensures extends { Extends diagrams.old diagrams.new }
    ensures rails { IfOk result (λ rails. AreInstanceRails diagrams.new s.now.parts rails.items) }
    ensures tells { IfOk result (λ rails. TellsRound diagrams.new s.now.parts before.now rails.items) }
{
    let parts = s.parts();
    let nets = rails_of_nets(diagrams, alloc, parts, variables, before)?;
    let r = settle_by(diagrams, alloc, parts, variables, &nets)?;
    Ok(r)
}

/// The rails of the instances, by those of the nets.
fn settle_by(
    diagrams: &mut Diagrams,
    alloc: Global,
    parts: &SystemParts,
    variables: &Variables,
    nets: &[Rail],
) -> Result<Vec<InstanceRails>, AllocError>
    requires parts { AreParts parts.now }
    requires variables { AreVariables parts.now variables.now }
    requires count { diagrams.old.vars ≡ variables.now.count }
    requires nets { AreOfTypes diagrams.old parts.now nets.now }
    ensures extends { Extends diagrams.old diagrams.new }
    ensures rails { IfOk result (λ r. AreInstanceRails diagrams.new parts.now r.items) }
    ensures settled { IfOk result (λ r. (reading : Reading) (v : ValuationOf) → Views diagrams.new parts.now v reading →
        (know : ℕ → KnowOf) → AreKnown parts.now reading nets.now know →
        AreSettledBy parts.now v know (knows_in reading parts.now r.items) (laters_in reading parts.now r.items)) }
{
    let places = places_of(diagrams, alloc, parts)?;
    let stores = stores_of(diagrams, alloc, parts, variables)?;
    let lives = lives_of(diagrams, alloc, parts, &places)?;
    let kept = Kept {
        stores: &stores,
        lives: &lives,
    };
    let r = settle_with(diagrams, alloc, parts, nets, kept)?;
    Ok(r)
}

/// The same with what is kept.
fn settle_with(
    diagrams: &mut Diagrams,
    alloc: Global,
    parts: &SystemParts,
    nets: &[Rail],
    kept: Kept,
) -> Result<Vec<InstanceRails>, AllocError>
    requires parts { AreParts parts.now }
    requires nets { AreOfTypes diagrams.old parts.now nets.now }
    requires stores { AreStoresOf diagrams.old parts.now kept.stores.now }
    requires lives { AreLives diagrams.old parts.now kept.lives.now }
    ensures extends { Extends diagrams.old diagrams.new }
    ensures rails { IfOk result (λ r. AreInstanceRails diagrams.new parts.now r.items) }
    ensures settled { IfOk result (λ r. (reading : Reading) (v : ValuationOf) → Views diagrams.new parts.now v reading →
        (know : ℕ → KnowOf) → AreKnown parts.now reading nets.now know →
        AreSettledBy parts.now v know (knows_in reading parts.now r.items) (laters_in reading parts.now r.items)) }
{
    let now = tallies_of(diagrams, alloc, parts, nets, false)?;
    let later = tallies_of(diagrams, alloc, parts, nets, true)?;
    let tallied = Tallied {
        now: &now,
        later: &later,
    };
    let r = settle_all(diagrams, alloc, parts, kept, tallied)?;
    Ok(r)
}
