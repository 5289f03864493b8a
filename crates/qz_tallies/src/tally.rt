//! Tallies, and how they are put together.

ghost use Rattle.std.specs.Prelude.{◌≡◌, ◌<◌, IfOk};
ghost use Rattle.qz_dd.specs.Tables.{Reading, Reads, count, Extends, Carries};
ghost use Rattle.qz_values.specs.declared.Ty.TheVariants.{Bool as Truth};
ghost use Rattle.qz_meaning.specs.Verdicts.{Nobody, verdict_of_one, join};
ghost use Rattle.qz_meaning.specs.Settling.{with_pending};
ghost use Rattle.qz_rails.specs.Bits.{bits_in};
ghost use Rattle.qz_rails.specs.Rails.{IsRail, know_in};

use crate::stored::Stored;
use qz_dd::{DdId, DdOp, Diagrams};
use qz_rails::bits::{chosen, equal, first, opposite};
use qz_rails::{Rail, zeros};
use qz_values::Ty;
use std::alloc::{AllocError, Global};

/// A verdict at each valuation, on a variable of some type. Where `torn` is true its writers
/// contradict one another; else where `one` is true they agree on the value whose bits, the lowest
/// first, are `bits` there; else where `nobody` is true no writer is enabled; else it is open. Where
/// the writers agree on no value the bits are any.
#[derive(Debug, Drop)]
pub struct Tally {
    pub torn: DdId,
    pub one: DdId,
    pub nobody: DdId,
    /// As many as a value of the type has.
    pub bits: Vec<DdId>,
}

impl Tally {
    ghost use Rattle.qz_tallies.specs.Tallies.{are_torn, IsTally, CarriesVerdict, verdict_in};
    ghost use Rattle.qz_tallies.specs.Stores.{AreStored, store_in};

    /// The tally of no writer.
    pub fn without_writers(diagrams: &Diagrams, alloc: Global, ty: Ty) -> Result<Tally, AllocError>
        ensures tally { IfOk result (λ r. IsTally diagrams.now ty r) }
        ensures means { IfOk result (λ r. CarriesVerdict diagrams.now ty r (λ reading. Nobody)) }
    {
        let bits = zeros(diagrams, alloc, ty)?;
        let never = diagrams.constant(false);
        Ok(Tally {
            torn: never,
            one: never,
            nobody: diagrams.constant(true),
            bits,
        })
    }

    /// The tally of what is stored alone: where it is pending it is a writer, and elsewhere there is
    /// none.
    pub fn of_stored(
        diagrams: &mut Diagrams,
        alloc: Global,
        ty: Ty,
        stored: &Stored,
    ) -> Result<Tally, AllocError>
        requires { AreStored diagrams.old ty stored.now }
        ensures extends { Extends diagrams.old diagrams.new }
        ensures tally { IfOk result (λ r. IsTally diagrams.new ty r) }
        ensures means { IfOk result (λ r. CarriesVerdict diagrams.new ty r (λ reading.
            with_pending (store_in reading ty stored.now) Nobody)) }
    {
        let idle = opposite(diagrams, alloc, stored.pending)?;
        let mut bits = Vec::new(alloc);
        bits.extend_from_slice(&stored.bits)?;
        Ok(Tally {
            torn: diagrams.constant(false),
            one: stored.pending,
            nobody: idle,
            bits,
        })
    }

    /// The tally of one writer, by its guard and its value.
    pub fn of_write(
        diagrams: &mut Diagrams,
        alloc: Global,
        ty: Ty,
        guard: &Rail,
        value: &Rail,
    ) -> Result<Tally, AllocError>
        requires guard { IsRail diagrams.old Truth guard.now }
        requires value { IsRail diagrams.old ty value.now }
        ensures extends { Extends diagrams.old diagrams.new }
        ensures tally { IfOk result (λ r. IsTally diagrams.new ty r) }
        ensures means { IfOk result (λ r. CarriesVerdict diagrams.new ty r (λ reading.
            verdict_of_one (know_in reading Truth guard.now) (know_in reading ty value.now))) }
    {
        let side = first(diagrams, &guard.bits);
        let on = diagrams.apply(alloc, DdOp::And, guard.known, side)?;
        let hit = diagrams.apply(alloc, DdOp::And, on, value.clash)?;
        let torn = diagrams.apply(alloc, DdOp::Or, guard.clash, hit)?;
        let one = diagrams.apply(alloc, DdOp::And, on, value.known)?;
        let off = opposite(diagrams, alloc, side)?;
        let nobody = diagrams.apply(alloc, DdOp::And, guard.known, off)?;
        let mut bits = Vec::new(alloc);
        bits.extend_from_slice(&value.bits)?;
        Ok(Tally {
            torn,
            one,
            nobody,
            bits,
        })
    }

    /// The tally of the writers of both.
    pub fn join(
        &self,
        diagrams: &mut Diagrams,
        alloc: Global,
        ty: Ty,
        other: &Tally,
    ) -> Result<Tally, AllocError>
        requires mine { IsTally diagrams.old ty self.now }
        requires other { IsTally diagrams.old ty other.now }
        ensures extends { Extends diagrams.old diagrams.new }
        ensures tally { IfOk result (λ r. IsTally diagrams.new ty r) }
        ensures means { IfOk result (λ r. CarriesVerdict diagrams.new ty r (λ reading.
            join (verdict_in reading ty self.now) (verdict_in reading ty other.now))) }
    {
        let torn = self.torn_with(diagrams, alloc, ty, other)?;
        let one = diagrams.apply(alloc, DdOp::Or, self.one, other.one)?;
        let nobody = diagrams.apply(alloc, DdOp::And, self.nobody, other.nobody)?;
        let bits = chosen(diagrams, alloc, self.one, &self.bits, &other.bits)?;
        Ok(Tally {
            torn,
            one,
            nobody,
            bits,
        })
    }

    /// Where the writers of both contradict one another, among them or with each other.
    fn torn_with(
        &self,
        diagrams: &mut Diagrams,
        alloc: Global,
        ty: Ty,
        other: &Tally,
    ) -> Result<DdId, AllocError>
        requires mine { IsTally diagrams.old ty self.now }
        requires other { IsTally diagrams.old ty other.now }
        ensures extends { Extends diagrams.old diagrams.new }
        ensures below { IfOk result (λ r. r.0 < count diagrams.new) }
        ensures means { IfOk result (λ r. Carries diagrams.new r.0 (λ reading.
            are_torn (reading.values self.now.torn.0) (reading.values self.now.one.0) (bits_in reading self.now.bits.items)
            (reading.values other.now.torn.0) (reading.values other.now.one.0) (bits_in reading other.now.bits.items))) }
    {
        let both = diagrams.apply(alloc, DdOp::And, self.one, other.one)?;
        let same = equal(diagrams, alloc, &self.bits, &other.bits)?;
        let differ = opposite(diagrams, alloc, same)?;
        let contradict = diagrams.apply(alloc, DdOp::And, both, differ)?;
        let either = diagrams.apply(alloc, DdOp::Or, self.torn, other.torn)?;
        let torn = diagrams.apply(alloc, DdOp::Or, either, contradict)?;
        Ok(torn)
    }

    /// The tally with one more writer, by its guard and its value.
    pub fn with_write(
        &self,
        diagrams: &mut Diagrams,
        alloc: Global,
        ty: Ty,
        guard: &Rail,
        value: &Rail,
    ) -> Result<Tally, AllocError>
        requires mine { IsTally diagrams.old ty self.now }
        requires guard { IsRail diagrams.old Truth guard.now }
        requires value { IsRail diagrams.old ty value.now }
        ensures extends { Extends diagrams.old diagrams.new }
        ensures tally { IfOk result (λ r. IsTally diagrams.new ty r) }
        ensures means { IfOk result (λ r. CarriesVerdict diagrams.new ty r (λ reading.
            join (verdict_in reading ty self.now) (verdict_of_one (know_in reading Truth guard.now) (know_in reading ty value.now)))) }
    {
        let write = Tally::of_write(diagrams, alloc, ty, guard, value)?;
        let r = self.join(diagrams, alloc, ty, &write)?;
        Ok(r)
    }
}
