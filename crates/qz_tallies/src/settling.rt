//! What a variable settles to by its tally.

ghost use Rattle.std.specs.Prelude.{length, ◌≡◌, ◌<◌, IfOk};
ghost use Rattle.std.specs.List.{All};
ghost use Rattle.qz_dd.specs.Tables.{Reading, Reads, count, Extends};
ghost use Rattle.qz_values.specs.Types.{width_of};
ghost use Rattle.qz_values.specs.Values.{value_of};
ghost use Rattle.qz_meaning.specs.Settling.{settled, settled_later};
ghost use Rattle.qz_rails.specs.Bits.{bits_in, number_of};
ghost use Rattle.qz_rails.specs.Rails.{IsRail, CarriesKnow};
ghost use Rattle.qz_tallies.specs.Tallies.{IsTally, verdict_in};
ghost use Rattle.qz_tallies.specs.Stores.{AreStored, store_in, settled_by, later_known};

use crate::stored::Stored;
use crate::tally::Tally;
use qz_dd::{DdId, DdOp, Diagrams};
use qz_rails::bits::chosen;
use qz_rails::{Rail, zeros};
use qz_syntax::Class;
use qz_values::Ty;
use std::alloc::{AllocError, Global};

impl Tally {
    /// The rail that a variable of this class and type settles to by the tally of its present
    /// writers. Where none is enabled an event has its default, and what is kept its stored value.
    pub fn settle(
        &self,
        diagrams: &mut Diagrams,
        alloc: Global,
        class: Class,
        ty: Ty,
        stored: &Stored,
    ) -> Result<Rail, AllocError>
        requires mine { IsTally diagrams.old ty self.now }
        requires stored { AreStored diagrams.old ty stored.now }
        ensures extends { Extends diagrams.old diagrams.new }
        ensures rail { IfOk result (λ r. IsRail diagrams.new ty r) }
        ensures means { IfOk result (λ r. CarriesKnow diagrams.new ty r (λ reading.
            settled class ty (store_in reading ty stored.now) (verdict_in reading ty self.now))) }
    {
        match class {
            Class::Event => {
                let default = zeros(diagrams, alloc, ty)?;
                let r = self.settle_with(diagrams, alloc, ty, &default)?;
                Ok(r)
            }
            Class::Mem => {
                let r = self.settle_with(diagrams, alloc, ty, &stored.bits)?;
                Ok(r)
            }
        }
    }

    /// The rail that a delayed value of this type settles to by the tally of its writers. Where it is
    /// absent the rail says the default.
    pub fn settle_later(
        &self,
        diagrams: &mut Diagrams,
        alloc: Global,
        ty: Ty,
    ) -> Result<Rail, AllocError>
        requires { IsTally diagrams.old ty self.now }
        ensures extends { Extends diagrams.old diagrams.new }
        ensures rail { IfOk result (λ r. IsRail diagrams.new ty r) }
        ensures means { IfOk result (λ r. CarriesKnow diagrams.new ty r (λ reading.
            later_known ty (settled_later (verdict_in reading ty self.now)))) }
    {
        let absent = zeros(diagrams, alloc, ty)?;
        let r = self.settle_with(diagrams, alloc, ty, &absent)?;
        Ok(r)
    }

    /// The rail that the tally settles to, with these bits where no writer is enabled.
    fn settle_with(
        &self,
        diagrams: &mut Diagrams,
        alloc: Global,
        ty: Ty,
        otherwise: &[DdId],
    ) -> Result<Rail, AllocError>
        requires mine { IsTally diagrams.old ty self.now }
        requires otherwise { All (λ x. x.0 < count diagrams.old) otherwise.now }
        requires width { length otherwise.now ≡ width_of ty }
        ensures extends { Extends diagrams.old diagrams.new }
        ensures rail { IfOk result (λ r. IsRail diagrams.new ty r) }
        ensures means { IfOk result (λ r. CarriesKnow diagrams.new ty r (λ reading.
            settled_by (value_of ty (number_of (bits_in reading otherwise.now))) (verdict_in reading ty self.now))) }
    {
        let known = diagrams.apply(alloc, DdOp::Or, self.one, self.nobody)?;
        let bits = chosen(diagrams, alloc, self.one, &self.bits, otherwise)?;
        Ok(Rail {
            clash: self.torn,
            known,
            bits,
        })
    }
}
