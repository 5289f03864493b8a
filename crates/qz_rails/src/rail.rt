//! Rails.

ghost use Rattle.std.specs.Prelude.{◌≡◌, IfOk};

use qz_dd::DdId;
use std::alloc::{AllocError, Global};

/// What is known of a value of some type at each valuation. Where `clash` is true its writers
/// contradict one another; else where `known` is true it is the value whose bits, the lowest first,
/// are `bits` there; else nothing is known. Where no value is known the bits are any.
#[derive(Debug, Drop)]
pub struct Rail {
    pub clash: DdId,
    pub known: DdId,
    /// As many as a value of the type has.
    pub bits: Vec<DdId>,
}

impl Rail {
    /// The same rail again.
    pub fn copied(&self, alloc: Global) -> Result<Rail, AllocError>
        ensures clash { IfOk result (λ r. r.clash ≡ self.now.clash) }
        ensures known { IfOk result (λ r. r.known ≡ self.now.known) }
        ensures bits { IfOk result (λ r. r.bits.items ≡ self.now.bits.items) }
    {
        let mut bits = Vec::new(alloc);
        bits.extend_from_slice(&self.bits)?;
        Ok(Rail {
            clash: self.clash,
            known: self.known,
            bits,
        })
    }
}
