//! Rails that come of no other rail.

ghost use Rattle.std.specs.Prelude.{length, ◌≡◌, ◌<◌, IfOk, map, ℕ};
ghost use Rattle.std.specs.List.{All};
ghost use Rattle.qz_dd.specs.Tables.{Reading, Reads, count, Extends};
ghost use Rattle.qz_values.specs.declared.Know.TheVariants.{Known, Unknown};
ghost use Rattle.qz_values.specs.Types.{width_of};
ghost use Rattle.qz_values.specs.Values.{IsValue, type_of, value_of};
ghost use Rattle.qz_rails.specs.Bits.{bits_in, number_of, variables_in};
ghost use Rattle.qz_rails.specs.Rails.{IsRail, CarriesKnow};

use crate::numbers::{digits, width, zeros};
use crate::rail::Rail;
use qz_dd::{DdId, Diagrams};
use qz_values::{Ty, Value};
use std::alloc::{AllocError, Global};

/// The rail of one value at every valuation.
pub fn constant(diagrams: &Diagrams, alloc: Global, value: Value) -> Result<Rail, AllocError>
    requires { IsValue value }
    ensures rail { IfOk result (λ r. IsRail diagrams.now (type_of value) r) }
    ensures means { IfOk result (λ r. CarriesKnow diagrams.now (type_of value) r (λ reading. Known value)) }
{
    let bits = digits(diagrams, alloc, value.bits(), width(value.ty()))?;
    Ok(Rail {
        clash: diagrams.constant(false),
        known: diagrams.constant(true),
        bits,
    })
}

/// The rail of a value of this type of which nothing is known at any valuation.
pub fn unknown(diagrams: &Diagrams, alloc: Global, ty: Ty) -> Result<Rail, AllocError>
    ensures rail { IfOk result (λ r. IsRail diagrams.now ty r) }
    ensures means { IfOk result (λ r. CarriesKnow diagrams.now ty r (λ reading. Unknown)) }
{
    let bits = zeros(diagrams, alloc, ty)?;
    let never = diagrams.constant(false);
    Ok(Rail {
        clash: never,
        known: never,
        bits,
    })
}

/// The rail of the value of this type whose bits, the lowest first, are these variables.
pub fn variable(
    diagrams: &mut Diagrams,
    alloc: Global,
    ty: Ty,
    variables: &[u32],
) -> Result<Rail, AllocError>
    requires variables { All (λ v. v < diagrams.old.vars) variables.now }
    requires width { length variables.now ≡ width_of ty }
    ensures extends { Extends diagrams.old diagrams.new }
    ensures rail { IfOk result (λ r. IsRail diagrams.new ty r) }
    ensures means { IfOk result (λ r. CarriesKnow diagrams.new ty r (λ reading.
        Known (value_of ty (number_of (variables_in reading variables.now))))) }
{
    let bits = variable_bits(diagrams, alloc, variables)?;
    Ok(Rail {
        clash: diagrams.constant(false),
        known: diagrams.constant(true),
        bits,
    })
}

/// The functions that these variables are.
fn variable_bits(
    diagrams: &mut Diagrams,
    alloc: Global,
    variables: &[u32],
) -> Result<Vec<DdId>, AllocError>
    requires { All (λ v. v < diagrams.old.vars) variables.now }
    ensures extends { Extends diagrams.old diagrams.new }
    ensures below { IfOk result (λ r. All (λ x. x.0 < count diagrams.new) r.items) }
    ensures size { IfOk result (λ r. length r.items ≡ length variables.now) }
    ensures means { IfOk result (λ r. (reading : Reading) → Reads reading diagrams.new →
        bits_in reading r.items ≡ variables_in reading variables.now) }
{
    let mut all = Vec::new(alloc);
    for v in variables {
        let bit = diagrams.var(alloc, *v)?;
        all.push(bit)?;
    }
    Ok(all)
}
