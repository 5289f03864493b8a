//! Valuations, as bits of the variables spell them.

ghost use Rattle.std.specs.Prelude.{ℕ, ◌≡◌, ◌+◌, ◌<◌, ◌≤◌, IfOk, Some, Bool, false, map, drop, take, length, slice_get, slice_index_or};
ghost use Rattle.std.specs.List.{All};
ghost use Rattle.qz_rails.specs.Bits.{number_of};
ghost use Rattle.qz_system.specs.declared.parts.SystemParts.{SystemParts as PartsOf};
ghost use Rattle.qz_system.specs.Parts.{AreParts};
ghost use Rattle.qz_symbolic.specs.Variables.{AreVariables, Spells};
ghost use Rattle.qz_symbolic.specs.Spelling.{spelled_number, IsStoreRead, IsInputRead};

use crate::variables::{CellVariables, InputVariables, Variables};
use qz_system::{System, SystemParts, Valuation};
use std::alloc::{AllocError, Global};

impl Variables {
    ghost use Rattle.std.specs.Prelude.{◌≡◌, IfOk, length};
    ghost use Rattle.qz_symbolic.specs.Variables.{AreVariables, Spells};

    /// The valuation that these bits of the variables spell.
    pub fn valuation(
        &self,
        alloc: Global,
        s: &System,
        bits: &[bool],
    ) -> Result<Valuation, AllocError>
        requires variables { AreVariables s.now.parts self.now }
        requires bits { length bits.now ≡ self.now.count }
        ensures { IfOk result (λ v. Spells s.now.parts v bits.now) }
    {
        let parts = s.parts();
        let places = places_spelled(alloc, bits, parts.places.len())?;
        let stores = stores_spelled(alloc, parts, self, bits)?;
        let inputs = inputs_spelled(alloc, parts, self, bits)?;
        Ok(Valuation {
            started: first(bits),
            places,
            stores,
            inputs,
        })
    }
}

/// The first bit.
fn first(bits: &[bool]) -> bool
    requires { 0 < length bits.now }
    ensures { result ≡ slice_index_or bits.now 0 false }
{
    bits[0]
}

/// So many bits, from the second on.
fn places_spelled(alloc: Global, bits: &[bool], count: usize) -> Result<Vec<bool>, AllocError>
    requires { 1 + count ≤ length bits.now }
    ensures long { IfOk result (λ r. length r.items ≡ count) }
    ensures each { IfOk result (λ r. (n : ℕ) → n < count → slice_index_or r.items n false ≡ slice_index_or bits.now (n + 1) false) }
{
    let mut all = Vec::new(alloc);
    for place in 0..count {
        all.push(bits[place + 1])?;
    }
    Ok(all)
}

/// The store of each cell.
fn stores_spelled(
    alloc: Global,
    parts: &SystemParts,
    variables: &Variables,
    bits: &[bool],
) -> Result<Vec<(bool, u64)>, AllocError>
    requires parts { AreParts parts.now }
    requires variables { AreVariables parts.now variables.now }
    requires bits { length bits.now ≡ variables.now.count }
    ensures long { IfOk result (λ r. length r.items ≡ length variables.now.cells.items) }
    ensures each { IfOk result (λ r. (n : ℕ) (store : Bool × ℕ) → slice_get r.items n ≡ Some store → IsStoreRead variables.now bits.now n store) }
{
    let mut all = Vec::new(alloc);
    for (n, own) in variables.cells.iter().enumerate() {
        let store = (bits[own.mark as usize], number(bits, &own.bits));
        all.push(store)?;
    }
    Ok(all)
}

/// The bits of each input's value.
fn inputs_spelled(
    alloc: Global,
    parts: &SystemParts,
    variables: &Variables,
    bits: &[bool],
) -> Result<Vec<u64>, AllocError>
    requires parts { AreParts parts.now }
    requires variables { AreVariables parts.now variables.now }
    requires bits { length bits.now ≡ variables.now.count }
    ensures long { IfOk result (λ r. length r.items ≡ length variables.now.inputs.items) }
    ensures each { IfOk result (λ r. (n : ℕ) (value : ℕ) → slice_get r.items n ≡ Some value → IsInputRead variables.now bits.now n value) }
{
    let mut all = Vec::new(alloc);
    for (n, own) in variables.inputs.iter().enumerate() {
        all.push(number(bits, &own.bits))?;
    }
    Ok(all)
}

/// The number that these variables spell, the lowest bit first.
fn number(bits: &[bool], variables: &[u32]) -> u64
    requires variables { All (λ v. v < length bits.now) variables.now }
    requires short { length variables.now ≤ 64 }
    ensures { result ≡ spelled_number bits.now variables.now }
{
    let mut number: u64 = 0;
    let mut left = variables.len();
    while left > 0 {
        left -= 1;
        number = number * 2 + bits[variables[left] as usize] as u64;
    }
    number
}
