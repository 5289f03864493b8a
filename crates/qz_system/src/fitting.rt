//! Whether a valuation has a system's lengths and types.

ghost use Rattle.std.specs.Prelude.{◌≡◌, ◌↔◌, IsTrue};
ghost use Rattle.qz_system.specs.Valuations.{holds, hold_inputs, hold_stores, Fits};

use crate::parts::{Cell, SystemParts};
use crate::valuation::Valuation;
use qz_syntax::Port;
use qz_values::{Ty, Value};

/// Whether the valuation fits the parts.
pub(crate) fn fits(parts: &SystemParts, v: &Valuation) -> bool
    ensures { IsTrue result ↔ Fits parts.now v.now }
{
    v.places.len() == parts.places.len()
        && hold_inputs(parts.inputs.as_slice(), &v.inputs)
        && hold_stores(parts.cells.as_slice(), &v.stores)
}

/// Whether each input has a value of its type.
fn hold_inputs(ports: &[Port], inputs: &[u64]) -> bool
    ensures { result ≡ hold_inputs ports.now inputs.now }
{
    let mut rest = inputs;
    for port in ports {
        match rest.split_first() {
            Some((bits, others)) => {
                if !holds(port.ty, *bits) {
                    return false;
                }
                rest = others;
            }
            None => return false,
        }
    }
    rest.is_empty()
}

/// Whether each cell has a store with a value of its type.
fn hold_stores(cells: &[Cell], stores: &[(bool, u64)]) -> bool
    ensures { result ≡ hold_stores cells.now stores.now }
{
    let mut rest = stores;
    for cell in cells {
        match rest.split_first() {
            Some(((_, bits), others)) => {
                if !holds(cell.ty, *bits) {
                    return false;
                }
                rest = others;
            }
            None => return false,
        }
    }
    rest.is_empty()
}

/// Whether the bits are those of a value of the type.
fn holds(ty: Ty, bits: u64) -> bool
    ensures { result ≡ holds ty bits }
{
    Value::new(ty, bits).is_some()
}
