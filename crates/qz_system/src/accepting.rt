//! Whether parts are those of a system.

ghost use Rattle.std.specs.Prelude.{◌≡◌, ◌↔◌, IfOk, IsTrue, ◌++◌, ◌&&◌, length, nat_le};
ghost use Rattle.std.specs.List.{list_all};
ghost use Rattle.qz_values.specs.declared.Ty.{Ty as TyOf};
ghost use Rattle.qz_values.specs.Types.{is_type};
ghost use Rattle.qz_nets.specs.declared.net.Net.{Net as NetOf};
ghost use Rattle.qz_syntax.specs.declared.declarations.Port.{Port as PortOf};
ghost use Rattle.qz_syntax.specs.DoubleNames.{are_distinct};
ghost use Rattle.qz_system.specs.declared.parts.Cell.{Cell as CellOf};
ghost use Rattle.qz_system.specs.Parts.{AreParts, FitInSize, AreDeclared, AreOrdered, AreWired, AreShaped};

use crate::declared::{begin_with, cells_have_types, names_differ, ports_have_types};
use crate::ordered::{are_in_order, have_cells, have_one};
use crate::parts::SystemParts;
use crate::shaped::{has_cells, has_places};
use crate::wired::{
    are_acts_right, are_carries_right, are_nets_right, are_nexts_right, have_leaves,
};
use std::alloc::{AllocError, Global};

/// How many inputs, cells, places or instances there may be.
const MOST: usize = 200_000;

impl SystemParts {
    /// Whether these are the parts of a system.
    ///
    /// The time is linear in the parts, but for the names of inputs and outputs, of which each pair is
    /// compared, and for the outputs, for each of which the instances are counted.
    ///
    /// # Errors
    ///
    /// Want of memory alone.
    pub fn are_right(&self, alloc: Global) -> Result<bool, AllocError>
        ensures { IfOk result (λ right. IsTrue right ↔ AreParts self.now) }
    {
        let shaped = is_shaped(alloc, self)?;
        Ok(fits_in_size(self) && is_declared(self) && is_ordered(self) && is_wired(self) && shaped)
    }
}

/// Whether inputs, cells, places and instances are not too many.
fn fits_in_size(parts: &SystemParts) -> bool
    ensures { IsTrue result ↔ FitInSize parts.now }
{
    parts.inputs.len() <= MOST
        && parts.cells.len() <= MOST
        && parts.places.len() <= MOST
        && parts.instances.len() <= MOST
}

/// Whether ports and cells are such as they must be.
fn is_declared(parts: &SystemParts) -> bool
    ensures { IsTrue result ↔ AreDeclared parts.now }
{
    ports_have_types(parts.inputs.as_slice())
        && cells_have_types(parts.cells.as_slice())
        && names_differ(parts.inputs.as_slice(), parts.outputs.as_slice())
        && begin_with(parts.outputs.as_slice(), parts.cells.as_slice())
}

/// Whether instances are those of the cells, in their order.
fn is_ordered(parts: &SystemParts) -> bool
    ensures { IsTrue result ↔ AreOrdered parts.now }
{
    have_cells(parts)
        && are_in_order(parts.instances.as_slice())
        && have_one(parts.outputs.as_slice(), parts.instances.as_slice())
}

/// Whether nets read what is there, and what goes by nets does so by those of its type.
fn is_wired(parts: &SystemParts) -> bool
    ensures { IsTrue result ↔ AreWired parts.now }
{
    have_leaves(parts)
        && are_nets_right(parts)
        && are_acts_right(parts)
        && are_nexts_right(parts)
        && are_carries_right(parts)
}

/// Whether the shape has each place and each local once, in their order.
fn is_shaped(alloc: Global, parts: &SystemParts) -> Result<bool, AllocError>
    ensures { IfOk result (λ right. IsTrue right ↔ AreShaped parts.now) }
{
    let places = has_places(alloc, parts)?;
    let cells = has_cells(alloc, parts)?;
    Ok(places && cells)
}
