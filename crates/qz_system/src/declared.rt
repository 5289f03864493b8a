//! Whether the ports and the cells of a system are such as they must be.

ghost use Rattle.std.specs.Prelude.{◌≡◌, ◌++◌, ◌&&◌};
ghost use Rattle.std.specs.List.{list_all};
ghost use Rattle.qz_values.specs.Types.{is_type};
ghost use Rattle.qz_syntax.specs.DoubleNames.{is_among, are_distinct};
ghost use Rattle.qz_syntax.specs.declared.declarations.Port.{Port as PortOf};
ghost use Rattle.qz_system.specs.declared.parts.Cell.{Cell as CellOf};
ghost use Rattle.qz_system.specs.Parts.{port_names, begin_with};

use crate::parts::Cell;
use qz_syntax::{Name, Port};
use qz_values::{is_same_type, is_type};

/// Whether no input and no output has the name of another.
pub(crate) fn names_differ(inputs: &[Port], outputs: &[Port]) -> bool
    ensures { result ≡ are_distinct (port_names (inputs.now ++ outputs.now)) }
{
    each_differs(inputs, outputs) && each_differs(outputs, &[])
}

/// Whether no port has the name of a later one, or of one of `others`.
fn each_differs(ports: &[Port], others: &[Port]) -> bool
    ensures { are_distinct (port_names (ports.now ++ others.now)) ≡ (result && are_distinct (port_names others.now)) }
{
    let mut rest = ports;
    while let Some((port, later)) = rest.split_first() {
        if is_among(later, &port.name) || is_among(others, &port.name) {
            return false;
        }
        rest = later;
    }
    true
}

/// Whether one of the ports has this name.
fn is_among(ports: &[Port], name: &Name) -> bool
    ensures { result ≡ is_among (port_names ports.now) name.now }
{
    ports.iter().any(|port| port.name == *name)
}

/// Whether each port is of a type that there is.
pub(crate) fn ports_have_types(ports: &[Port]) -> bool
    ensures { result ≡ list_all (λ (port : PortOf). is_type port.ty) ports.now }
{
    ports.iter().all(|port| is_type(port.ty))
}

/// Whether each cell is of a type that there is.
pub(crate) fn cells_have_types(cells: &[Cell]) -> bool
    ensures { result ≡ list_all (λ (cell : CellOf). is_type cell.ty) cells.now }
{
    cells.iter().all(|cell| is_type(cell.ty))
}

/// Whether the first cells have the types of the outputs in their order.
pub(crate) fn begin_with(ports: &[Port], cells: &[Cell]) -> bool
    ensures { result ≡ begin_with ports.now cells.now }
{
    let mut rest = cells;
    for port in ports {
        match rest.split_first() {
            Some((cell, others)) => {
                if !is_same_type(port.ty, cell.ty) {
                    return false;
                }
                rest = others;
            }
            None => return false,
        }
    }
    true
}
