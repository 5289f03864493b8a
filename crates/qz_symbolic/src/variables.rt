//! Which diagram variable is which bit of a valuation.

ghost use Rattle.std.specs.Prelude.{ℕ, ◌≡◌, ◌+◌, ◌*◌, ◌<◌, ◌≤◌, IfOk, OnOk, map, take, length, Some, slice_get, slice_index_or};
ghost use Rattle.std.specs.List.{flat_map, range_with_len};
ghost use Rattle.qz_values.specs.Types.{width_of};
ghost use Rattle.qz_system.specs.declared.parts.Cell.{Cell as CellOf};
ghost use Rattle.qz_system.specs.Parts.{AreParts, cell_type, input_type};
ghost use Rattle.qz_symbolic.specs.Variables.{AreOfCell, AreOfInput, AreVariables, spots_of_cell, spots_of_input, spots_of_group};
ghost use Rattle.qz_symbolic.specs.Positions.{AreCellStarts, AreInputStarts, group_start, mark_size, bit_size};

use qz_system::{System, SystemParts};
use qz_values::Ty;
use std::alloc::{AllocError, Global};

/// How many groups of bits a valuation has.
const GROUPS: usize = 64;

/// The variables of a cell.
#[derive(Debug, Drop)]
pub struct CellVariables {
    /// Whether its value is a pending one.
    pub mark: u32,
    /// The bits of its value, the lowest first.
    pub bits: Vec<u32>,
}

/// The variables of an input.
#[derive(Debug, Drop)]
pub struct InputVariables {
    /// The bits of its value, the lowest first.
    pub bits: Vec<u32>,
}

/// The diagram variables of a system's valuations: first whether it is started, then whether control
/// rests at each place, and then the marks and the bits of the cells and of the inputs.
#[derive(Debug, Drop)]
pub struct Variables {
    /// How many there are in all.
    pub count: u32,
    pub cells: Vec<CellVariables>,
    pub inputs: Vec<InputVariables>,
}

impl Variables {
    /// The variables of a system.
    pub fn new(alloc: Global, s: &System) -> Result<Variables, AllocError>
        ensures { IfOk result (λ variables. AreVariables s.now.parts variables) }
    {
        let parts = s.parts();
        let mut starts = group_starts(alloc, parts)?;
        let count = starts[GROUPS];
        let cells = cells_variables(alloc, parts, &mut starts)?;
        let inputs = inputs_variables(alloc, parts, &mut starts)?;
        Ok(Variables {
            count,
            cells,
            inputs,
        })
    }
}

/// Where each group begins, and where the last one ends.
fn group_starts(alloc: Global, parts: &SystemParts) -> Result<Vec<u32>, AllocError>
    requires { AreParts parts.now }
    ensures long { IfOk result (λ starts. length starts.items ≡ 65) }
    ensures each { IfOk result (λ starts. (j : ℕ) → j < 65 → slice_index_or starts.items j 0 ≡ group_start parts.now j) }
{
    let mut starts = Vec::new(alloc);
    let mut next = 1 + parts.places.len() as u32;
    for j in 0..GROUPS {
        starts.push(next)?;
        next += group_size(parts, j);
    }
    starts.push(next)?;
    Ok(starts)
}

/// How many bits there are in the group of `j`.
fn group_size(parts: &SystemParts, j: usize) -> u32
    requires { AreParts parts.now }
    ensures size { result ≡ length (spots_of_group parts.now j) }
    ensures few { result ≤ 600000 }
{
    cells_size(parts, j) + inputs_size(parts, j)
}

/// How many of them are bits of cells.
fn cells_size(parts: &SystemParts, j: usize) -> u32
    requires { AreParts parts.now }
    ensures size { result ≡ length (flat_map (spots_of_cell parts.now j) (range_with_len 0 (length parts.now.cells))) }
    ensures few { result ≤ 2 * length parts.now.cells }
{
    let mut size: u32 = 0;
    for (n, cell) in parts.cells.as_slice().iter().enumerate() {
        size += cell_size(cell.ty, j);
    }
    size
}

/// How many of them are bits of inputs.
fn inputs_size(parts: &SystemParts, j: usize) -> u32
    requires { AreParts parts.now }
    ensures size { result ≡ length (flat_map (spots_of_input parts.now j) (range_with_len 0 (length parts.now.inputs))) }
    ensures few { result ≤ length parts.now.inputs }
{
    let mut size: u32 = 0;
    for (n, port) in parts.inputs.as_slice().iter().enumerate() {
        size += value_size(port.ty, j);
    }
    size
}

/// How many bits a cell of this type has in the group of `j`.
fn cell_size(ty: Ty, j: usize) -> u32
    ensures size { result ≡ mark_size j + bit_size (width_of ty) j }
    ensures few { result ≤ 2 }
{
    let mark = if j == 0 { 1 } else { 0 };
    mark + value_size(ty, j)
}

/// How many bits a value of this type has in the group of `j`.
fn value_size(ty: Ty, j: usize) -> u32
    ensures size { result ≡ bit_size (width_of ty) j }
    ensures few { result ≤ 1 }
{
    if j < width(ty) { 1 } else { 0 }
}

/// The variables of each cell. `next` has for each group where the cells' bits begin in it, and comes
/// to where they end.
fn cells_variables(
    alloc: Global,
    parts: &SystemParts,
    next: &mut [u32],
) -> Result<Vec<CellVariables>, AllocError>
    requires parts { AreParts parts.now }
    requires next { AreCellStarts parts.now 0 next.old }
    ensures count { IfOk result (λ r. length r.items ≡ length parts.now.cells) }
    ensures each { IfOk result (λ r. (n : ℕ) (one : CellVariables) → slice_get r.items n ≡ Some one → AreOfCell parts.now n one) }
    ensures next { OnOk result (AreCellStarts parts.now (length parts.now.cells) next.new) }
{
    let mut all = Vec::new(alloc);
    for (n, cell) in parts.cells.as_slice().iter().enumerate() {
        let one = cell_variables(alloc, parts, n, cell.ty, next)?;
        all.push(one)?;
    }
    Ok(all)
}

/// The variables of a cell.
fn cell_variables(
    alloc: Global,
    parts: &SystemParts,
    n: usize,
    ty: Ty,
    next: &mut [u32],
) -> Result<CellVariables, AllocError>
    requires parts { AreParts parts.now }
    requires cell { cell_type parts.now n ≡ Some ty }
    requires next { AreCellStarts parts.now n next.old }
    ensures cell { IfOk result (λ r. AreOfCell parts.now n r) }
    ensures next { OnOk result (AreCellStarts parts.now (n + 1) next.new) }
{
    let mark = next[0];
    next[0] += 1;
    let bits = take_each(alloc, width(ty), next)?;
    Ok(CellVariables { mark, bits })
}

/// The variables of each input. `next` has for each group where the inputs' bits begin in it.
fn inputs_variables(
    alloc: Global,
    parts: &SystemParts,
    next: &mut [u32],
) -> Result<Vec<InputVariables>, AllocError>
    requires parts { AreParts parts.now }
    requires next { AreInputStarts parts.now 0 next.old }
    ensures count { IfOk result (λ r. length r.items ≡ length parts.now.inputs) }
    ensures each { IfOk result (λ r. (n : ℕ) (one : InputVariables) → slice_get r.items n ≡ Some one → AreOfInput parts.now n one) }
{
    let mut all = Vec::new(alloc);
    for (n, port) in parts.inputs.as_slice().iter().enumerate() {
        let one = input_variables(alloc, parts, n, port.ty, next)?;
        all.push(one)?;
    }
    Ok(all)
}

/// The variables of an input.
fn input_variables(
    alloc: Global,
    parts: &SystemParts,
    n: usize,
    ty: Ty,
    next: &mut [u32],
) -> Result<InputVariables, AllocError>
    requires parts { AreParts parts.now }
    requires input { input_type parts.now n ≡ Some ty }
    requires next { AreInputStarts parts.now n next.old }
    ensures input { IfOk result (λ r. AreOfInput parts.now n r) }
    ensures next { OnOk result (AreInputStarts parts.now (n + 1) next.new) }
{
    let bits = take_each(alloc, width(ty), next)?;
    Ok(InputVariables { bits })
}

/// The next variable of each of the first groups, so many of them, which then is the one after it.
fn take_each(alloc: Global, groups: usize, next: &mut [u32]) -> Result<Vec<u32>, AllocError>
    requires long { groups ≤ length next.old }
    requires small { (j : ℕ) → j < groups → slice_index_or next.old j 0 < 100000000 }
    ensures bits { IfOk result (λ r. r.items ≡ take groups next.old) }
    ensures next { OnOk result ((j : ℕ) → j < length next.old → slice_index_or next.new j 0 ≡ slice_index_or next.old j 0 + bit_size groups j) }
{
    let mut bits = Vec::new(alloc);
    for j in 0..groups {
        bits.push(next[j])?;
        next[j] += 1;
    }
    Ok(bits)
}

/// How many bits a value of the type has.
fn width(ty: Ty) -> usize
    ensures { result ≡ width_of ty }
{
    match ty {
        Ty::Bool => 1,
        Ty::Bv(width) => width as usize,
    }
}
