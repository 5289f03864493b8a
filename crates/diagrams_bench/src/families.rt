//! Families of functions that are built in any study of diagrams.

use crate::workbench::Workbench;
use anyhow::{Result, ensure};
use qz_dd::{DdId, DdOp};
use std::alloc::{AllocError, Global};

#[derive(Clone, Copy, Debug)]
pub enum Family {
    /// The sum of two numbers of N bits, from the lowest bit on: the carry at its end.
    Adder,
    /// The hidden weighted bit function of N variables: where k of them are true, the k-th.
    Weighted,
    /// N queens on N by N squares of which none attacks another.
    Queens,
    /// That not all of N variables are true, which is a chain of N nodes.
    Chain,
}

impl Family {
    pub fn named(name: &str) -> Option<Family> {
        match name {
            "adder" => Some(Family::Adder),
            "weighted" => Some(Family::Weighted),
            "queens" => Some(Family::Queens),
            "chain" => Some(Family::Chain),
            _ => None,
        }
    }

    /// The variables that the family takes. A chain has a hundred of them a unit of its size.
    pub fn variables(self, size: u16) -> u32 {
        match self {
            Family::Adder => size as u32 * 2,
            Family::Weighted => size as u32,
            Family::Queens => size as u32 * size as u32,
            Family::Chain => size as u32 * 100,
        }
    }

    pub fn build(self, bench: &mut Workbench, size: u16) -> Result<DdId> {
        match self {
            Family::Adder => adder(bench, size),
            Family::Weighted => weighted(bench, size),
            Family::Queens => queens(bench, size),
            Family::Chain => chain(bench, size as u32 * 100),
        }
    }
}

/// The highest bits have the first variables, and two bits that are added stand side by side.
fn adder(bench: &mut Workbench, size: u16) -> Result<DdId> {
    let mut carry = bench.constant(false);
    for bit in (0..size as u32).rev() {
        let a = bench.var(bit * 2)?;
        let b = bench.var(bit * 2 + 1)?;
        let differ = bench.apply(DdOp::Xor, a, b)?;
        bench.apply(DdOp::Xor, differ, carry)?;
        carry = bench.ite(differ, carry, a)?;
    }
    Ok(carry)
}

/// The entry at k of `weights` is that k of the variables so far are true.
fn weighted(bench: &mut Workbench, size: u16) -> Result<DdId> {
    let no = bench.constant(false);
    let mut weights = vec![in bench.alloc(); no; size as usize + 1]?;
    weights[0] = bench.constant(true);
    for v in 0..size as u32 {
        let x = bench.var(v)?;
        weights = one_more(bench, x, weights.as_slice())?;
    }
    let mut function = no;
    for (v, weight) in (0..size as u32).zip(weights.iter().skip(1)) {
        let x = bench.var(v)?;
        let here = bench.apply(DdOp::And, *weight, x)?;
        function = bench.apply(DdOp::Or, function, here)?;
    }
    Ok(function)
}

/// The weights with one more variable.
fn one_more(bench: &mut Workbench, x: DdId, weights: &[DdId]) -> Result<Vec<DdId>> {
    let mut more = Vec::new(bench.alloc());
    let mut lighter = bench.constant(false);
    for weight in weights {
        let sum = bench.ite(x, lighter, *weight)?;
        more.push(sum)?;
        lighter = *weight;
    }
    Ok(more)
}

/// A square of the board, and the variable that a queen is on it.
#[derive(Clone, Copy, Debug)]
struct Square {
    row: u16,
    column: u16,
    variable: u32,
}

impl Square {
    fn attacks(self, other: Square) -> bool {
        let rows = self.row.abs_diff(other.row);
        let columns = self.column.abs_diff(other.column);
        self.variable != other.variable && (rows == 0 || columns == 0 || rows == columns)
    }
}

/// The squares, row by row.
fn board(alloc: Global, size: u16) -> Result<Vec<Square>, AllocError> {
    let mut squares = Vec::new(alloc);
    for row in 0..size {
        for column in 0..size {
            let variable = row as u32 * size as u32 + column as u32;
            squares.push(Square {
                row,
                column,
                variable,
            })?;
        }
    }
    Ok(squares)
}

fn queens(bench: &mut Workbench, size: u16) -> Result<DdId> {
    let squares = board(bench.alloc(), size)?;
    let mut placed = bench.constant(true);
    for row in 0..size {
        let taken = row_taken(bench, squares.as_slice(), row)?;
        placed = bench.apply(DdOp::And, placed, taken)?;
    }
    for square in squares.iter() {
        let safe = left_alone(bench, squares.as_slice(), *square)?;
        placed = bench.apply(DdOp::And, placed, safe)?;
    }
    Ok(placed)
}

/// A queen is in this row.
fn row_taken(bench: &mut Workbench, squares: &[Square], row: u16) -> Result<DdId> {
    let mut taken = bench.constant(false);
    for square in squares {
        if square.row == row {
            let queen = bench.var(square.variable)?;
            taken = bench.apply(DdOp::Or, taken, queen)?;
        }
    }
    Ok(taken)
}

/// Where a queen is on the square, none is on those that it attacks.
fn left_alone(bench: &mut Workbench, squares: &[Square], square: Square) -> Result<DdId> {
    let mut clear = bench.constant(true);
    for other in squares {
        if square.attacks(*other) {
            let queen = bench.var(other.variable)?;
            let no = bench.constant(false);
            clear = bench.ite(queen, no, clear)?;
        }
    }
    let queen = bench.var(square.variable)?;
    let yes = bench.constant(true);
    bench.ite(queen, clear, yes)
}

/// A diagram as deep as it has variables, evaluated before and after it is negated.
fn chain(bench: &mut Workbench, vars: u32) -> Result<DdId> {
    let yes = bench.constant(true);
    let mut all = yes;
    for v in (0..vars).rev() {
        let x = bench.var(v)?;
        all = bench.apply(DdOp::And, x, all)?;
    }
    let negated = bench.apply(DdOp::Xor, all, yes)?;
    ensure!(
        bench.eval_at_all(all, true)?,
        "the chain is false where all is true"
    );
    ensure!(
        !bench.eval_at_all(negated, true)?,
        "the negated chain is true where all is true"
    );
    Ok(negated)
}
