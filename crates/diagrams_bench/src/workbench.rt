//! A table of diagrams with the allocator that its calls take.

use anyhow::{Result, ensure};
use qz_dd::{DdId, DdOp, Diagrams};
use std::alloc::Global;

/// Its calls test what those of a table require, and fail where that doesn't hold.
#[derive(Drop)]
pub struct Workbench {
    alloc: Global,
    diagrams: Diagrams,
}

impl Workbench {
    pub fn new(alloc: Global, vars: u32) -> Result<Workbench> {
        let diagrams = Diagrams::new(alloc, vars)?;
        Ok(Workbench { alloc, diagrams })
    }

    pub fn alloc(&self) -> Global {
        self.alloc
    }

    pub fn node_count(&self) -> usize {
        self.diagrams.node_count()
    }

    pub fn constant(&self, value: bool) -> DdId {
        self.diagrams.constant(value)
    }

    pub fn var(&mut self, v: u32) -> Result<DdId> {
        ensure!(v < self.diagrams.vars(), "there is no such variable");
        let made = self.diagrams.var(self.alloc, v)?;
        Ok(made)
    }

    pub fn apply(&mut self, op: DdOp, a: DdId, b: DdId) -> Result<DdId> {
        ensure!(
            self.diagrams.contains(a) && self.diagrams.contains(b),
            "there is no such number"
        );
        let made = self.diagrams.apply(self.alloc, op, a, b)?;
        Ok(made)
    }

    pub fn ite(&mut self, c: DdId, a: DdId, b: DdId) -> Result<DdId> {
        ensure!(
            self.diagrams.contains(c) && self.diagrams.contains(a) && self.diagrams.contains(b),
            "there is no such number"
        );
        let made = self.diagrams.ite(self.alloc, c, a, b)?;
        Ok(made)
    }

    /// The value of d where each variable has this value.
    pub fn eval_at_all(&self, d: DdId, value: bool) -> Result<bool> {
        ensure!(self.diagrams.contains(d), "there is no such number");
        let bits = vec![in self.alloc; value; self.diagrams.vars() as usize]?;
        Ok(self.diagrams.eval(d, bits.as_slice()))
    }

    /// The variables that are true in the least bits at which d is true; none where d is false.
    pub fn least_one(&self, d: DdId) -> Result<Vec<usize>> {
        ensure!(self.diagrams.contains(d), "there is no such number");
        let mut bits = vec![in self.alloc; false; self.diagrams.vars() as usize]?;
        self.diagrams.least_one(d, bits.as_mut_slice());
        let mut set = Vec::new(self.alloc);
        for (v, bit) in bits.iter().enumerate() {
            if *bit {
                set.push(v)?;
            }
        }
        Ok(set)
    }
}
