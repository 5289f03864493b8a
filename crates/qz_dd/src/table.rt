//! The table of nodes, each of which it has once (the unique table of the literature).

ghost use Rattle.std.specs.Prelude.{◌≡◌, ◌<◌, ◌≤◌, ◌+◌, ◌↔◌, IsTrue, Bool, List, IfOk, MatchOption, MatchBool, length};
ghost use Rattle.qz_dd.specs.Nodes.{AreDiagrams};
ghost use Rattle.std.proofs.Props.{props};

use crate::node::{DdId, Node};
use indexmap::IndexSet;
use std::alloc::{AllocError, Global};

/// The nodes so far, of which the one at i has the number i + 2. A new node comes after its sides.
#[derive(Drop)]
pub struct Table {
    pub vars: u32,
    pub nodes: IndexSet<Node>,
    ghost diagrams: { AreDiagrams vars nodes.keys } by { Prim.hlevel props },
}

impl Table {
    ghost use Rattle.qz_dd.specs.Nodes.{node_at, NodeFacts, ConstantFacts};
    ghost use Rattle.qz_dd.specs.Least.{IsLeast, IsNowhere};
    ghost use Rattle.qz_dd.specs.Tables.{Carries, count, value_in, level_in, Extends, IsCofactor, IsMade};

    pub fn new(alloc: Global, vars: u32) -> Table
        ensures vars { result.vars ≡ vars }
        ensures count { count result ≡ 2 }
    {
        Table {
            vars,
            nodes: IndexSet::new(alloc),
        }
    }

    /// Whether the table has this number.
    pub fn contains(&self, d: DdId) -> bool
        ensures { IsTrue result ↔ (d.0 < count self.now) }
    {
        d.0 < 2 || d.0 - 2 < self.nodes.len() as u64
    }

    /// The number of the function that is this value at all bits.
    pub fn constant(&self, value: bool) -> DdId
        ensures below { result.0 < count self.now }
        ensures value { (bits : List Bool) → value_in self.now result.0 bits ≡ value }
        ensures means { Carries self.now result.0 (λ reading. value) }
    {
        if value { DdId(1) } else { DdId(0) }
    }

    /// The node of a number, of which a constant has none.
    fn node(&self, d: DdId) -> Option<Node>
        requires { d.0 < count self.now }
        ensures value { result ≡ node_at self.now.nodes.keys d.0 }
        ensures facts { MatchOption result (ConstantFacts self.now.vars self.now.nodes.keys d.0)
            (λ node. NodeFacts self.now.vars self.now.nodes.keys d.0 node) }
    {
        if d.0 < 2 {
            None
        } else {
            self.nodes.get_index((d.0 - 2) as usize).copied()
        }
    }

    /// The variable of a number's node; a constant has the number of variables.
    pub fn level(&self, d: DdId) -> u32
        requires { d.0 < count self.now }
        ensures { result ≡ level_in self.now d.0 }
    {
        match self.node(d) {
            Some(node) => node.var,
            None => self.vars,
        }
    }

    /// The function d, where the variable has this value.
    pub fn cofactor(&self, d: DdId, var: u32, side: bool) -> DdId
        requires below { d.0 < count self.now }
        requires before { var ≤ level_in self.now d.0 }
        requires variable { var < self.now.vars }
        ensures { IsCofactor self.now var side d.0 result.0 }
    {
        match self.node(d) {
            Some(node) if node.var == var => { if side { node.high } else { node.low } }
            _ => d,
        }
    }

    /// The number of the function that is `high` where the variable is true, else `low`.
    pub fn make(&mut self, var: u32, low: DdId, high: DdId) -> Result<DdId, AllocError>
        requires variable { var < self.old.vars }
        requires low_below { low.0 < count self.old }
        requires high_below { high.0 < count self.old }
        requires low_later { var < level_in self.old low.0 }
        requires high_later { var < level_in self.old high.0 }
        ensures extends { Extends self.old self.new }
        ensures made { IfOk result (λ d. IsMade self.new var low.0 high.0 d.0) }
    {
        if low == high {
            return Ok(low);
        }
        let (number, _) = self.nodes.insert_full(Node { var, low, high })?;
        prove!(number < self.nodes.len());
        Ok(DdId(number as u64 + 2))
    }

    /// The value of d at these bits, by one walk from its node to a constant.
    pub fn eval(&self, d: DdId, bits: &[bool]) -> bool
        requires below { d.0 < count self.now }
        requires bits { length bits.now ≡ self.now.vars }
        ensures { result ≡ value_in self.now d.0 bits.now }
    {
        let mut at = d;
        while let Some(node) = self.node(at) {
            at = if bits[node.var as usize] {
                node.high
            } else {
                node.low
            };
        }
        at.0 == 1
    }

    /// Whether d is true at some bits: then the least of them are set, by one walk that takes the low
    /// side wherever that isn't false.
    pub fn least_one(&self, d: DdId, bits: &mut [bool]) -> bool
        requires below { d.0 < count self.now }
        requires bits { length bits.old ≡ self.now.vars }
        ensures { MatchBool result (IsLeast self.now.vars self.now.nodes.keys d.0 bits.new) (IsNowhere self.now.nodes.keys d.0 bits.old bits.new) }
    {
        if d.0 == 0 {
            return false;
        }
        bits.fill(false);
        let mut at = d;
        while let Some(node) = self.node(at) {
            if node.low.0 == 0 {
                bits[node.var as usize] = true;
                at = node.high;
            } else {
                at = node.low;
            }
        }
        true
    }
}
