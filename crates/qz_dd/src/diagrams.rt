//! Diagrams, which answer as the functions that their numbers stand for.

ghost use Rattle.std.specs.Prelude.{◌↔◌, IsTrue, MatchBool, slice_index_or, false, cond, ◌≡◌, ◌<◌, ◌+◌, Bool, List, IfOk, length};
ghost use Rattle.qz_dd.specs.Calls.{op_value};
ghost use Rattle.qz_dd.specs.Tables.{Carries, IsCanonical, AreEqual, count, value_in, Extends};
ghost use Rattle.qz_dd.specs.Least.{IsLeast, IsNowhere};

use crate::call::{Call, DdOp, Task};
use crate::node::DdId;
use crate::solver::Solver;
use std::alloc::{AllocError, Global};
use std::marker::Model;

/// Functions of a fixed number of variables, each under one number.
///
/// Contracts see the table of nodes. `value_in table d bits` is the value of number d at these bits,
/// where bit v is that of variable v; a bit that isn't there counts as false. A number is in range
/// where it is below `count table`: the constants are, and so is each number that a call gave.
///
/// The calls that take `alloc` answer `Err` where memory runs out and for no other reason. What they
/// answered before stays right in each case: numbers keep their functions (`Extends`), and at most
/// nodes were added that nobody names.
#[derive(Drop)]
pub struct Diagrams {
    solver: Solver,
}

impl Model for Diagrams {
    ghost use Rattle.qz_dd.specs.declared.table.Table.{Table};
    ghost use Rattle.qz_dd.specs.contracts.table.Table as held;
    ghost use Rattle.std.specs.Coded.{codes};

    ghost Value = { Table };

    ghost coded = { Prim.hlevel (codes, held.the_row.coded) };

    ghost view = { λ d. d.solver.table };
}

impl Diagrams {
    /// The two constants, over so many variables.
    #[tactic(auto, using(crate::proofs::Canonical::canonical))]
    pub fn new(alloc: Global, vars: u32) -> Result<Diagrams, AllocError>
        ensures vars { IfOk result (λ d. d.vars ≡ vars) }
        ensures count { IfOk result (λ d. count d ≡ 2) }
        ensures canonical { IfOk result (λ d. IsCanonical d) }
    {
        Ok(Diagrams {
            solver: Solver::new(alloc, vars),
        })
    }

    /// The number of the function that is this value at all bits.
    pub fn constant(&self, value: bool) -> DdId
        ensures below { result.0 < count self.now }
        ensures value { (bits : List Bool) → value_in self.now result.0 bits ≡ value }
        ensures means { Carries self.now result.0 (λ reading. value) }
    {
        self.solver.table.constant(value)
    }

    /// The number of the function that is the bit of variable v.
    #[tactic(auto, using(crate::proofs::Canonical::canonical))]
    pub fn var(&mut self, _alloc: Global, v: u32) -> Result<DdId, AllocError>
        requires { v < self.old.vars }
        ensures extends { Extends self.old self.new }
        ensures canonical { IsCanonical self.new }
        ensures below { IfOk result (λ d. d.0 < count self.new) }
        ensures value { IfOk result (λ d. (bits : List Bool) → value_in self.new d.0 bits ≡ slice_index_or bits v false) }
        ensures means { IfOk result (λ d. Carries self.new d.0 (λ reading. slice_index_or reading.bits v false)) }
    {
        self.solver.var(v)
    }

    /// The number of the function that at all bits is what the operation gives of a and b.
    #[tactic(auto, using(crate::proofs::Canonical::canonical))]
    pub fn apply(&mut self, alloc: Global, op: DdOp, a: DdId, b: DdId) -> Result<DdId, AllocError>
        requires a { a.0 < count self.old }
        requires b { b.0 < count self.old }
        ensures extends { Extends self.old self.new }
        ensures canonical { IsCanonical self.new }
        ensures below { IfOk result (λ d. d.0 < count self.new) }
        ensures value { IfOk result (λ d. (bits : List Bool) →
            value_in self.new d.0 bits ≡ op_value op (value_in self.new a.0 bits) (value_in self.new b.0 bits)) }
        ensures means { IfOk result (λ d. Carries self.new d.0 (λ reading. op_value op (reading.values a.0) (reading.values b.0))) }
    {
        let task = match op {
            DdOp::And => Task::And,
            DdOp::Or => Task::Or,
            DdOp::Xor => Task::Xor,
        };
        let c = DdId(0);
        let d = self.solver.solve(alloc, Call { task, a, b, c })?;
        Ok(d)
    }

    /// The number of the function that is a where c is true, else b.
    #[tactic(auto, using(crate::proofs::Canonical::canonical))]
    pub fn ite(&mut self, alloc: Global, c: DdId, a: DdId, b: DdId) -> Result<DdId, AllocError>
        requires c { c.0 < count self.old }
        requires a { a.0 < count self.old }
        requires b { b.0 < count self.old }
        ensures extends { Extends self.old self.new }
        ensures canonical { IsCanonical self.new }
        ensures below { IfOk result (λ d. d.0 < count self.new) }
        ensures value { IfOk result (λ d. (bits : List Bool) →
            value_in self.new d.0 bits ≡ cond (value_in self.new c.0 bits) (value_in self.new a.0 bits) (value_in self.new b.0 bits)) }
        ensures means { IfOk result (λ d. Carries self.new d.0 (λ reading. cond (reading.values c.0) (reading.values a.0) (reading.values b.0))) }
    {
        let call = Call {
            task: Task::Choose,
            a: c,
            b: a,
            c: b,
        };
        let d = self.solver.solve(alloc, call)?;
        Ok(d)
    }

    /// The value of d at these bits.
    pub fn eval(&self, d: DdId, bits: &[bool]) -> bool
        requires below { d.0 < count self.now }
        requires bits { length bits.now ≡ self.now.vars }
        ensures { result ≡ value_in self.now d.0 bits.now }
    {
        self.solver.table.eval(d, bits)
    }

    /// Whether d is true at some bits. Then `bits` become the least of them, where variable 0 counts
    /// most and false comes before true; else they stay.
    pub fn least_one(&self, d: DdId, bits: &mut [bool]) -> bool
        requires below { d.0 < count self.now }
        requires bits { length bits.old ≡ self.now.vars }
        ensures { MatchBool result (IsLeast self.now.vars self.now.nodes.keys d.0 bits.new)
            (IsNowhere self.now.nodes.keys d.0 bits.old bits.new) }
    {
        self.solver.table.least_one(d, bits)
    }

    /// Whether a and b are equal at all bits, which is whether they are the same number.
    pub fn are_equal(&self, a: DdId, b: DdId) -> bool
        requires a { a.0 < count self.now }
        requires b { b.0 < count self.now }
        ensures { IsTrue result ↔ AreEqual self.now a.0 b.0 }
    {
        a == b
    }

    /// How many variables there are.
    pub fn vars(&self) -> u32
        ensures { result ≡ self.now.vars }
    {
        self.solver.table.vars
    }

    /// Whether this number is in range.
    pub fn contains(&self, d: DdId) -> bool
        ensures { IsTrue result ↔ (d.0 < count self.now) }
    {
        self.solver.table.contains(d)
    }

    /// How many nodes there are.
    pub fn node_count(&self) -> usize
        ensures { result + 2 ≡ count self.now }
    {
        self.solver.table.nodes.len()
    }
}
