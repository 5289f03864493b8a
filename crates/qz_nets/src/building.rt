//! Nets of bools as they are built, folded where the knowledge of them stays the same, that of what
//! isn't known and of a contradiction among it: `!!a` is a, `a & true`, `a | false` and `a & a` are
//! a, and a choice by a constant is its side. `a & false` stays: it is a contradiction where `a` is.

ghost use Rattle.std.specs.Prelude.{◌≡◌, Some, IsSome, IsTrue, IfOk, IfSome};
ghost use Rattle.qz_nets.specs.declared.net.Net.TheVariants as net;
ghost use Rattle.qz_values.specs.declared.Ty.TheVariants.{Bool as Truth};
ghost use Rattle.qz_values.specs.declared.Know.TheVariants.{Known};
ghost use Rattle.qz_values.specs.declared.Op1.TheVariants.{Not};
ghost use Rattle.qz_values.specs.Types.{IsType};
ghost use Rattle.qz_values.specs.Values.{truth_of, IsValue, type_of};
ghost use Rattle.qz_values.specs.Knowledge.{both, either, opposite, choose_of};
ghost use Rattle.qz_nets.specs.Nets.{net_type};
ghost use Rattle.qz_nets.specs.Readings.{net_in, type_in, Extends, Carries};

use crate::net::{Net, NetId};
use crate::table::NetTable;
use qz_values::{Op1, Op2, Ty, Value};
use std::alloc::AllocError;

impl NetTable {
    /// A constant.
    pub fn constant(&mut self, value: Value) -> Result<NetId, AllocError>
        requires { IsValue value }
        ensures extends { Extends self.old self.new }
        ensures ty { IfOk result (λ id. type_in self.new id.0 ≡ Some (type_of value)) }
        ensures means { IfOk result (λ id. Carries self.new id.0 (λ v. Known value)) }
    {
        self.add(Net::Const(value))
    }

    /// The constant `true` or `false`.
    pub fn truth(&mut self, value: bool) -> Result<NetId, AllocError>
        ensures extends { Extends self.old self.new }
        ensures ty { IfOk result (λ id. type_in self.new id.0 ≡ Some Truth) }
        ensures means { IfOk result (λ id. Carries self.new id.0 (λ v. Known (truth_of value))) }
    {
        self.add(Net::Const(Value::truth(value)))
    }

    /// The leaf of this number and type.
    pub fn leaf(&mut self, number: u64, ty: Ty) -> Result<NetId, AllocError>
        requires { IsType ty }
        ensures extends { Extends self.old self.new }
        ensures ty { IfOk result (λ id. type_in self.new id.0 ≡ Some ty) }
        ensures means { IfOk result (λ id. Carries self.new id.0 (λ v. v.leaf number)) }
    {
        self.add(Net::Leaf(number, ty))
    }

    /// `!a`
    pub fn not(&mut self, a: NetId) -> Result<NetId, AllocError>
        requires { type_in self.old a.0 ≡ Some Truth }
        ensures extends { Extends self.old self.new }
        ensures ty { IfOk result (λ id. type_in self.new id.0 ≡ Some Truth) }
        ensures means { IfOk result (λ id. Carries self.new id.0 (λ v. opposite (v.know a.0))) }
    {
        match self.negated(a) {
            Some(inner) => Ok(inner),
            None => self.add(Net::Un(Op1::Not, a)),
        }
    }

    /// `a & b`
    pub fn and(&mut self, a: NetId, b: NetId) -> Result<NetId, AllocError>
        requires left { type_in self.old a.0 ≡ Some Truth }
        requires right { type_in self.old b.0 ≡ Some Truth }
        ensures extends { Extends self.old self.new }
        ensures ty { IfOk result (λ id. type_in self.new id.0 ≡ Some Truth) }
        ensures means { IfOk result (λ id. Carries self.new id.0 (λ v. both (v.know a.0) (v.know b.0))) }
    {
        if a == b {
            return Ok(a);
        }
        if self.is_constant(b, true) {
            return Ok(a);
        }
        if self.is_constant(a, true) {
            return Ok(b);
        }
        self.add(Net::Bin(Op2::And, a, b))
    }

    /// `a | b`
    pub fn or(&mut self, a: NetId, b: NetId) -> Result<NetId, AllocError>
        requires left { type_in self.old a.0 ≡ Some Truth }
        requires right { type_in self.old b.0 ≡ Some Truth }
        ensures extends { Extends self.old self.new }
        ensures ty { IfOk result (λ id. type_in self.new id.0 ≡ Some Truth) }
        ensures means { IfOk result (λ id. Carries self.new id.0 (λ v. either (v.know a.0) (v.know b.0))) }
    {
        if a == b {
            return Ok(a);
        }
        if self.is_constant(b, false) {
            return Ok(a);
        }
        if self.is_constant(a, false) {
            return Ok(b);
        }
        self.add(Net::Bin(Op2::Or, a, b))
    }

    /// `c ? a : b`, of a bool and two sides of one type.
    pub fn choose(&mut self, c: NetId, a: NetId, b: NetId) -> Result<NetId, AllocError>
        requires { IsSome (net_type (type_in self.old) (net.Choose c a b)) }
        ensures extends { Extends self.old self.new }
        ensures ty { IfOk result (λ id. type_in self.new id.0 ≡ net_type (type_in self.old) (net.Choose c a b)) }
        ensures means { IfOk result (λ id. Carries self.new id.0 (λ v. choose_of (v.know c.0) (v.know a.0) (v.know b.0))) }
    {
        if self.is_constant(c, true) {
            return Ok(a);
        }
        if self.is_constant(c, false) {
            return Ok(b);
        }
        self.add(Net::Choose(c, a, b))
    }

    /// The net of which this one is `!`.
    fn negated(&self, id: NetId) -> Option<NetId>
        ensures { IfSome result (λ inner. net_in self.now id.0 ≡ Some (net.Un Not inner)) }
    {
        match self.at(id) {
            Some(Net::Un(Op1::Not, inner)) => Some(inner),
            _ => None,
        }
    }

    /// Whether the net is this constant.
    fn is_constant(&self, id: NetId, value: bool) -> bool
        ensures { IsTrue result → net_in self.now id.0 ≡ Some (net.Const (truth_of value)) }
    {
        match self.at(id) {
            Some(Net::Const(constant)) => constant == Value::truth(value),
            _ => false,
        }
    }
}
