//! Nets over leaves, each leaf having the number that its kind has.

ghost use Rattle.std.specs.Prelude.{◌≡◌, ◌<◌, ◌^◌, [], length, Some, IsSome, slice_get, IfOk, OnOk};
ghost use Rattle.qz_values.specs.declared.Ty.TheVariants.{Bool as Truth};
ghost use Rattle.qz_values.specs.declared.Know.TheVariants.{Known};
ghost use Rattle.qz_values.specs.Types.{IsType};
ghost use Rattle.qz_values.specs.Values.{truth_of};
ghost use Rattle.std.specs.Option.{option_and_then};
ghost use Rattle.qz_values.specs.Tables.{type1_of, type2_of, choose_type, bit_type, slice_type, concat_type};
ghost use Rattle.qz_values.specs.Knowledge.{both, either, opposite, apply1_of, apply2_of, choose_of, bit_of, slice_of, concat_of};
ghost use Rattle.qz_nets.specs.Nets.{net_type, net_know, constant_type};
ghost use Rattle.qz_nets.specs.Readings.{count, type_in};
ghost use Rattle.qz_control.specs.Leaves.{leaf_known};
ghost use Rattle.qz_control.specs.Circuits.{known, Means, Grows, IsBool};

use crate::leaves::LeafKind;
use indexmap::IndexSet;
use qz_nets::{Net, NetId, NetTable};
use qz_values::{Op1, Op2, Ty, Value};
use std::alloc::{AllocError, Global};

/// The nets so far, and what their leaves stand for, each by its number.
#[derive(Drop)]
pub struct Circuit {
    pub table: NetTable,
    pub leaves: IndexSet<LeafKind>,
}

impl Circuit {
    /// No net and no leaf.
    pub fn new(alloc: Global) -> Circuit
        ensures nets { count result.table ≡ 0 }
        ensures leaves { result.leaves.keys ≡ [] }
    {
        Circuit {
            table: NetTable::new(alloc),
            leaves: IndexSet::new(alloc),
        }
    }

    /// A net over earlier ones, whose types fit.
    ///
    /// # Errors
    ///
    /// Want of memory alone, as of all that add nets.
    fn add(&mut self, net: Net) -> Result<NetId, AllocError>
        requires { IsSome (net_type (type_in self.old.table) net) }
        ensures grows { OnOk result (Grows self.old self.new) }
        ensures ty { IfOk result (λ id. type_in self.new.table id.0 ≡ net_type (type_in self.old.table) net) }
        ensures means { IfOk result (λ id. Means self.new id (λ v. net_know v.nets.leaf v.nets.know net)) }
    {
        let id = self.table.add(net)?;
        Ok(id)
    }

    /// A constant, which is a value of its type.
    pub fn constant(&mut self, value: Value) -> Result<NetId, AllocError>
        requires { IsSome (constant_type value) }
        ensures grows { OnOk result (Grows self.old self.new) }
        ensures ty { IfOk result (λ id. type_in self.new.table id.0 ≡ constant_type value) }
        ensures means { IfOk result (λ id. Means self.new id (λ v. Known value)) }
    {
        self.add(Net::Const(value))
    }

    /// An operator with one operand.
    pub fn unary(&mut self, op: Op1, a: NetId) -> Result<NetId, AllocError>
        requires { IsSome (option_and_then (λ s. type1_of op s) (type_in self.old.table a.0)) }
        ensures grows { OnOk result (Grows self.old self.new) }
        ensures ty { IfOk result (λ id. type_in self.new.table id.0 ≡ option_and_then (λ s. type1_of op s) (type_in self.old.table a.0)) }
        ensures means { IfOk result (λ id. Means self.new id (λ v. apply1_of op (known v a))) }
    {
        self.add(Net::Un(op, a))
    }

    /// An operator with two operands.
    pub fn binary(&mut self, op: Op2, a: NetId, b: NetId) -> Result<NetId, AllocError>
        requires { IsSome (option_and_then (λ s. option_and_then (λ t. type2_of op s t) (type_in self.old.table b.0)) (type_in self.old.table a.0)) }
        ensures grows { OnOk result (Grows self.old self.new) }
        ensures ty { IfOk result (λ id. type_in self.new.table id.0 ≡ option_and_then (λ s. option_and_then (λ t. type2_of op s t) (type_in self.old.table b.0)) (type_in self.old.table a.0)) }
        ensures means { IfOk result (λ id. Means self.new id (λ v. apply2_of op (known v a) (known v b))) }
    {
        self.add(Net::Bin(op, a, b))
    }

    /// `c ? a : b`
    pub fn chosen(&mut self, c: NetId, a: NetId, b: NetId) -> Result<NetId, AllocError>
        requires { IsSome (option_and_then (λ r. option_and_then (λ s. option_and_then (λ t. choose_type r s t) (type_in self.old.table b.0)) (type_in self.old.table a.0)) (type_in self.old.table c.0)) }
        ensures grows { OnOk result (Grows self.old self.new) }
        ensures ty { IfOk result (λ id. type_in self.new.table id.0 ≡ option_and_then (λ r. option_and_then (λ s. option_and_then (λ t. choose_type r s t) (type_in self.old.table b.0)) (type_in self.old.table a.0)) (type_in self.old.table c.0)) }
        ensures means { IfOk result (λ id. Means self.new id (λ v. choose_of (known v c) (known v a) (known v b))) }
    {
        self.add(Net::Choose(c, a, b))
    }

    /// One bit of a vector.
    pub fn bit(&mut self, a: NetId, index: u8) -> Result<NetId, AllocError>
        requires { IsSome (option_and_then (λ s. bit_type s index) (type_in self.old.table a.0)) }
        ensures grows { OnOk result (Grows self.old self.new) }
        ensures ty { IfOk result (λ id. type_in self.new.table id.0 ≡ option_and_then (λ s. bit_type s index) (type_in self.old.table a.0)) }
        ensures means { IfOk result (λ id. Means self.new id (λ v. bit_of (known v a) index)) }
    {
        self.add(Net::Bit(a, index))
    }

    /// Some bits of a vector.
    pub fn slice(&mut self, a: NetId, high: u8, low: u8) -> Result<NetId, AllocError>
        requires { IsSome (option_and_then (λ s. slice_type s high low) (type_in self.old.table a.0)) }
        ensures grows { OnOk result (Grows self.old self.new) }
        ensures ty { IfOk result (λ id. type_in self.new.table id.0 ≡ option_and_then (λ s. slice_type s high low) (type_in self.old.table a.0)) }
        ensures means { IfOk result (λ id. Means self.new id (λ v. slice_of (known v a) high low)) }
    {
        self.add(Net::Slice(a, high, low))
    }

    /// Two vectors as one.
    pub fn concat(&mut self, a: NetId, b: NetId) -> Result<NetId, AllocError>
        requires { IsSome (option_and_then (λ s. option_and_then (λ t. concat_type s t) (type_in self.old.table b.0)) (type_in self.old.table a.0)) }
        ensures grows { OnOk result (Grows self.old self.new) }
        ensures ty { IfOk result (λ id. type_in self.new.table id.0 ≡ option_and_then (λ s. option_and_then (λ t. concat_type s t) (type_in self.old.table b.0)) (type_in self.old.table a.0)) }
        ensures means { IfOk result (λ id. Means self.new id (λ v. concat_of (known v a) (known v b))) }
    {
        self.add(Net::Concat(a, b))
    }

    /// The leaf of this kind, which has this type.
    pub fn leaf(&mut self, kind: LeafKind, ty: Ty) -> Result<NetId, AllocError>
        requires { IsType ty }
        ensures grows { OnOk result (Grows self.old self.new) }
        ensures ty { IfOk result (λ id. type_in self.new.table id.0 ≡ Some ty) }
        ensures means { IfOk result (λ id. Means self.new id (λ v. leaf_known v.leaves kind)) }
    {
        let number = self.number(kind)?;
        let id = self.table.leaf(number, ty)?;
        Ok(id)
    }

    /// The number of a kind of leaf: the one that it has, or else the next.
    fn number(&mut self, kind: LeafKind) -> Result<u64, AllocError>
        ensures grows { OnOk result (Grows self.old self.new) }
        ensures number { IfOk result (λ number. slice_get self.new.leaves.keys number ≡ Some kind) }
    {
        let (number, _) = self.leaves.insert_full(kind)?;
        Ok(number as u64)
    }

    /// The leaf of a kind that is so or isn't.
    pub fn flag(&mut self, kind: LeafKind) -> Result<NetId, AllocError>
        ensures grows { OnOk result (Grows self.old self.new) }
        ensures ty { IfOk result (λ id. IsBool self.new id) }
        ensures means { IfOk result (λ id. Means self.new id (λ v. leaf_known v.leaves kind)) }
    {
        let id = self.leaf(kind, Ty::Bool)?;
        Ok(id)
    }

    /// `true` or `false`
    pub fn truth(&mut self, value: bool) -> Result<NetId, AllocError>
        ensures grows { OnOk result (Grows self.old self.new) }
        ensures ty { IfOk result (λ id. IsBool self.new id) }
        ensures means { IfOk result (λ id. Means self.new id (λ v. Known (truth_of value))) }
    {
        let id = self.table.truth(value)?;
        Ok(id)
    }

    /// `!a`
    pub fn not(&mut self, a: NetId) -> Result<NetId, AllocError>
        requires { IsBool self.old a }
        ensures grows { OnOk result (Grows self.old self.new) }
        ensures ty { IfOk result (λ id. IsBool self.new id) }
        ensures means { IfOk result (λ id. Means self.new id (λ v. opposite (known v a))) }
    {
        let id = self.table.not(a)?;
        Ok(id)
    }

    /// `a & b`
    pub fn and(&mut self, a: NetId, b: NetId) -> Result<NetId, AllocError>
        requires left { IsBool self.old a }
        requires right { IsBool self.old b }
        ensures grows { OnOk result (Grows self.old self.new) }
        ensures ty { IfOk result (λ id. IsBool self.new id) }
        ensures means { IfOk result (λ id. Means self.new id (λ v. both (known v a) (known v b))) }
    {
        let id = self.table.and(a, b)?;
        Ok(id)
    }

    /// `a | b`
    pub fn or(&mut self, a: NetId, b: NetId) -> Result<NetId, AllocError>
        requires left { IsBool self.old a }
        requires right { IsBool self.old b }
        ensures grows { OnOk result (Grows self.old self.new) }
        ensures ty { IfOk result (λ id. IsBool self.new id) }
        ensures means { IfOk result (λ id. Means self.new id (λ v. either (known v a) (known v b))) }
    {
        let id = self.table.or(a, b)?;
        Ok(id)
    }

    /// `c ? a : b`, of bools.
    pub fn choose(&mut self, c: NetId, a: NetId, b: NetId) -> Result<NetId, AllocError>
        requires condition { IsBool self.old c }
        requires left { IsBool self.old a }
        requires right { IsBool self.old b }
        ensures grows { OnOk result (Grows self.old self.new) }
        ensures ty { IfOk result (λ id. IsBool self.new id) }
        ensures means { IfOk result (λ id. Means self.new id (λ v. choose_of (known v c) (known v a) (known v b))) }
    {
        let id = self.table.choose(c, a, b)?;
        Ok(id)
    }
}
