//! The table of nets, each of which it has once.

ghost use Rattle.std.specs.Prelude.{◌≡◌, ◌<◌, suc, IsSome, Some, IfOk, OnErr, max};
ghost use Rattle.std.proofs.Props.{props};
ghost use Rattle.qz_values.specs.Types.{width_of};
ghost use Rattle.qz_nets.specs.Nets.{net_type};
ghost use Rattle.qz_nets.specs.Tables.{AreNets};

use crate::net::{Net, NetId};
use indexmap::IndexMap;
use qz_values::{Ty, type2};
use std::alloc::{AllocError, Global};

/// The nets so far, each at its number with its type.
#[derive(Drop)]
pub struct NetTable {
    nets: IndexMap<Net, Ty>,
    ghost sound: { AreNets nets.entries } by { Prim.hlevel props },
}

impl NetTable {
    ghost use Rattle.qz_nets.specs.Readings.{count, net_in, type_in, Extends};

    /// A table without nets.
    pub fn new(alloc: Global) -> NetTable
        ensures { count result ≡ 0 }
    {
        NetTable {
            nets: IndexMap::new(alloc),
        }
    }

    /// The number of a net: the one that it has, or else the next. Its operands are nets of the
    /// table, and their types fit.
    ///
    /// # Errors
    ///
    /// Want of memory alone; then the table is as it was.
    pub fn add(&mut self, net: Net) -> Result<NetId, AllocError>
        requires { IsSome (net_type (type_in self.old) net) }
        ensures extends { Extends self.old self.new }
        ensures net { IfOk result (λ id. net_in self.new id.0 ≡ Some net) }
        ensures ty { IfOk result (λ id. type_in self.new id.0 ≡ net_type (type_in self.old) net) }
        ensures count { IfOk result (λ id. count self.new ≡ max (count self.old) (suc id.0)) }
        ensures err { OnErr result (self.new.nets.entries ≡ self.old.nets.entries) }
    {
        let ty = self.type_of(net);
        let (number, _) = self.nets.insert_full(net, ty)?;
        Ok(NetId(number as u64))
    }

    /// How many nets there are.
    pub fn len(&self) -> u64
        ensures { result ≡ count self.now }
    {
        self.nets.len() as u64
    }

    /// The net of a number that is in range.
    pub fn get(&self, id: NetId) -> &Net
        requires { id.0 < count self.now }
        ensures { net_in self.now id.0 ≡ Some result.now }
    {
        let (net, _) = self.nets.get_index(id.0 as usize).unwrap();
        net
    }

    /// The type of a number's net. The number is in range.
    pub fn ty(&self, id: NetId) -> Ty
        requires { id.0 < count self.now }
        ensures { type_in self.now id.0 ≡ Some result }
    {
        let (_, ty) = self.nets.get_index(id.0 as usize).unwrap();
        *ty
    }

    /// The net of a number, where there is one.
    pub(crate) fn at(&self, id: NetId) -> Option<Net>
        ensures { result ≡ net_in self.now id.0 }
    {
        let (net, _) = self.nets.get_index(id.0 as usize)?;
        Some(*net)
    }

    /// The type of a net whose operands are nets of the table and fit.
    fn type_of(&self, net: Net) -> Ty
        requires { IsSome (net_type (type_in self.now) net) }
        ensures { net_type (type_in self.now) net ≡ Some result }
    {
        match net {
            Net::Const(value) => value.ty(),
            Net::Leaf(_, ty) => ty,
            Net::Un(_, a) => self.ty(a),
            Net::Bin(op, a, b) => type2(op, self.ty(a), self.ty(b)).unwrap(),
            Net::Choose(_, a, _) => self.ty(a),
            Net::Bit(_, _) => Ty::Bool,
            Net::Slice(_, high, low) => Ty::Bv(high - low + 1),
            Net::Concat(a, b) => Ty::Bv(width(self.ty(a)) + width(self.ty(b))),
        }
    }
}

/// How many bits a value of the type has.
fn width(ty: Ty) -> u8
    ensures { result ≡ width_of ty }
{
    match ty {
        Ty::Bool => 1,
        Ty::Bv(width) => width,
    }
}
