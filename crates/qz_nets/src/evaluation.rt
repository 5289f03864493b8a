//! What is known of each net, computed from the first to the last.

ghost use Rattle.std.specs.Prelude.{◌≡◌, ◌<◌, ◌↔◌, ℕ, Some, IsTrue, length};
ghost use Rattle.qz_values.specs.declared.Ty.{Ty};
ghost use Rattle.qz_values.specs.Types.{IsType};
ghost use Rattle.qz_values.specs.Fits.{HasType};
ghost use Rattle.qz_nets.specs.declared.net.Net.TheVariants as net;
ghost use Rattle.qz_nets.specs.Nets.{net_know};
ghost use Rattle.qz_nets.specs.Readings.{count, net_in, listed, reading_of, AreLeaves, Reads, CanBeRead};

use crate::net::{Net, NetId};
use crate::table::NetTable;
use qz_values::{Know, Ty, Value, apply1, apply2, bit, choose, concat, slice};

impl NetTable {
    /// Whether what is known of each leaf of the table is of the leaf's type.
    pub fn takes(&self, leaves: &[Know]) -> bool
        ensures { IsTrue result ↔ AreLeaves self.now (listed leaves.now) }
    {
        for number in 0..self.len() {
            if !self.takes_leaf(NetId(number), leaves) {
                return false;
            }
        }
        true
    }

    /// Whether the net, if it is a leaf, has knowledge of its type.
    fn takes_leaf(&self, id: NetId, leaves: &[Know]) -> bool
        requires { id.0 < count self.now }
        ensures { IsTrue result ↔ ((number : ℕ) (ty : Ty) → net_in self.now id.0 ≡ Some (net.Leaf number ty) → HasType ty (listed leaves.now number)) }
    {
        match *self.get(id) {
            Net::Leaf(number, ty) => is_of(listed(leaves, number), ty),
            _ => true,
        }
    }

    /// Sets `values` to what is known of each net, by its number. `leaves` has what is known of each
    /// leaf, which is of the leaf's type; nothing is known of a leaf that isn't there. `values` has
    /// room for each net of the table.
    pub fn eval_into(&self, leaves: &[Know], values: &mut [Know])
        requires leaves { AreLeaves self.now (listed leaves.now) }
        requires room { length values.old ≡ count self.now }
        ensures reads { Reads (reading_of leaves.now values.new) self.now }
        ensures room { length values.new ≡ length values.old }
    {
        for number in 0..self.len() {
            values[number as usize] = known(*self.get(NetId(number)), leaves, values);
        }
    }
}

/// Whether what is known, if it is a value, is of this type.
fn is_of(know: Know, ty: Ty) -> bool
    requires { IsType ty }
    ensures { IsTrue result ↔ HasType ty know }
{
    match know {
        Know::Known(value) => value.ty() == ty && Value::new(ty, value.bits()).is_some(),
        Know::Unknown | Know::Clash => true,
    }
}

/// What is known of a net, from what is known of the nets before it.
fn known(net: Net, leaves: &[Know], values: &[Know]) -> Know
    requires { CanBeRead (listed leaves.now) (listed values.now) net }
    ensures { result ≡ net_know (listed leaves.now) (listed values.now) net }
{
    match net {
        Net::Const(value) => Know::Known(value),
        Net::Leaf(number, _) => listed(leaves, number),
        Net::Un(op, a) => apply1(op, listed(values, a.0)),
        Net::Bin(op, a, b) => apply2(op, listed(values, a.0), listed(values, b.0)),
        Net::Choose(c, a, b) => choose(
            listed(values, c.0),
            listed(values, a.0),
            listed(values, b.0),
        ),
        Net::Bit(a, index) => bit(listed(values, a.0), index),
        Net::Slice(a, high, low) => slice(listed(values, a.0), high, low),
        Net::Concat(a, b) => concat(listed(values, a.0), listed(values, b.0)),
    }
}

/// What is known by this number, and nothing where there is none.
fn listed(knows: &[Know], number: u64) -> Know
    ensures { result ≡ listed knows.now number }
{
    knows.get(number as usize).copied().unwrap_or(Know::Unknown)
}
