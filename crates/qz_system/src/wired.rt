//! Whether the nets of a system read leaves that there are, and acts, next places and carries go by
//! nets of their types.

ghost use Rattle.std.specs.Prelude.{◌≡◌, ◌<◌, Some};
ghost use Rattle.std.specs.List.{list_all};
ghost use Rattle.qz_values.specs.declared.Ty.{Ty as TyOf};
ghost use Rattle.qz_values.specs.declared.Ty.TheVariants.{Bool as Truth};
ghost use Rattle.qz_nets.specs.declared.net.Net.{Net as NetOf};
ghost use Rattle.qz_nets.specs.Readings.{type_in};
ghost use Rattle.qz_system.specs.Parts.{input_type, cell_type, instance_type, is_the, are_one, leaf_stands, leaf_at, is_net_right, is_leaf_right, is_bool_net, is_act_right, is_next_right, is_carry_right};

use crate::parts::{Act, Carry, SystemLeaf, SystemParts};
use qz_nets::{Net, NetId};
use qz_values::{Ty, is_same_type};
use sqlite_items::at;

/// Whether what each leaf stands for is there.
pub(crate) fn have_leaves(parts: &SystemParts) -> bool
    ensures { result ≡ list_all (λ one. is_leaf_right parts.now one) parts.now.leaves }
{
    parts
        .leaves
        .as_slice()
        .iter()
        .all(|one| leaf_stands(parts, *one).is_some())
}

/// Whether each net that is a leaf is one of the leaves and of its type.
pub(crate) fn are_nets_right(parts: &SystemParts) -> bool
    ensures { result ≡ list_all (λ (entry : NetOf × TyOf). is_net_right parts.now entry.0) parts.now.table.nets.entries }
{
    for number in 0..parts.table.len() {
        if !is_net_right(parts, *parts.table.get(NetId(number))) {
            return false;
        }
    }
    true
}

/// Whether a net, if it is a leaf, is one of the leaves and of its type.
fn is_net_right(parts: &SystemParts, net: Net) -> bool
    ensures { result ≡ is_net_right parts.now net }
{
    match net {
        Net::Leaf(number, ty) => is_the(ty, leaf_at(parts, number)),
        Net::Const(_)
        | Net::Un(..)
        | Net::Bin(..)
        | Net::Choose(..)
        | Net::Bit(..)
        | Net::Slice(..)
        | Net::Concat(..) => true,
    }
}

/// The type of the leaf with this number, if there is one.
fn leaf_at(parts: &SystemParts, number: u64) -> Option<Ty>
    ensures { result ≡ leaf_at parts.now number }
{
    match at(parts.leaves.as_slice(), number as usize) {
        Some(one) => leaf_stands(parts, *one),
        None => None,
    }
}

/// The type of what a leaf stands for, if there is that.
pub(crate) fn leaf_stands(parts: &SystemParts, one: SystemLeaf) -> Option<Ty>
    ensures { result ≡ leaf_stands parts.now one }
{
    match one {
        SystemLeaf::Input(input) => input_type(parts, input as usize),
        SystemLeaf::Now(instance) => instance_type(parts, instance as usize),
        SystemLeaf::At(place) => {
            if (place as usize) < parts.places.len() {
                Some(Ty::Bool)
            } else {
                None
            }
        }
        SystemLeaf::Started => Some(Ty::Bool),
    }
}

/// The type of an input, if there is one.
fn input_type(parts: &SystemParts, input: usize) -> Option<Ty>
    ensures { result ≡ input_type parts.now input }
{
    match at(parts.inputs.as_slice(), input) {
        Some(port) => Some(port.ty),
        None => None,
    }
}

/// The type of a cell, if there is one.
fn cell_type(parts: &SystemParts, cell: usize) -> Option<Ty>
    ensures { result ≡ cell_type parts.now cell }
{
    match at(parts.cells.as_slice(), cell) {
        Some(one) => Some(one.ty),
        None => None,
    }
}

/// The type of an instance's cell, if there is one.
pub(crate) fn instance_type(parts: &SystemParts, instance: usize) -> Option<Ty>
    ensures { result ≡ instance_type parts.now instance }
{
    match at(parts.instances.as_slice(), instance) {
        Some(one) => cell_type(parts, one.cell as usize),
        None => None,
    }
}

/// Whether each act writes a value of its type to an instance that there is.
pub(crate) fn are_acts_right(parts: &SystemParts) -> bool
    ensures { result ≡ list_all (λ act. is_act_right parts.now act) parts.now.acts }
{
    parts
        .acts
        .as_slice()
        .iter()
        .all(|act| is_act_right(parts, *act))
}

fn is_act_right(parts: &SystemParts, act: Act) -> bool
    ensures { result ≡ is_act_right parts.now act }
{
    is_bool_net(parts, act.guard)
        && are_one(
            instance_type(parts, act.instance as usize),
            net_type(parts, act.value),
        )
}

/// Whether the place of each entry is there.
pub(crate) fn are_nexts_right(parts: &SystemParts) -> bool
    ensures { result ≡ list_all (λ one. is_next_right parts.now one) parts.now.nexts }
{
    parts
        .nexts
        .as_slice()
        .iter()
        .all(|one| is_next_right(parts, *one))
}

fn is_next_right(parts: &SystemParts, one: (u32, NetId)) -> bool
    ensures { result ≡ is_next_right parts.now one }
{
    let (place, when) = one;
    (place as usize) < parts.places.len() && is_bool_net(parts, when)
}

/// Whether the cell of each carry is there, and its instance is one of it.
pub(crate) fn are_carries_right(parts: &SystemParts) -> bool
    ensures { result ≡ list_all (λ carry. is_carry_right parts.now carry) parts.now.carries }
{
    parts
        .carries
        .as_slice()
        .iter()
        .all(|carry| is_carry_right(parts, *carry))
}

fn is_carry_right(parts: &SystemParts, carry: Carry) -> bool
    ensures { result ≡ is_carry_right parts.now carry }
{
    if (carry.cell as usize) >= parts.cells.len() {
        return false;
    }
    match at(parts.instances.as_slice(), carry.instance as usize) {
        Some(one) => one.cell == carry.cell && is_bool_net(parts, carry.when),
        None => false,
    }
}

/// Whether a net is there, and is a bool.
fn is_bool_net(parts: &SystemParts, id: NetId) -> bool
    ensures { result ≡ is_bool_net parts.now id }
{
    is_the(Ty::Bool, net_type(parts, id))
}

/// The type of a net, if it is there.
fn net_type(parts: &SystemParts, id: NetId) -> Option<Ty>
    ensures { result ≡ type_in parts.now.table id.0 }
{
    if id.0 < parts.table.len() {
        Some(parts.table.ty(id))
    } else {
        None
    }
}

/// Whether a type is there, and is this one.
fn is_the(ty: Ty, other: Option<Ty>) -> bool
    ensures { result ≡ is_the ty other }
{
    match other {
        Some(t) => is_same_type(t, ty),
        None => false,
    }
}

/// Whether two types are there, and are one.
fn are_one(a: Option<Ty>, b: Option<Ty>) -> bool
    ensures { result ≡ are_one a b }
{
    match a {
        Some(ty) => is_the(ty, b),
        None => false,
    }
}
