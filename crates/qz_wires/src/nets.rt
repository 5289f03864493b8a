//! The rails of the nets of a table.

ghost use Rattle.std.specs.Prelude.{◌≡◌, ◌≤◌, ◌<◌, ℕ, IfOk, OnOk, Some, length, slice_get};
ghost use Rattle.qz_values.specs.declared.Ty.{Ty as Kind};
ghost use Rattle.qz_nets.specs.Readings.{count, type_in, Reading, Reads as ReadsNets};
ghost use Rattle.qz_verilog.specs.Meaning.{Nets};
ghost use Rattle.qz_wires.specs.WireTable.{types_in, Reads, Extends};
ghost use Rattle.qz_wires.specs.Rails.{ShowEach, Shows, IsRail};
ghost use Rattle.qz_wires.specs.NetRails.{AreLeafRails, AreNetRails};

use crate::operators::{apply1, apply2, bit, choose, concat, constant, slice};
use crate::rails::Rail;
use crate::wires::Wires;
use qz_nets::{Net, NetId, NetTable};
use std::alloc::{AllocError, Global};

/// The rail of each net of the table, by the nets' numbers, from the rails of its leaves, by the
/// leaves' numbers.
pub fn net_rails(
    alloc: Global,
    wires: &mut Wires,
    nets: &NetTable,
    leaves: &[Rail],
) -> Result<Vec<Rail>, AllocError>
    requires { AreLeafRails (types_in wires.old) nets.now leaves.now }
    ensures extends { OnOk result (Extends wires.old wires.new) }
    ensures size { IfOk result (λ rails. length rails.items ≡ count nets.now) }
    ensures rails { IfOk result (λ rails. AreNetRails (types_in wires.new) nets.now rails.items) }
    ensures means { IfOk result (λ rails. (settled : Nets) → Reads settled wires.new → (v : Reading) → ReadsNets v nets.now →
        ShowEach settled leaves.now v.leaf → ShowEach settled rails.items v.know) }
{
    let mut rails = Vec::new(alloc);
    for number in 0..nets.len() {
        let rail = net_rail(wires, nets, leaves, &rails, NetId(number))?;
        rails.push(rail)?;
    }
    Ok(rails)
}

/// The rail of the next net, from those of the nets before it.
fn net_rail(
    wires: &mut Wires,
    nets: &NetTable,
    leaves: &[Rail],
    rails: &[Rail],
    id: NetId,
) -> Result<Rail, AllocError>
    requires below { id.0 < count nets.now }
    requires next { id.0 ≡ length rails.now }
    requires leaves { AreLeafRails (types_in wires.old) nets.now leaves.now }
    requires rails { AreNetRails (types_in wires.old) nets.now rails.now }
    ensures extends { OnOk result (Extends wires.old wires.new) }
    ensures rail { IfOk result (λ r. (t : Kind) → type_in nets.now id.0 ≡ Some t → IsRail (types_in wires.new) t r) }
    ensures means { IfOk result (λ r. (settled : Nets) → Reads settled wires.new → (v : Reading) → ReadsNets v nets.now →
        ShowEach settled leaves.now v.leaf → ShowEach settled rails.now v.know → Shows settled r (v.know id.0)) }
{
    let given = nets.ty(id);
    match *nets.get(id) {
        Net::Const(value) => {
            let r = constant(wires, value)?;
            Ok(r)
        }
        Net::Leaf(number, _) => Ok(rail_of(leaves, number)),
        Net::Un(op, a) => {
            let only = rail_of(rails, a.0);
            let r = apply1(wires, op, given, only)?;
            Ok(r)
        }
        Net::Bin(op, a, b) => {
            let ty = nets.ty(a);
            let left = rail_of(rails, a.0);
            let right = rail_of(rails, b.0);
            let r = apply2(wires, op, ty, given, left, right)?;
            Ok(r)
        }
        Net::Choose(c, a, b) => {
            let condition = rail_of(rails, c.0);
            let first = rail_of(rails, a.0);
            let second = rail_of(rails, b.0);
            let r = choose(wires, given, condition, first, second)?;
            Ok(r)
        }
        Net::Bit(a, index) => {
            let whole = rail_of(rails, a.0);
            let r = bit(wires, whole, index)?;
            Ok(r)
        }
        Net::Slice(a, high, low) => {
            let whole = rail_of(rails, a.0);
            let r = slice(wires, given, whole, high, low)?;
            Ok(r)
        }
        Net::Concat(a, b) => {
            let upper = rail_of(rails, a.0);
            let lower = rail_of(rails, b.0);
            let r = concat(wires, given, upper, lower)?;
            Ok(r)
        }
    }
}

/// The rail of a number that is in range.
fn rail_of(rails: &[Rail], number: u64) -> Rail
    requires { number < length rails.now }
    ensures { slice_get rails.now number ≡ Some result }
{
    rails[number as usize]
}
