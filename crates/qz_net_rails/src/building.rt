//! Net by net.

ghost use Rattle.std.specs.Prelude.{length, ◌≡◌, ◌<◌, ◌≤◌, IfOk, Some, slice_get};
ghost use Rattle.qz_dd.specs.Tables.{Extends};
ghost use Rattle.qz_values.specs.declared.Ty.{Ty as Kind};
ghost use Rattle.qz_nets.specs.Readings.{count, type_in};
ghost use Rattle.qz_net_rails.specs.NetRails.{AreLeafRails, IsNetRail, AreNetRails};

use qz_dd::Diagrams;
use qz_nets::{Net, NetId, NetTable};
use qz_rails::{Rail, apply1, apply2, bit, choose, concat, constant, slice};
use qz_values::Ty;
use std::alloc::{AllocError, Global};

/// The rail of each net of the table, by the nets' numbers, from the rails of its leaves, by the
/// leaves' numbers.
#[tactic(auto, using(crate::proofs::Growing::leaves_grow, crate::proofs::Growing::rails_grow, crate::proofs::Growing::one_more))]
pub fn net_rails(
    diagrams: &mut Diagrams,
    alloc: Global,
    nets: &NetTable,
    leaves: &[Rail],
) -> Result<Vec<Rail>, AllocError>
    requires { AreLeafRails diagrams.old nets.now leaves.now }
    ensures extends { Extends diagrams.old diagrams.new }
    ensures size { IfOk result (λ r. length r.items ≡ count nets.now) }
    ensures rails { IfOk result (λ r. AreNetRails diagrams.new nets.now leaves.now r.items) }
{
    let mut rails = Vec::new(alloc);
    for number in 0..nets.len() {
        let rail = net_rail(diagrams, alloc, nets, leaves, &rails, NetId(number))?;
        rails.push(rail)?;
    }
    Ok(rails)
}

/// The rail of the next net, from those of the nets before it.
fn net_rail(
    diagrams: &mut Diagrams,
    alloc: Global,
    nets: &NetTable,
    leaves: &[Rail],
    rails: &[Rail],
    id: NetId,
) -> Result<Rail, AllocError>
    requires below { id.0 < count nets.now }
    requires next { id.0 ≡ length rails.now }
    requires leaves { AreLeafRails diagrams.old nets.now leaves.now }
    requires rails { AreNetRails diagrams.old nets.now leaves.now rails.now }
    ensures extends { Extends diagrams.old diagrams.new }
    ensures rail { IfOk result (λ r. (t : Kind) → type_in nets.now id.0 ≡ Some t → IsNetRail diagrams.new nets.now leaves.now id.0 t r) }
{
    match *nets.get(id) {
        Net::Const(value) => {
            let r = constant(diagrams, alloc, value)?;
            Ok(r)
        }
        Net::Leaf(number, _) => {
            let r = leaves[number as usize].copied(alloc)?;
            Ok(r)
        }
        Net::Un(op, a) => {
            let only = operand_of(nets, rails, a);
            let r = apply1(diagrams, alloc, op, only.ty, only.rail)?;
            Ok(r)
        }
        Net::Bin(op, a, b) => {
            let left = operand_of(nets, rails, a);
            let right = operand_of(nets, rails, b);
            let r = apply2(diagrams, alloc, op, left.ty, left.rail, right.rail)?;
            Ok(r)
        }
        Net::Choose(c, a, b) => {
            let condition = operand_of(nets, rails, c);
            let first = operand_of(nets, rails, a);
            let second = operand_of(nets, rails, b);
            let r = choose(
                diagrams,
                alloc,
                first.ty,
                condition.rail,
                first.rail,
                second.rail,
            )?;
            Ok(r)
        }
        Net::Bit(a, index) => {
            let whole = operand_of(nets, rails, a);
            let r = bit(diagrams, alloc, whole.ty, whole.rail, index)?;
            Ok(r)
        }
        Net::Slice(a, high, low) => {
            let whole = operand_of(nets, rails, a);
            let r = slice(diagrams, alloc, whole.ty, whole.rail, high, low)?;
            Ok(r)
        }
        Net::Concat(a, b) => {
            let upper = operand_of(nets, rails, a);
            let lower = operand_of(nets, rails, b);
            let r = concat(diagrams, alloc, upper.ty, lower.ty, upper.rail, lower.rail)?;
            Ok(r)
        }
    }
}

/// The type and the rail of a net.
#[derive(Clone, Copy)]
struct Operand<'a> {
    ty: Ty,
    rail: &'a Rail,
}

/// The type and the rail of a net that has its rail.
fn operand_of<'a>(nets: &NetTable, rails: &'a [Rail], id: NetId) -> Operand<'a>
    requires there { id.0 < length rails.now }
    requires short { length rails.now ≤ count nets.now }
    ensures ty { type_in nets.now id.0 ≡ Some result.ty }
    ensures rail { slice_get rails.now id.0 ≡ Some result.rail.now }
{
    Operand {
        ty: nets.ty(id),
        rail: &rails[id.0 as usize],
    }
}
