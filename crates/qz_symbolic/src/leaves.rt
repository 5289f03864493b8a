//! The rails of leaves and of nets, from what was known of the instances.

ghost use Rattle.std.specs.Prelude.{◌≡◌, ◌<◌, IfOk, length, true};
ghost use Rattle.qz_dd.specs.Tables.{Extends};
ghost use Rattle.qz_system.specs.declared.parts.SystemParts.{SystemParts as PartsOf};
ghost use Rattle.qz_system.specs.Parts.{AreParts, is_leaf_right};
ghost use Rattle.qz_symbolic.specs.Variables.{spots, AreVariables};
ghost use Rattle.qz_symbolic.specs.Telling.{AreInstanceRails};
ghost use Rattle.qz_symbolic.specs.Knowing.{IsLeafRail, AreRailsOfLeaves, AreRailsOfNets};

use crate::rails::InstanceRails;
use crate::variables::Variables;
use qz_dd::Diagrams;
use qz_net_rails::net_rails;
use qz_rails::{Rail, variable};
use qz_system::{SystemLeaf, SystemParts};
use qz_values::Ty;
use std::alloc::{AllocError, Global};

/// The rail of each net, by the nets' numbers.
pub(crate) fn rails_of_nets(
    diagrams: &mut Diagrams,
    alloc: Global,
    parts: &SystemParts,
    variables: &Variables,
    before: &[InstanceRails],
) -> Result<Vec<Rail>, AllocError>
    requires parts { AreParts parts.now }
    requires variables { AreVariables parts.now variables.now }
    requires count { diagrams.old.vars ≡ length (spots parts.now) }
    requires before { AreInstanceRails diagrams.old parts.now before.now }
    ensures extends { Extends diagrams.old diagrams.new }
    ensures rails { IfOk result (λ r. AreRailsOfNets diagrams.new parts.now before.now r.items) }
{
    let leaves = rails_of_leaves(diagrams, alloc, parts, variables, before)?;
    let r = net_rails(diagrams, alloc, &parts.table, &leaves)?;
    Ok(r)
}

/// The rail of each leaf, by the leaves' numbers.
fn rails_of_leaves(
    diagrams: &mut Diagrams,
    alloc: Global,
    parts: &SystemParts,
    variables: &Variables,
    before: &[InstanceRails],
) -> Result<Vec<Rail>, AllocError>
    requires parts { AreParts parts.now }
    requires variables { AreVariables parts.now variables.now }
    requires count { diagrams.old.vars ≡ length (spots parts.now) }
    requires before { AreInstanceRails diagrams.old parts.now before.now }
    ensures extends { Extends diagrams.old diagrams.new }
    ensures rails { IfOk result (λ r. AreRailsOfLeaves diagrams.new parts.now before.now r.items) }
{
    let mut all = Vec::new(alloc);
    for one in parts.leaves.as_slice() {
        let rail = rail_of_leaf(diagrams, alloc, parts, variables, before, *one)?;
        all.push(rail)?;
    }
    Ok(all)
}

/// The rail of what a leaf stands for.
fn rail_of_leaf(
    diagrams: &mut Diagrams,
    alloc: Global,
    parts: &SystemParts,
    variables: &Variables,
    before: &[InstanceRails],
    one: SystemLeaf,
) -> Result<Rail, AllocError>
    requires parts { AreParts parts.now }
    requires variables { AreVariables parts.now variables.now }
    requires count { diagrams.old.vars ≡ length (spots parts.now) }
    requires before { AreInstanceRails diagrams.old parts.now before.now }
    requires right { is_leaf_right parts.now one ≡ true }
    ensures extends { Extends diagrams.old diagrams.new }
    ensures rail { IfOk result (λ r. IsLeafRail diagrams.new parts.now before.now one r) }
{
    match one {
        SystemLeaf::Input(input) => {
            let port = &parts.inputs.as_slice()[input as usize];
            let own = &variables.inputs[input as usize];
            let r = variable(diagrams, alloc, port.ty, &own.bits)?;
            Ok(r)
        }
        SystemLeaf::Now(instance) => {
            let r = before[instance as usize].now.copied(alloc)?;
            Ok(r)
        }
        SystemLeaf::At(place) => {
            let r = variable(diagrams, alloc, Ty::Bool, &[place + 1])?;
            Ok(r)
        }
        SystemLeaf::Started => {
            let r = variable(diagrams, alloc, Ty::Bool, &[0])?;
            Ok(r)
        }
    }
}
