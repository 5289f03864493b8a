//! The spots of a module as next places and carries.

ghost use Rattle.std.specs.Prelude.{◌≡◌, ◌++◌, IfOk, OnOk};
ghost use Rattle.std.specs.List.{filter_map};
ghost use Rattle.std.specs.Option.{option_to_list};
ghost use Rattle.qz_syntax.specs.declared.modules.Module.{Module as OfTree};
ghost use Rattle.qz_single.specs.Numbering.{next_of, carry_of};
ghost use Rattle.qz_single.specs.Numbered.{IsNumbering};

use crate::numbering::Numbering;
use qz_moves::{NetSpot, Rest};
use qz_nets::NetId;
use qz_syntax::Var;
use qz_system::Carry;
use sqlite_items::Items;
use std::alloc::{AllocError, Global};

/// The places where control rests next, after a start and after a resume.
#[tactic(auto, using(crate::proofs::Picked::picked_both))]
pub(crate) fn nexts_of(
    alloc: Global,
    entering: &[NetSpot],
    moving: &[NetSpot],
) -> Result<Items<(u32, NetId)>, AllocError>
    ensures { IfOk result (λ nexts. nexts ≡ filter_map next_of (entering.now ++ moving.now)) }
{
    let mut nexts = Items::new(alloc);
    add_nexts(&mut nexts, entering)?;
    add_nexts(&mut nexts, moving)?;
    Ok(nexts)
}

/// The locals that are kept or entered, after a start and after a resume.
#[tactic(auto, using(crate::proofs::Picked::picked_both))]
pub(crate) fn carries_of(
    alloc: Global,
    numbering: &Numbering,
    entering: &[NetSpot],
    moving: &[NetSpot],
) -> Result<Items<Carry>, AllocError>
    ensures { IfOk result (λ carries. (m : OfTree) → IsNumbering m numbering.now → carries ≡ filter_map (carry_of m) (entering.now ++ moving.now)) }
{
    let mut carries = Items::new(alloc);
    add_carries(&mut carries, numbering, entering)?;
    add_carries(&mut carries, numbering, moving)?;
    Ok(carries)
}

/// Adds the places where control rests next.
#[tactic(auto, using(crate::proofs::Picked::one_more))]
fn add_nexts(nexts: &mut Items<(u32, NetId)>, spots: &[NetSpot]) -> Result<(), AllocError>
    ensures { OnOk result (nexts.new ≡ nexts.old ++ filter_map next_of spots.now) }
{
    for spot in spots {
        add_next(nexts, *spot)?;
    }
    Ok(())
}

fn add_next(nexts: &mut Items<(u32, NetId)>, spot: NetSpot) -> Result<(), AllocError>
    ensures { OnOk result (nexts.new ≡ nexts.old ++ option_to_list (next_of spot)) }
{
    match spot.rest {
        Rest::At(place) => {
            nexts.push((place, spot.when))?;
            Ok(())
        }
        Rest::Keeps(..) => Ok(()),
    }
}

/// Adds the locals that are kept or entered, by their cells and instances.
#[tactic(auto, using(crate::proofs::Picked::one_more))]
fn add_carries(
    carries: &mut Items<Carry>,
    numbering: &Numbering,
    spots: &[NetSpot],
) -> Result<(), AllocError>
    ensures { OnOk result ((m : OfTree) → IsNumbering m numbering.now → carries.new ≡ carries.old ++ filter_map (carry_of m) spots.now) }
{
    for spot in spots {
        add_carry(carries, numbering, *spot)?;
    }
    Ok(())
}

fn add_carry(
    carries: &mut Items<Carry>,
    numbering: &Numbering,
    spot: NetSpot,
) -> Result<(), AllocError>
    ensures { OnOk result ((m : OfTree) → IsNumbering m numbering.now → carries.new ≡ carries.old ++ option_to_list (carry_of m spot)) }
{
    match spot.rest {
        Rest::At(_) => Ok(()),
        Rest::Keeps(local, mark) => {
            let variable = Var::Local(local);
            let cell = numbering.cell(variable)?;
            carries.push(Carry {
                cell,
                instance: numbering.instance(variable, mark),
                when: spot.when,
            })?;
            Ok(())
        }
    }
}
