//! Spots: what is so after a step, each with its net.

ghost use Rattle.std.specs.Prelude.{◌≡◌, ◌++◌, ◌∷◌, [], OnOk};
ghost use Rattle.qz_moves.specs.declared.spots.Rest.TheVariants as rest;
ghost use Rattle.qz_moves.specs.Appended.{kept};

use qz_nets::NetId;
use qz_syntax::Mark;
use std::alloc::AllocError;

/// What is so after a step.
#[derive(Clone, Copy, Debug, Drop, PartialEq, Eq, Hash)]
pub enum Rest {
    /// Control rests at a place.
    At(u32),
    /// The scope of a local is kept or entered, by the local's instance with this mark.
    Keeps(u32, Mark),
}

/// What is so after a step where its net is true.
#[derive(Clone, Copy, Debug, Drop, PartialEq, Eq)]
pub struct NetSpot {
    pub rest: Rest,
    pub when: NetId,
}

/// A place where control rests.
pub fn rest_at(spots: &mut Vec<NetSpot>, place: u32, when: NetId) -> Result<(), AllocError>
    ensures { OnOk result (spots.new.items ≡ spots.old.items ++ record { rest = rest.At place; when = when } ∷ []) }
{
    spots.push(NetSpot {
        rest: Rest::At(place),
        when,
    })?;
    Ok(())
}

/// The locals of a scope in which control rests.
pub fn keep(
    spots: &mut Vec<NetSpot>,
    locals: &[u32],
    m: Mark,
    when: NetId,
) -> Result<(), AllocError>
    ensures { OnOk result (spots.new.items ≡ spots.old.items ++ kept locals.now m when) }
{
    for local in locals {
        spots.push(NetSpot {
            rest: Rest::Keeps(*local, m),
            when,
        })?;
    }
    Ok(())
}
