//! Where control rests after a start.

ghost use Rattle.std.specs.Prelude.{◌≡◌, map, true, false, None, IfOk, OnOk, if◌then◌else◌};
ghost use Rattle.std.specs.Option.{option_map};
ghost use Rattle.qz_syntax.specs.declared.places.Residual.TheVariants.{InBody, InIf};
ghost use Rattle.qz_values.specs.Knowledge.{both, either, opposite, knows_yes};
ghost use Rattle.qz_meaning.specs.Scenes.{Passing};
ghost use Rattle.qz_meaning.specs.Sequences.{ends_of_all, rest_in_first};
ghost use Rattle.qz_meaning.specs.Parallels.{parallel};
ghost use Rattle.qz_meaning.specs.Aborts.{abort};
ghost use Rattle.qz_meaning.specs.Suspends.{ends_on_start, rest_on_start, stays_held};
ghost use Rattle.qz_meaning.specs.Scopes.{scope};
ghost use Rattle.qz_meaning.specs.Calls.{bound_body};
ghost use Rattle.qz_meaning.specs.Residing.{residing, walk};
ghost use Rattle.qz_react.specs.Contexts.{context_of};
ghost use Rattle.qz_react.specs.Landing.{Passes, seeking, found_by};

use crate::bindings::{bind, unbind};
use crate::expressions::value;
use crate::here::Here;
use crate::operators::{and, holds, no, or, yes};
use crate::residing::{
    Land, Rested, at_hold, in_body, in_member, in_members, in_scope, in_side, next_number,
};
use crate::starts::{chosen_ends, unless};
use qz_syntax::{Binding, Expr, Kind, Mark, Residual, Stmt};
use qz_values::Know;
use sqlite_items::Items;
use std::alloc::AllocError;

/// Whether a statement that is started with a mark ends, and where control rests in it then.
#[cycle(rests)]
pub fn rest(land: &Land, here: &mut Here, s: &Stmt, m: Mark) -> Result<Rested, AllocError>
    ensures here { OnOk result (context_of here.new ≡ context_of here.old) }
    ensures rested { IfOk result (λ one. (step : Passing) → Passes land.now.module.now land.now.view.table.now land.now.view.env.now step
        → one ≡ record {
          ends = (walk step s.now).ends (context_of here.old) m;
          place = (walk step s.now).rest (context_of here.old) m;
        }) }
{
    match s {
        Stmt::Nothing | Stmt::Assign(..) | Stmt::Delayed(..) | Stmt::Call(..) => Ok(Rested {
            ends: yes(),
            place: None,
        }),
        Stmt::Pause(place) => Ok(Rested {
            ends: no(),
            place: Some(Residual::At(*place)),
        }),
        Stmt::Seq(parts) => rest_parts(land, here, parts.as_slice(), 0, yes(), m),
        Stmt::Par(parts) => rest_all(land, here, parts.as_slice(), m),
        Stmt::If(condition, first, second) => {
            let c = value(&land.view, here, condition)?;
            let one = rest(land, here, first.get(), m)?;
            let other = rest(land, here, second.get(), m)?;
            let chosen = rest_side(land, c, one, other)?;
            Ok(chosen)
        }
        Stmt::Loop(_, body, _) => {
            let one = rest(land, here, body.get(), m)?;
            let place = in_body(land, one.place)?;
            Ok(Rested { ends: no(), place })
        }
        Stmt::Abort(kind, body, condition) => rest_abort(
            land,
            here,
            *kind,
            body.get(),
            condition,
            m,
        ),
        Stmt::Suspend(kind, hold, body, condition) => rest_suspend(
            land,
            here,
            *kind,
            *hold,
            body.get(),
            condition,
            m,
        ),
        Stmt::Scope(locals, body) => rest_scope(land, here, body.get(), locals.as_slice(), m),
        Stmt::Bind(bindings, body) => rest_bound(land, here, body.get(), bindings.as_slice(), m),
    }
}

/// The side of an `if` that is chosen.
fn rest_side(land: &Land, c: Know, first: Rested, second: Rested) -> Result<Rested, AllocError>
    ensures { IfOk result (λ one. one ≡ record {
      ends = either (both c first.ends) (both (opposite c) second.ends);
      place = (if knows_yes c then option_map (λ r. InIf true r) first.place else option_map (λ r. InIf false r) second.place);
    }) }
{
    let ends = chosen_ends(c, first.ends, second.ends)?;
    if holds(c) {
        let place = in_side(land, true, first.place)?;
        Ok(Rested { ends, place })
    } else {
        let place = in_side(land, false, second.place)?;
        Ok(Rested { ends, place })
    }
}

/// What is sought among members: the first that doesn't end.
#[derive(Debug, Drop)]
pub enum Search {
    /// It isn't among those before this number.
    From(u32),
    /// It is found, and control rests so.
    Found(Option<Residual>),
}

/// Goes on past one member.
fn sought_on(land: &Land, search: Search, one: Rested) -> Result<Search, AllocError>
    ensures { IfOk result (λ next. next ≡ seeking search one) }
{
    match search {
        Search::From(number) => {
            if holds(one.ends) {
                let next = next_number(number)?;
                Ok(Search::From(next))
            } else {
                let place = in_member(land, number, one.place)?;
                Ok(Search::Found(place))
            }
        }
        Search::Found(place) => Ok(Search::Found(place)),
    }
}

/// Where control rests in the member that was sought.
fn found(search: Search) -> Option<Residual>
    ensures { result ≡ found_by search }
{
    match search {
        Search::From(_) => None,
        Search::Found(place) => place,
    }
}

/// Some members in turn, of which `number` is the first one's number.
#[cycle(rests)]
#[tactic(auto, using(crate::proofs::Ways::searching))]
pub fn rest_parts(
    land: &Land,
    here: &mut Here,
    parts: &[Stmt],
    number: u32,
    so_far: Know,
    m: Mark,
) -> Result<Rested, AllocError>
    ensures here { OnOk result (context_of here.new ≡ context_of here.old) }
    ensures rested { IfOk result (λ one. (step : Passing) → Passes land.now.module.now land.now.view.table.now land.now.view.env.now step
        → one ≡ record {
          ends = ends_of_all (context_of here.old) (map (walk step) parts.now) so_far m;
          place = rest_in_first (residing step) (context_of here.old) (map (walk step) parts.now) number m;
        }) }
{
    let mut so_far = so_far;
    let mut search = Search::From(number);
    for part in parts {
        let one = rest(land, here, part, m)?;
        so_far = and(so_far, one.ends)?;
        search = sought_on(land, search, one)?;
    }
    Ok(Rested {
        ends: so_far,
        place: found(search),
    })
}

/// All members at once.
#[cycle(rests)]
fn rest_all(land: &Land, here: &mut Here, parts: &[Stmt], m: Mark) -> Result<Rested, AllocError>
    ensures here { OnOk result (context_of here.new ≡ context_of here.old) }
    ensures rested { IfOk result (λ one. (step : Passing) → Passes land.now.module.now land.now.view.table.now land.now.view.env.now step
        → one ≡ record {
          ends = (parallel (residing step) (map (walk step) parts.now)).ends (context_of here.old) m;
          place = (parallel (residing step) (map (walk step) parts.now)).rest (context_of here.old) m;
        }) }
{
    let mut so_far = yes();
    let mut branches = Vec::new(land.alloc);
    for part in parts {
        let one = rest(land, here, part, m)?;
        so_far = and(so_far, one.ends)?;
        branches.push(one.place)?;
    }
    Ok(Rested {
        ends: so_far,
        place: in_members(Items::from_vec(branches)),
    })
}

/// The body of an abort.
#[cycle(rests)]
fn rest_abort(
    land: &Land,
    here: &mut Here,
    kind: Kind,
    body: &Stmt,
    condition: &Expr,
    m: Mark,
) -> Result<Rested, AllocError>
    ensures here { OnOk result (context_of here.new ≡ context_of here.old) }
    ensures rested { IfOk result (λ one. (step : Passing) → Passes land.now.module.now land.now.view.table.now land.now.view.env.now step
        → one ≡ record {
          ends = (abort step.now (residing step) kind (walk step body.now) condition.now).ends (context_of here.old) m;
          place = (abort step.now (residing step) kind (walk step body.now) condition.now).rest (context_of here.old) m;
        }) }
{
    if kind.immediate {
        let c = value(&land.view, here, condition)?;
        let one = rest(land, here, body, m)?;
        let ends = or(c, one.ends)?;
        let place = unless_left(land, c, one.place)?;
        Ok(Rested { ends, place })
    } else {
        let one = rest(land, here, body, m)?;
        let place = in_body(land, one.place)?;
        Ok(Rested {
            ends: one.ends,
            place,
        })
    }
}

/// Where control rests in a body, unless the condition holds.
pub fn unless_left(
    land: &Land,
    condition: Know,
    inside: Option<Residual>,
) -> Result<Option<Residual>, AllocError>
    ensures { IfOk result (λ place. place ≡ (if knows_yes condition then None else option_map (λ r. InBody r) inside)) }
{
    if holds(condition) {
        Ok(None)
    } else {
        in_body(land, inside)
    }
}

/// The body of a suspend, or its hold place.
#[cycle(rests)]
pub fn rest_suspend(
    land: &Land,
    here: &mut Here,
    kind: Kind,
    hold: Option<u32>,
    body: &Stmt,
    condition: &Expr,
    m: Mark,
) -> Result<Rested, AllocError>
    ensures here { OnOk result (context_of here.new ≡ context_of here.old) }
    ensures rested { IfOk result (λ one. (step : Passing) → Passes land.now.module.now land.now.view.table.now land.now.view.env.now step
        → one ≡ record {
          ends = ends_on_start step.now kind (walk step body.now) condition.now (context_of here.old) m;
          place = rest_on_start step.now (residing step) kind hold (walk step body.now) condition.now (context_of here.old) m;
        }) }
{
    if kind.immediate {
        let c = value(&land.view, here, condition)?;
        let one = rest(land, here, body, m)?;
        let ends = unless(c, one.ends)?;
        let place = held_or_inside(land, c, hold, one.place)?;
        Ok(Rested { ends, place })
    } else {
        let one = rest(land, here, body, m)?;
        let place = in_body(land, one.place)?;
        Ok(Rested {
            ends: one.ends,
            place,
        })
    }
}

/// At the hold place where the condition holds, and else where control rests in the body.
fn held_or_inside(
    land: &Land,
    condition: Know,
    hold: Option<u32>,
    inside: Option<Residual>,
) -> Result<Option<Residual>, AllocError>
    ensures { IfOk result (λ place. (step : Passing) → place
        ≡ (if knows_yes condition then stays_held (residing step) hold else (residing step).in_body inside)) }
{
    if holds(condition) {
        Ok(at_hold(hold))
    } else {
        in_body(land, inside)
    }
}

/// A scope, whose locals have new instances.
#[cycle(rests)]
#[tactic(auto, using(crate::proofs::Placing::left))]
fn rest_scope(
    land: &Land,
    here: &mut Here,
    body: &Stmt,
    locals: &[u32],
    m: Mark,
) -> Result<Rested, AllocError>
    ensures here { OnOk result (context_of here.new ≡ context_of here.old) }
    ensures rested { IfOk result (λ one. (step : Passing) → Passes land.now.module.now land.now.view.table.now land.now.view.env.now step
        → one ≡ record {
          ends = (scope (residing step) locals.now (walk step body.now)).ends (context_of here.old) m;
          place = (scope (residing step) locals.now (walk step body.now)).rest (context_of here.old) m;
        }) }
{
    if !here.is_outside(locals) {
        return Err(AllocError);
    }
    here.set_marks(locals, m)?;
    let one = rest(land, here, body, m)?;
    here.set_marks(locals, Mark::Zero)?;
    let place = in_scope(land, locals, m, one.place)?;
    Ok(Rested {
        ends: one.ends,
        place,
    })
}

/// A callee's body, with its arguments bound.
#[cycle(rests)]
fn rest_bound(
    land: &Land,
    here: &mut Here,
    body: &Stmt,
    bindings: &[Binding],
    m: Mark,
) -> Result<Rested, AllocError>
    ensures here { OnOk result (context_of here.new ≡ context_of here.old) }
    ensures rested { IfOk result (λ one. (step : Passing) → Passes land.now.module.now land.now.view.table.now land.now.view.env.now step
        → one ≡ record {
          ends = (bound_body step.now bindings.now (walk step body.now)).ends (context_of here.old) m;
          place = (bound_body step.now bindings.now (walk step body.now)).rest (context_of here.old) m;
        }) }
{
    bind(&land.view, here, bindings)?;
    let one = rest(land, here, body, m)?;
    unbind(here, bindings)?;
    Ok(one)
}
