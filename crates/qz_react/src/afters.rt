//! Where control rests after a resume.

ghost use Rattle.std.specs.Prelude.{◌≡◌, ◌+◌, ◌∷◌, [], map, false, Some, None, IfOk, OnOk, if◌then◌else◌};
ghost use Rattle.std.specs.Option.{option_map};
ghost use Rattle.qz_syntax.specs.declared.places.Residual.TheVariants.{At, Hold, InBody, InIf, InSeq};
ghost use Rattle.qz_values.specs.Values.{yes};
ghost use Rattle.qz_values.specs.Knowledge.{both, either, knows_yes};
ghost use Rattle.qz_meaning.specs.Behaviors.{idle};
ghost use Rattle.qz_meaning.specs.Scenes.{Passing};
ghost use Rattle.qz_meaning.specs.Sequences.{sequence, member};
ghost use Rattle.qz_meaning.specs.Parallels.{parallel, resting, ended_of_all};
ghost use Rattle.qz_meaning.specs.Loops.{loop};
ghost use Rattle.qz_meaning.specs.Aborts.{abort};
ghost use Rattle.qz_meaning.specs.Suspends.{suspend};
ghost use Rattle.qz_meaning.specs.Scopes.{scope};
ghost use Rattle.qz_meaning.specs.Calls.{bound_body};
ghost use Rattle.qz_meaning.specs.Residing.{residing, walk, in_some_branch};
ghost use Rattle.qz_react.specs.Contexts.{context_of};
ghost use Rattle.qz_react.specs.Landing.{Passes, by_way, branch_of, suspended_way};

use crate::bindings::{bind, unbind};
use crate::expressions::value;
use crate::here::Here;
use crate::operators::{and, holds, no, or, yes};
use crate::residing::{
    Land, Rested, Way, at_hold, in_body, in_member, in_members, in_scope, in_side, next_number,
};
use crate::residuals::{branches, inside_of, is_at_hold, is_in_first, later, member_number};
use crate::rests::{rest, rest_parts, rest_suspend, unless_left};
use crate::resumes::ended_unless;
use crate::starts::unless;
use qz_syntax::{Binding, Expr, Kind, Mark, Residual, Stmt};
use qz_values::Know;
use sqlite_items::{Items, at};
use std::alloc::AllocError;

/// Whether a statement that is resumed ends, and where control rests in it then: further on, or as
/// it is where it is suspended.
#[cycle(afters)]
#[tactic(auto, using(crate::proofs::Ways::ways))]
pub fn after(
    land: &Land,
    here: &mut Here,
    s: &Stmt,
    r: &Residual,
    way: Way,
) -> Result<Rested, AllocError>
    ensures here { OnOk result (context_of here.new ≡ context_of here.old) }
    ensures rested { IfOk result (λ one. (step : Passing) → Passes land.now.module.now land.now.view.table.now land.now.view.env.now step
        → one ≡ record {
          ends = (walk step s.now).ended (context_of here.old) r.now;
          place = by_way way ((walk step s.now).after (context_of here.old) r.now) ((walk step s.now).kept r.now);
        }) }
{
    match s {
        Stmt::Nothing | Stmt::Assign(..) | Stmt::Delayed(..) | Stmt::Call(..) => Ok(Rested {
            ends: no(),
            place: None,
        }),
        Stmt::Pause(place) => Ok(after_pause(*place, way)),
        Stmt::Seq(parts) => after_sequence(land, here, parts.as_slice(), r, way),
        Stmt::Par(parts) => after_parallel(land, here, parts.as_slice(), r, way),
        Stmt::If(_, first, second) => {
            if is_in_first(r) {
                let one = after(land, here, first.get(), inside_of(r), way)?;
                after_side(land, true, one)
            } else {
                let one = after(land, here, second.get(), inside_of(r), way)?;
                after_side(land, false, one)
            }
        }
        Stmt::Loop(number, body, condition) => after_loop(
            land,
            here,
            body.get(),
            *number,
            condition,
            r,
            way,
        ),
        Stmt::Abort(kind, body, condition) => after_abort(
            land,
            here,
            *kind,
            body.get(),
            condition,
            r,
            way,
        ),
        Stmt::Suspend(kind, hold, body, condition) => after_suspend(
            land,
            here,
            *kind,
            *hold,
            body.get(),
            condition,
            r,
            way,
        ),
        Stmt::Scope(locals, body) => after_scope(land, here, body.get(), locals.as_slice(), r, way),
        Stmt::Bind(bindings, body) => after_bound(
            land,
            here,
            body.get(),
            bindings.as_slice(),
            r,
            way,
        ),
    }
}

/// A pause, which is left.
fn after_pause(place: u32, way: Way) -> Rested
    ensures { result ≡ record { ends = Know.Known yes; place = by_way way None (Some (At place)) } }
{
    match way {
        Way::Goes => Rested {
            ends: yes(),
            place: None,
        },
        Way::Stays => Rested {
            ends: yes(),
            place: Some(Residual::At(place)),
        },
    }
}

/// The side of an `if` that is inside.
fn after_side(land: &Land, side: bool, one: Rested) -> Result<Rested, AllocError>
    ensures { IfOk result (λ next. next ≡ record { ends = one.ends; place = option_map (λ r. InIf side r) one.place }) }
{
    let place = in_side(land, side, one.place)?;
    Ok(Rested {
        ends: one.ends,
        place,
    })
}

/// The member inside, and those after it where it ends.
#[cycle(afters)]
#[tactic(auto, using(crate::proofs::Cutting::cutting))]
fn after_sequence(
    land: &Land,
    here: &mut Here,
    parts: &[Stmt],
    r: &Residual,
    way: Way,
) -> Result<Rested, AllocError>
    ensures here { OnOk result (context_of here.new ≡ context_of here.old) }
    ensures rested { IfOk result (λ one. (step : Passing) → Passes land.now.module.now land.now.view.table.now land.now.view.env.now step
        → one ≡ record {
          ends = (sequence (residing step) (map (walk step) parts.now)).ended (context_of here.old) r.now;
          place = by_way way ((sequence (residing step) (map (walk step) parts.now)).after (context_of here.old) r.now) ((sequence (residing step) (map (walk step) parts.now)).kept r.now);
        }) }
{
    let number = member_number(r);
    let one = after_member(land, here, parts, number, inside_of(r), way)?;
    let next = next_number(number)?;
    let others = rest_parts(
        land,
        here,
        later(parts, number as usize),
        next,
        one.ends,
        Mark::Zero,
    )?;
    let place = in_turn(land, number, one, others.place, way)?;
    Ok(Rested {
        ends: others.ends,
        place,
    })
}

/// In the member inside, or in one after it where that one ends.
fn in_turn(
    land: &Land,
    number: u32,
    one: Rested,
    others: Option<Residual>,
    way: Way,
) -> Result<Option<Residual>, AllocError>
    ensures { IfOk result (λ place. place ≡ by_way way
        (if knows_yes one.ends then others else option_map (λ r. InSeq number r) one.place)
        (option_map (λ r. InSeq number r) one.place)) }
{
    match way {
        Way::Stays => in_member(land, number, one.place),
        Way::Goes => {
            if holds(one.ends) {
                Ok(others)
            } else {
                in_member(land, number, one.place)
            }
        }
    }
}

/// One member of a sequence.
#[cycle(afters)]
#[tactic(auto, using(crate::proofs::Cutting::cutting))]
fn after_member(
    land: &Land,
    here: &mut Here,
    parts: &[Stmt],
    number: u32,
    r: &Residual,
    way: Way,
) -> Result<Rested, AllocError>
    ensures here { OnOk result (context_of here.new ≡ context_of here.old) }
    ensures rested { IfOk result (λ one. (step : Passing) → Passes land.now.module.now land.now.view.table.now land.now.view.env.now step
        → one ≡ record {
          ends = (member (idle (residing step)) (map (walk step) parts.now) number).ended (context_of here.old) r.now;
          place = by_way way ((member (idle (residing step)) (map (walk step) parts.now) number).after (context_of here.old) r.now) ((member (idle (residing step)) (map (walk step) parts.now) number).kept r.now);
        }) }
{
    match at(parts, number as usize) {
        Some(part) => after(land, here, part, r, way),
        None => Err(AllocError),
    }
}

/// The members in which control rests; the others are done.
#[cycle(afters)]
fn after_parallel(
    land: &Land,
    here: &mut Here,
    parts: &[Stmt],
    r: &Residual,
    way: Way,
) -> Result<Rested, AllocError>
    ensures here { OnOk result (context_of here.new ≡ context_of here.old) }
    ensures rested { IfOk result (λ one. (step : Passing) → Passes land.now.module.now land.now.view.table.now land.now.view.env.now step
        → one ≡ record {
          ends = (parallel (residing step) (map (walk step) parts.now)).ended (context_of here.old) r.now;
          place = by_way way ((parallel (residing step) (map (walk step) parts.now)).after (context_of here.old) r.now) ((parallel (residing step) (map (walk step) parts.now)).kept r.now);
        }) }
{
    let mut so_far = yes();
    let mut places = Vec::new(land.alloc);
    let mut others = branches(r);
    for part in parts {
        match others.split_first() {
            None => return Err(AllocError),
            Some((branch, rest)) => {
                let one = after_branch(land, here, part, branch, so_far, way)?;
                so_far = one.ends;
                places.push(one.place)?;
                others = rest;
            }
        }
    }
    Ok(all_members(so_far, places))
}

/// All members, each with where control rests in it.
fn all_members(ends: Know, places: Vec<Option<Residual>>) -> Rested
    ensures { result ≡ record { ends = ends; place = in_some_branch places.items } }
{
    Rested {
        ends,
        place: in_members(Items::from_vec(places)),
    }
}

/// A member, if control rests in it.
#[cycle(afters)]
fn after_branch(
    land: &Land,
    here: &mut Here,
    part: &Stmt,
    branch: &Option<Residual>,
    so_far: Know,
    way: Way,
) -> Result<Rested, AllocError>
    ensures here { OnOk result (context_of here.new ≡ context_of here.old) }
    ensures rested { IfOk result (λ one. (step : Passing) → Passes land.now.module.now land.now.view.table.now land.now.view.env.now step
        → one ≡ record {
          ends = ended_of_all (context_of here.old) (resting (walk step part.now ∷ []) (branch.now ∷ [])) so_far;
          place = branch_of (λ part inside. by_way way (part.after (context_of here.old) inside) (part.kept inside)) (walk step part.now) branch.now;
        }) }
{
    match branch {
        None => Ok(Rested {
            ends: so_far,
            place: None,
        }),
        Some(r) => {
            let one = after(land, here, part, r, way)?;
            let ends = and(so_far, one.ends)?;
            Ok(Rested {
                ends,
                place: one.place,
            })
        }
    }
}

/// The body of a loop, which is started again where the loop turns.
#[cycle(afters)]
fn after_loop(
    land: &Land,
    here: &mut Here,
    body: &Stmt,
    number: u32,
    condition: &Expr,
    r: &Residual,
    way: Way,
) -> Result<Rested, AllocError>
    ensures here { OnOk result (context_of here.new ≡ context_of here.old) }
    ensures rested { IfOk result (λ one. (step : Passing) → Passes land.now.module.now land.now.view.table.now land.now.view.env.now step
        → one ≡ record {
          ends = (loop step.now (residing step) number (walk step body.now) condition.now).ended (context_of here.old) r.now;
          place = by_way way ((loop step.now (residing step) number (walk step body.now) condition.now).after (context_of here.old) r.now) ((loop step.now (residing step) number (walk step body.now) condition.now).kept r.now);
        }) }
{
    let one = after(land, here, body, inside_of(r), way)?;
    let c = value(&land.view, here, condition)?;
    let turns = turns(one.ends, c, way)?;
    let ends = ended_unless(c, one.ends)?;
    let place = after_turn(land, here, body, number, turns, one.place)?;
    Ok(Rested { ends, place })
}

/// Whether a loop turns that isn't suspended.
fn turns(ended: Know, condition: Know, way: Way) -> Result<bool, AllocError>
    ensures { IfOk result (λ turned. turned ≡ by_way way (knows_yes (both ended condition)) false) }
{
    match way {
        Way::Stays => Ok(false),
        Way::Goes => {
            let turns = and(ended, condition)?;
            Ok(holds(turns))
        }
    }
}

/// Where control rests in the body of a loop: where it turns, after a start with its mark.
fn after_turn(
    land: &Land,
    here: &mut Here,
    body: &Stmt,
    number: u32,
    turns: bool,
    inside: Option<Residual>,
) -> Result<Option<Residual>, AllocError>
    ensures here { OnOk result (context_of here.new ≡ context_of here.old) }
    ensures place { IfOk result (λ place. (step : Passing) → Passes land.now.module.now land.now.view.table.now land.now.view.env.now step
        → place ≡ (if turns then option_map (λ r. InBody r) ((walk step body.now).rest (context_of here.old) (Mark.Loop number)) else option_map (λ r. InBody r) inside)) }
{
    if turns {
        let next = rest(land, here, body, Mark::Loop(number))?;
        let place = in_body(land, next.place)?;
        Ok(place)
    } else {
        let place = in_body(land, inside)?;
        Ok(place)
    }
}

/// The body of an abort, which is left where the condition holds.
#[cycle(afters)]
fn after_abort(
    land: &Land,
    here: &mut Here,
    kind: Kind,
    body: &Stmt,
    condition: &Expr,
    r: &Residual,
    way: Way,
) -> Result<Rested, AllocError>
    ensures here { OnOk result (context_of here.new ≡ context_of here.old) }
    ensures rested { IfOk result (λ one. (step : Passing) → Passes land.now.module.now land.now.view.table.now land.now.view.env.now step
        → one ≡ record {
          ends = (abort step.now (residing step) kind (walk step body.now) condition.now).ended (context_of here.old) r.now;
          place = by_way way ((abort step.now (residing step) kind (walk step body.now) condition.now).after (context_of here.old) r.now) ((abort step.now (residing step) kind (walk step body.now) condition.now).kept r.now);
        }) }
{
    let one = after(land, here, body, inside_of(r), way)?;
    let c = value(&land.view, here, condition)?;
    let next = aborted(land, c, one, way)?;
    Ok(next)
}

/// What an abort makes of its body.
fn aborted(land: &Land, condition: Know, body: Rested, way: Way) -> Result<Rested, AllocError>
    ensures { IfOk result (λ next. next ≡ record {
      ends = either condition body.ends;
      place = by_way way
          (if knows_yes condition then None else option_map (λ r. InBody r) body.place)
          (option_map (λ r. InBody r) body.place);
    }) }
{
    let ends = or(condition, body.ends)?;
    match way {
        Way::Stays => {
            let place = in_body(land, body.place)?;
            Ok(Rested { ends, place })
        }
        Way::Goes => {
            let place = unless_left(land, condition, body.place)?;
            Ok(Rested { ends, place })
        }
    }
}

/// The body of a suspend, which stays where the condition holds; or the hold place.
#[cycle(afters)]
#[tactic(auto, using(crate::proofs::Ways::ways))]
fn after_suspend(
    land: &Land,
    here: &mut Here,
    kind: Kind,
    hold: Option<u32>,
    body: &Stmt,
    condition: &Expr,
    r: &Residual,
    way: Way,
) -> Result<Rested, AllocError>
    ensures here { OnOk result (context_of here.new ≡ context_of here.old) }
    ensures rested { IfOk result (λ one. (step : Passing) → Passes land.now.module.now land.now.view.table.now land.now.view.env.now step
        → one ≡ record {
          ends = (suspend step.now (residing step) kind hold (walk step body.now) condition.now).ended (context_of here.old) r.now;
          place = by_way way ((suspend step.now (residing step) kind hold (walk step body.now) condition.now).after (context_of here.old) r.now) ((suspend step.now (residing step) kind hold (walk step body.now) condition.now).kept r.now);
        }) }
{
    if is_at_hold(r) {
        let one = rest_suspend(land, here, kind, hold, body, condition, Mark::Zero)?;
        Ok(from_hold(one, hold, way))
    } else {
        let c = value(&land.view, here, condition)?;
        let one = after(land, here, body, inside_of(r), suspended(c, way))?;
        let ends = unless(c, one.ends)?;
        let place = in_body(land, one.place)?;
        Ok(Rested { ends, place })
    }
}

/// From the hold place on, or at it.
fn from_hold(one: Rested, hold: Option<u32>, way: Way) -> Rested
    ensures { result ≡ record { ends = one.ends; place = by_way way one.place (option_map (λ place. Hold place) hold) } }
{
    match way {
        Way::Goes => one,
        Way::Stays => Rested {
            ends: one.ends,
            place: at_hold(hold),
        },
    }
}

/// The way of what is inside a suspend.
fn suspended(condition: Know, way: Way) -> Way
    ensures { result ≡ suspended_way way condition }
{
    match way {
        Way::Stays => Way::Stays,
        Way::Goes => {
            if holds(condition) {
                Way::Stays
            } else {
                Way::Goes
            }
        }
    }
}

/// A scope, whose locals keep their instances with mark zero.
#[cycle(afters)]
#[tactic(auto, using(crate::proofs::Ways::ways))]
fn after_scope(
    land: &Land,
    here: &mut Here,
    body: &Stmt,
    locals: &[u32],
    r: &Residual,
    way: Way,
) -> Result<Rested, AllocError>
    ensures here { OnOk result (context_of here.new ≡ context_of here.old) }
    ensures rested { IfOk result (λ one. (step : Passing) → Passes land.now.module.now land.now.view.table.now land.now.view.env.now step
        → one ≡ record {
          ends = (scope (residing step) locals.now (walk step body.now)).ended (context_of here.old) r.now;
          place = by_way way ((scope (residing step) locals.now (walk step body.now)).after (context_of here.old) r.now) ((scope (residing step) locals.now (walk step body.now)).kept r.now);
        }) }
{
    if !here.is_outside(locals) {
        return Err(AllocError);
    }
    let one = after(land, here, body, inside_of(r), way)?;
    let place = in_scope(land, locals, Mark::Zero, one.place)?;
    Ok(Rested {
        ends: one.ends,
        place,
    })
}

/// A callee's body, with its arguments bound.
#[cycle(afters)]
fn after_bound(
    land: &Land,
    here: &mut Here,
    body: &Stmt,
    bindings: &[Binding],
    r: &Residual,
    way: Way,
) -> Result<Rested, AllocError>
    ensures here { OnOk result (context_of here.new ≡ context_of here.old) }
    ensures rested { IfOk result (λ one. (step : Passing) → Passes land.now.module.now land.now.view.table.now land.now.view.env.now step
        → one ≡ record {
          ends = (bound_body step.now bindings.now (walk step body.now)).ended (context_of here.old) r.now;
          place = by_way way ((bound_body step.now bindings.now (walk step body.now)).after (context_of here.old) r.now) ((bound_body step.now bindings.now (walk step body.now)).kept r.now);
        }) }
{
    bind(&land.view, here, bindings)?;
    let one = after(land, here, body, r, way)?;
    unbind(here, bindings)?;
    Ok(one)
}
