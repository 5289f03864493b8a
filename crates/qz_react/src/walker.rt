//! What a program does in a step, from the place where control is.

ghost use Rattle.std.specs.Prelude.{◌≡◌, ◌++◌, map, Some, IfOk, OnOk};
ghost use Rattle.qz_syntax.specs.declared.modules.Module.{Module};
ghost use Rattle.qz_meaning.specs.Scenes.{Passing, root};
ghost use Rattle.qz_meaning.specs.Residing.{walk, whole_layout};
ghost use Rattle.qz_meaning.specs.Programs.{program_of, instances_of};
ghost use Rattle.qz_meaning.specs.Settling.{Environment, body_under, writes_at, met_at};
ghost use Rattle.qz_meaning.specs.Configurations.{layout_of};
ghost use Rattle.qz_meaning.specs.MacroSteps.{rest_or_end, next_place as place_after};
ghost use Rattle.qz_react.specs.Landing.{Passes};
ghost use Rattle.qz_react.specs.Contexts.{context_of};
ghost use Rattle.qz_react.specs.Seeing.{Sees, named, written, met_by, instance_of};
ghost use Rattle.qz_react.specs.Reacting.{IsWalkerOf, Tells, Reacts, ends_at};

use crate::afters::after;
use crate::environments::{Env, Met, Write};
use crate::expressions::View;
use crate::here::Here;
use crate::instances::{Instance, Instances};
use crate::meets::{meet_resume, meet_start};
use crate::numbering::{all_instances, carriers_of, depths_of, firsts_of, inputs_of};
use crate::operators::yes;
use crate::residing::{Land, Way};
use crate::rests::rest;
use crate::resumes::resume;
use crate::starts::start;
use qz_syntax::{Mark, Module, Place, Residual, Stmt, Whole};
use qz_values::Know;
use std::alloc::{AllocError, Global};

/// What the walks of a program go by: the numbers of its instances, and the context of the walk,
/// which is at the root between two calls. It is made once for a program.
#[derive(Debug, Drop)]
pub struct Walker {
    table: Instances,
    here: Here,
}

impl Walker {
    /// What the walks of a module's body go by.
    ///
    /// # Errors
    ///
    /// Want of memory.
    pub fn make(alloc: Global, m: &Module) -> Result<Walker, AllocError>
        ensures { IfOk result (λ walker. IsWalkerOf m.now walker) }
    {
        let inputs = inputs_of(alloc, m.formals.as_slice())?;
        let all = all_instances(alloc, m)?;
        let carriers = carriers_of(alloc, m.formals.as_slice())?;
        let first = firsts_of(alloc, &all)?;
        let depth = depths_of(alloc, &all, m.loops)?;
        Ok(Walker {
            table: Instances::new(inputs, all, carriers, first, depth),
            here: Here::at_root(alloc),
        })
    }

    /// The instances of the program in the order of their numbers.
    pub fn instances(&self) -> &[Instance]
        ensures { (m : Module) → IsWalkerOf m self.now → map instance_of result.now ≡ instances_of m }
    {
        self.table.all.as_slice()
    }
}

/// What the body does from a place.
fn walk_from(
    view: &View,
    here: &mut Here,
    body: &Stmt,
    place: &Place,
    out: &mut Vec<Write>,
) -> Result<Know, AllocError>
    requires { context_of here.old ≡ root }
    ensures here { OnOk result (context_of here.new ≡ root) }
    ensures ends { IfOk result (λ k. (step : Passing) → Sees view.now.table.now view.now.env.now step → k ≡ ends_at (walk step body.now) place.now) }
    ensures writes { OnOk result ((step : Passing) → Sees view.now.table.now view.now.env.now step
        → map (written (named view.now.table.now)) out.new.items
        ≡ map (written (named view.now.table.now)) out.old.items ++ map Some (writes_at (walk step body.now) place.now)) }
{
    match place {
        Place::NotStarted => start(view, here, body, yes(), Mark::Zero, out),
        Place::Rest(r) => resume(view, here, body, r, yes(), out),
        Place::Ended => Ok(yes()),
    }
}

/// Appends the writes of a step from a place, and answers whether the program ends in it.
///
/// After the end nothing is written, and the program has ended.
///
/// # Errors
///
/// Want of memory. A tree that is no whole program, or lists that don't fit it, may be answered so
/// too.
pub fn react(
    w: &Whole,
    walker: &mut Walker,
    place: &Place,
    env: &Env,
    out: &mut Vec<Write>,
) -> Result<Know, AllocError>
    requires { IsWalkerOf w.now.module walker.old }
    ensures walker { IsWalkerOf w.now.module walker.new }
    ensures reacts { IfOk result (λ ends. (e : Environment) → Tells (program_of w.now.module) env.entry.now e
        → Reacts (program_of w.now.module) place.now out.old.items out.new.items ends e) }
{
    let view = View {
        table: &walker.table,
        env,
    };
    let answer = walk_from(&view, &mut walker.here, &w.module.body, place, out);
    if answer.is_err() {
        walker.here.reset();
    }
    answer
}

/// Where control is after a step from a place.
fn land_from(land: &Land, here: &mut Here, body: &Stmt, place: &Place) -> Result<Place, AllocError>
    requires { context_of here.old ≡ root }
    ensures here { OnOk result (context_of here.new ≡ root) }
    ensures next { IfOk result (λ next. (step : Passing) → Passes land.now.module.now land.now.view.table.now land.now.view.env.now step
        → next ≡ place_after (walk step body.now) place.now) }
{
    match place {
        Place::NotStarted => {
            let one = rest(land, here, body, Mark::Zero)?;
            Ok(rest_or_end(one.place))
        }
        Place::Rest(r) => {
            let one = after(land, here, body, r, Way::Goes)?;
            Ok(rest_or_end(one.place))
        }
        Place::Ended => Ok(Place::Ended),
    }
}

/// A place where control rests, or the end where there is none.
fn rest_or_end(inside: Option<Residual>) -> Place
    ensures { result ≡ rest_or_end inside }
{
    match inside {
        Some(r) => Place::Rest(r),
        None => Place::Ended,
    }
}

/// Where control is after a step from a place, with the stores that the step leaves.
///
/// # Errors
///
/// Want of memory. A tree that is no whole program, or lists that don't fit it, may be answered so
/// too.
pub fn next_place<'a>(
    alloc: Global,
    w: &'a Whole,
    walker: &mut Walker,
    place: &Place,
    env: &'a Env,
) -> Result<Place, AllocError>
    requires { IsWalkerOf w.now.module walker.old }
    ensures walker { IsWalkerOf w.now.module walker.new }
    ensures next { IfOk result (λ next. (e : Environment) → Tells (program_of w.now.module) env.entry.now e
        → next ≡ place_after (body_under (program_of w.now.module) e) place.now) }
{
    let land = Land {
        alloc,
        module: &w.module,
        view: View {
            table: &walker.table,
            env,
        },
    };
    let next = land_from(&land, &mut walker.here, &w.module.body, place);
    if next.is_err() {
        walker.here.reset();
    }
    next
}

/// Adds the instances that the walk of a step from a place comes past, without the outputs, which
/// are always met. They depend on the place alone.
///
/// # Errors
///
/// Want of memory. A tree that is no whole program may be answered so too.
#[tactic(auto, using(crate::proofs::Seen::meets))]
pub fn meet(w: &Whole, walker: &Walker, place: &Place, out: &mut Vec<Met>) -> Result<(), AllocError>
    requires { IsWalkerOf w.now.module walker.now }
    ensures { OnOk result (map (met_by (instances_of w.now.module)) out.new.items
        ≡ map (met_by (instances_of w.now.module)) out.old.items ++ map Some (met_at (layout_of (program_of w.now.module)) place.now)) }
{
    meet_from(&walker.table, &w.module.body, place, out)
}

/// The same by the table of instances.
fn meet_from(
    table: &Instances,
    body: &Stmt,
    place: &Place,
    out: &mut Vec<Met>,
) -> Result<(), AllocError>
    ensures { OnOk result (map (met_by (named table.now)) out.new.items
        ≡ map (met_by (named table.now)) out.old.items ++ map Some (met_at (whole_layout body.now) place.now)) }
{
    match place {
        Place::NotStarted => meet_start(table, body, Mark::Zero, out),
        Place::Rest(r) => meet_resume(table, body, r, out),
        Place::Ended => Ok(()),
    }
}
