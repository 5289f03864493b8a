//! What single statements do, step by step, written as a text.

ghost use Rattle.qz_react.specs.Reacting.{IsWalkerOf};

use crate::programs::{Program, whole};
use qz_react::{Env, Walker, Write, next_place, react};
use qz_syntax::{Later, Place, Residual, Store, Whole};
use qz_values::{Know, Value};
use std::alloc::Global;
use std::test::Fail;

/// A statement with the input `a`, the output `o` and the local `x`, what `a` is in each step, and the text
/// of what comes: in each step the writes, each with its guard, whether the statement ends, and where control
/// is then. Nothing but `a` is true.
#[derive(Clone, Copy)]
pub struct Reaction {
    pub program: Program,
    pub inputs: &'static [bool],
    pub text: &'static str,
}

/// The names of the instances.
const NAMES: [&str; 3] = ["o", "x", "x@0"];

/// An environment in which the input is this, and all else false.
fn environment(alloc: Global, input: bool, instances: usize) -> Result<Env, Fail> {
    let no = Know::Known(Value::truth(false));
    Ok(Env {
        inputs: vec![in alloc; Value::truth(input); 1]?,
        now: vec![in alloc; no; instances]?,
        later: vec![in alloc; Later::Absent; instances]?,
    })
}

fn known_text(known: Know) -> &'static str {
    match known {
        Know::Unknown => "?",
        Know::Known(v) if v.bits() == 0 => "0",
        Know::Known(_) => "1",
        Know::Clash => "!",
    }
}

fn write_write(text: &mut String, one: &Write) -> Result<(), Fail> {
    let next = if one.delayed { "next " } else { "" };
    let name = *NAMES.get(one.instance as usize).ok_or("no instance")?;
    let value = known_text(one.value);
    write!(text, "{next}{name}={value} if {}, ", known_text(one.guard))?;
    Ok(())
}

fn write_writes(text: &mut String, writes: &[Write]) -> Result<(), Fail> {
    for one in writes {
        write_write(text, one)?;
    }
    Ok(())
}

fn write_stores(text: &mut String, stores: &[Store]) -> Result<(), Fail> {
    for store in stores {
        let sign = if store.pending { ":=" } else { "=" };
        write!(text, "{sign}{}", store.value.bits())?;
    }
    Ok(())
}

fn write_numbered(text: &mut String, word: &str, number: u32) -> Result<(), Fail> {
    write!(text, "{word}{number}")?;
    Ok(())
}

/// Writes where control rests, from the outside in.
#[cycle(writes)]
fn write_residual(text: &mut String, r: &Residual) -> Result<(), Fail> {
    match r {
        Residual::At(place) => write_numbered(text, "#", *place),
        Residual::Hold(place) => write_numbered(text, "hold #", *place),
        Residual::InSeq(member, inside) => write_member(text, *member, inside.get()),
        Residual::InPar(branches) => write_branches(text, branches.as_slice()),
        Residual::InIf(true, inside) => write_inside(text, "yes.", inside.get()),
        Residual::InIf(false, inside) => write_inside(text, "no.", inside.get()),
        Residual::InBody(inside) => write_inside(text, "body.", inside.get()),
        Residual::InScope(stores, inside) => write_scope(text, stores.as_slice(), inside.get()),
        Residual::InCall(number) => write_numbered(text, "call ", *number),
    }
}

#[cycle(writes)]
fn write_member(text: &mut String, member: u32, inside: &Residual) -> Result<(), Fail> {
    write!(text, "{member}.")?;
    write_residual(text, inside)
}

#[cycle(writes)]
fn write_inside(text: &mut String, word: &str, inside: &Residual) -> Result<(), Fail> {
    text.push_str(word)?;
    write_residual(text, inside)
}

#[cycle(writes)]
fn write_scope(text: &mut String, stores: &[Store], inside: &Residual) -> Result<(), Fail> {
    text.push_str("scope ")?;
    write_stores(text, stores)?;
    text.push_str(".")?;
    write_residual(text, inside)
}

#[cycle(writes)]
fn write_branches(text: &mut String, branches: &[Option<Residual>]) -> Result<(), Fail> {
    for branch in branches {
        match branch {
            Some(r) => write_inside(text, "|", r)?,
            None => text.push_str("|done")?,
        }
    }
    text.push_str("|")?;
    Ok(())
}

fn write_place(text: &mut String, place: &Place) -> Result<(), Fail> {
    match place {
        Place::NotStarted => Ok(text.push_str("start")?),
        Place::Rest(r) => write_residual(text, r),
        Place::Ended => Ok(text.push_str("end")?),
    }
}

/// What a step does.
#[derive(Drop)]
struct Outcome {
    writes: Vec<Write>,
    ends: Know,
    next: Place,
}

/// Does a step from a place.
fn reacted(
    alloc: Global,
    w: &Whole,
    walker: &mut Walker,
    place: &Place,
    env: &Env,
) -> Result<Outcome, Fail>
    requires { IsWalkerOf w.now.module walker.old }
    ensures { IsWalkerOf w.now.module walker.new }
{
    let mut writes = Vec::new(alloc);
    let ends = react(w, walker, place, env, &mut writes)?;
    let next = next_place(alloc, w, walker, place, env)?;
    Ok(Outcome { writes, ends, next })
}

/// Writes what a step does.
fn write_outcome(text: &mut String, one: &Outcome) -> Result<(), Fail> {
    write_writes(text, &one.writes)?;
    write!(text, "ends {}, then ", known_text(one.ends))?;
    write_place(text, &one.next)?;
    text.push_str("/")?;
    Ok(())
}

/// Writes a step, and answers the place after it.
fn write_step(
    alloc: Global,
    text: &mut String,
    w: &Whole,
    walker: &mut Walker,
    place: &Place,
    input: bool,
) -> Result<Place, Fail>
    requires { IsWalkerOf w.now.module walker.old }
    ensures { IsWalkerOf w.now.module walker.new }
{
    let env = environment(alloc, input, walker.instances().len())?;
    let one = reacted(alloc, w, walker, place, &env)?;
    write_outcome(text, &one)?;
    Ok(one.next)
}

/// Writes all steps.
fn write_steps(
    alloc: Global,
    text: &mut String,
    w: &Whole,
    walker: &mut Walker,
    inputs: &[bool],
) -> Result<(), Fail>
    requires { IsWalkerOf w.now.module walker.old }
{
    let mut place = Place::NotStarted;
    for input in inputs {
        place = write_step(alloc, text, w, walker, &place, *input)?;
    }
    Ok(())
}

/// What comes of a whole program's statement.
fn text_by(alloc: Global, w: &Whole, inputs: &[bool]) -> Result<String, Fail> {
    let mut walker = Walker::make(alloc, &w.module)?;
    let mut text = String::new(alloc);
    write_steps(alloc, &mut text, w, &mut walker, inputs)?;
    Ok(text)
}

/// What comes of a statement.
pub fn text_of(alloc: Global, row: &Reaction) -> Result<String, Fail> {
    let w = whole(alloc, &row.program)?;
    text_by(alloc, &w, row.inputs)
}
