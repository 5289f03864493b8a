//! Programs of any size.

use anyhow::{Context, Result, bail};
use qz_expand::expand_one;
use qz_syntax::{Class, Decl, Dir, Expr, Formal, Kind, Module, Name, Stmt, Var, Whole};
use qz_values::{Op1, Ty, Value};
use sqlite_items::{Boxed, Items};
use std::alloc::Global;

/// `l: await(e);` is a loop that pauses while the input isn't there. The loop has this number.
fn wait(alloc: Global, number: u32, place: u32, input: u32) -> Result<Stmt> {
    let read = Boxed::new(alloc, Expr::Var(Var::Formal(input)))?;
    let body = Boxed::new(alloc, Stmt::Pause(place))?;
    Ok(Stmt::Loop(number, body, Expr::Un(Op1::Not, read)))
}

fn yes() -> Expr {
    Expr::Lit(Value::truth(true))
}

/// Two statements one after the other.
fn both(alloc: Global, first: Stmt, second: Stmt) -> Result<Stmt> {
    let mut parts = Items::new(alloc);
    parts.push(first)?;
    parts.push(second)?;
    Ok(Stmt::Seq(parts))
}

/// A loop without end.
fn forever(alloc: Global, number: u32, body: Stmt) -> Result<Stmt> {
    Ok(Stmt::Loop(number, Boxed::new(alloc, body)?, yes()))
}

/// Waits for `a` and for `b`, gives `o`, and waits for `r`.
fn round(alloc: Global) -> Result<Stmt> {
    let mut waits = Items::new(alloc);
    waits.push(wait(alloc, 1, 0, 0)?)?;
    waits.push(wait(alloc, 2, 1, 1)?)?;
    let given = both(alloc, Stmt::Par(waits), Stmt::Assign(Var::Formal(3), yes()))?;
    both(alloc, given, wait(alloc, 3, 2, 2)?)
}

/// ABRO.
pub fn abro(alloc: Global) -> Result<Whole> {
    let strong = Kind {
        weak: false,
        immediate: false,
    };
    let body = Boxed::new(alloc, round(alloc)?)?;
    let aborted = Stmt::Abort(strong, body, Expr::Var(Var::Formal(2)));
    let body = forever(alloc, 0, aborted)?;
    program(
        alloc,
        Counts {
            inputs: 3,
            locals: 0,
            places: 3,
            loops: 4,
        },
        body,
    )
}

/// So many parts that wait for the input, and then give the output.
pub fn parallel(alloc: Global, parts: u32) -> Result<Whole> {
    program(
        alloc,
        Counts {
            inputs: 1,
            locals: 0,
            places: parts,
            loops: parts,
        },
        waits(alloc, parts)?,
    )
}

fn waits(alloc: Global, parts: u32) -> Result<Stmt> {
    let mut all = Items::new(alloc);
    for part in 0..parts {
        let given = Stmt::Assign(Var::Formal(1), yes());
        all.push(both(alloc, wait(alloc, part, part, 0)?, given)?)?;
    }
    Ok(Stmt::Par(all))
}

/// So many locals, each of which takes the one before it.
fn links(alloc: Global, count: u32) -> Result<Stmt> {
    let mut parts = Items::new(alloc);
    let mut before = Var::Formal(0);
    for local in 0..count {
        parts.push(Stmt::Assign(Var::Local(local), Expr::Var(before)))?;
        before = Var::Local(local);
    }
    parts.push(Stmt::Assign(Var::Formal(1), Expr::Var(before)))?;
    Ok(Stmt::Par(parts))
}

/// A chain of so many locals, in each step.
pub fn chain(alloc: Global, count: u32) -> Result<Whole> {
    let turn = both(alloc, links(alloc, count)?, Stmt::Pause(0))?;
    let looped = Boxed::new(alloc, forever(alloc, 0, turn)?)?;
    let body = Stmt::Scope(numbers(alloc, count)?, looped);
    program(
        alloc,
        Counts {
            inputs: 1,
            locals: count,
            places: 1,
            loops: 1,
        },
        body,
    )
}

/// So many scopes of one local each, in the side of an `if` that isn't taken. In the other side the output
/// is given in each step after the first.
pub fn aside(alloc: Global, count: u32) -> Result<Whole> {
    let given = Stmt::Assign(Var::Formal(1), yes());
    let turn = both(alloc, Stmt::Pause(0), given)?;
    let taken = Boxed::new(alloc, forever(alloc, 0, turn)?)?;
    let other = Boxed::new(alloc, scopes(alloc, count)?)?;
    program(
        alloc,
        Counts {
            inputs: 1,
            locals: count,
            places: 1,
            loops: 1,
        },
        Stmt::If(yes(), taken, other),
    )
}

/// So many scopes one after the other, in each of which a local takes the input.
fn scopes(alloc: Global, count: u32) -> Result<Stmt> {
    let mut all = Items::new(alloc);
    for local in 0..count {
        let taken = Stmt::Assign(Var::Local(local), Expr::Var(Var::Formal(0)));
        let mut locals = Items::new(alloc);
        locals.push(local)?;
        all.push(Stmt::Scope(locals, Boxed::new(alloc, taken)?))?;
    }
    Ok(Stmt::Seq(all))
}

/// So many numbers, from 0 on.
fn numbers(alloc: Global, count: u32) -> Result<Items<u32>> {
    let mut numbers = Items::new(alloc);
    for number in 0..count {
        numbers.push(number)?;
    }
    Ok(numbers)
}

fn name(alloc: Global, text: &str) -> Result<Name> {
    Name::new(alloc, text)?.context("a name")
}

/// The inputs `a` to `c`, as many as there are, and the output `o`.
fn formals(alloc: Global, inputs: u32) -> Result<Items<Formal>> {
    let mut formals = Items::new(alloc);
    for text in ["a", "b", "c"].iter().take(inputs as usize) {
        formals.push(formal(alloc, Dir::In, text)?)?;
    }
    formals.push(formal(alloc, Dir::Out, "o")?)?;
    Ok(formals)
}

fn formal(alloc: Global, dir: Dir, text: &str) -> Result<Formal> {
    Ok(Formal {
        class: Class::Event,
        dir,
        ty: Ty::Bool,
        name: name(alloc, text)?,
    })
}

fn decls(alloc: Global, count: u32) -> Result<Items<Decl>> {
    let mut decls = Items::new(alloc);
    for _ in 0..count {
        decls.push(Decl {
            class: Class::Event,
            ty: Ty::Bool,
            name: name(alloc, "x")?,
        })?;
    }
    Ok(decls)
}

fn labels(alloc: Global, places: u32) -> Result<Items<Option<Name>>> {
    let mut labels = Items::new(alloc);
    for _ in 0..places {
        labels.push(None)?;
    }
    Ok(labels)
}

/// How many inputs, locals, places and loops a program has.
#[derive(Clone, Copy)]
struct Counts {
    inputs: u32,
    locals: u32,
    places: u32,
    loops: u32,
}

/// What a module has beside its body.
#[derive(Drop)]
struct Lists {
    name: Name,
    formals: Items<Formal>,
    decls: Items<Decl>,
    labels: Items<Option<Name>>,
}

fn made_lists(alloc: Global, counts: Counts) -> Result<Lists> {
    let name = name(alloc, "T")?;
    let formals = formals(alloc, counts.inputs)?;
    let decls = decls(alloc, counts.locals)?;
    let labels = labels(alloc, counts.places)?;
    Ok(Lists {
        name,
        formals,
        decls,
        labels,
    })
}

/// The whole program with this body.
fn program(alloc: Global, counts: Counts, body: Stmt) -> Result<Whole> {
    match made_lists(alloc, counts) {
        Ok(lists) => expanded(alloc, module(lists, counts.loops, body)),
        Err(error) => Err(error),
    }
}

fn module(lists: Lists, loops: u32, body: Stmt) -> Module {
    Module {
        name: lists.name,
        formals: lists.formals,
        decls: lists.decls,
        labels: lists.labels,
        loops,
        calls: 0,
        body,
    }
}

fn expanded(alloc: Global, module: Module) -> Result<Whole> {
    match expand_one(alloc, module, "T") {
        Ok(w) => Ok(w),
        Err(_) => bail!("the program is refused"),
    }
}
