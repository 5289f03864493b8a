//! Modules that are accepted and refused.

use qz_expand::expand_one;
use qz_syntax::{Class, Decl, Expr, Kind, LinkRefusal, Module, Name, Names, Stmt, Text};
use qz_values::{Ty, Value};
use sqlite_items::{Boxed, Items};
use std::alloc::{AllocError, Global};
use std::test::Fail;

/// A body.
#[derive(Clone, Copy)]
enum Shape {
    /// A loop that pauses.
    Forever,
    /// A loop that never gives up control.
    Instant,
    /// Such a loop inside one that pauses first.
    InnerInstant,
    /// So many statements that do nothing.
    Nothings(u32),
    /// A pause inside so many aborts.
    Deep(u32),
}

fn yes() -> Expr {
    Expr::Lit(Value::truth(true))
}

fn forever(alloc: Global, number: u32, body: Stmt) -> Result<Stmt, AllocError> {
    Ok(Stmt::Loop(number, Boxed::new(alloc, body)?, yes()))
}

/// A pause, and then another statement.
fn after_pause(alloc: Global, then: Stmt) -> Result<Stmt, AllocError> {
    let mut parts = Items::new(alloc);
    parts.push(then)?;
    parts.push(Stmt::Pause(0))?;
    Ok(Stmt::Seq(parts))
}

fn inner_instant(alloc: Global) -> Result<Stmt, AllocError> {
    let inner = forever(alloc, 1, Stmt::Nothing)?;
    let body = after_pause(alloc, inner)?;
    forever(alloc, 0, body)
}

fn nothings(alloc: Global, count: u32) -> Result<Stmt, AllocError> {
    let mut parts = Vec::new(alloc);
    for _ in 0..count {
        parts.push(Stmt::Nothing)?;
    }
    Ok(Stmt::Seq(Items::from_vec(parts)))
}

fn deep(alloc: Global, aborts: u32) -> Result<Stmt, AllocError> {
    let kind = Kind {
        weak: false,
        immediate: false,
    };
    let mut body = Stmt::Pause(0);
    for _ in 0..aborts {
        body = Stmt::Abort(kind, Boxed::new(alloc, body)?, yes());
    }
    Ok(body)
}

fn built(alloc: Global, shape: Shape) -> Result<Stmt, AllocError> {
    match shape {
        Shape::Forever => forever(alloc, 0, Stmt::Pause(0)),
        Shape::Instant => forever(alloc, 0, Stmt::Nothing),
        Shape::InnerInstant => inner_instant(alloc),
        Shape::Nothings(count) => nothings(alloc, count),
        Shape::Deep(aborts) => deep(alloc, aborts),
    }
}

fn labels(alloc: Global, texts: &[&str]) -> Result<Items<Option<Name>>, AllocError> {
    let mut labels = Items::new(alloc);
    for text in texts {
        labels.push(Name::new(alloc, text)?)?;
    }
    Ok(labels)
}

fn decls(alloc: Global) -> Result<Items<Decl>, Fail> {
    let name = Name::new(alloc, "x")?.ok_or("no name")?;
    let mut decls = Items::new(alloc);
    decls.push(Decl {
        class: Class::Event,
        ty: Ty::Bool,
        name,
    })?;
    Ok(decls)
}

/// The module T with one local and two loops, whose places have these labels.
fn module(alloc: Global, texts: &[&str], shape: Shape) -> Result<Module, Fail> {
    let name = Name::new(alloc, "T")?.ok_or("no name")?;
    let labels = labels(alloc, texts)?;
    let decls = decls(alloc)?;
    let body = built(alloc, shape)?;
    Ok(Module {
        name,
        formals: Items::new(alloc),
        decls,
        labels,
        loops: 2,
        calls: 0,
        body,
    })
}

/// What comes of a module, without its tree.
#[derive(Drop)]
enum Outcome {
    Accepted(Names),
    Missing(Text),
    InstantLoop(Name, u32),
    Size(u64),
    Other,
}

fn expanded(alloc: Global, module: Module, top: &str) -> Outcome {
    match expand_one(alloc, module, top) {
        Ok(whole) => Outcome::Accepted(whole.names),
        Err(LinkRefusal::Missing { name }) => Outcome::Missing(name),
        Err(
            LinkRefusal::InstantLoop {
                module: name,
                number,
            },
        ) => Outcome::InstantLoop(name, number),
        Err(LinkRefusal::Size { units }) => Outcome::Size(units),
        Err(_) => Outcome::Other,
    }
}

/// What comes of it, as a line.
fn line_of(alloc: Global, outcome: &Outcome) -> Result<String, AllocError> {
    match outcome {
        Outcome::Accepted(_) => String::from_str(alloc, "accepted"),
        Outcome::Missing(name) => {
            let name = name.as_str();
            format!(in alloc; "{name} is missing")
        }
        Outcome::InstantLoop(name, number) => {
            let name = name.as_str();
            format!(in alloc; "loop {number} of {name}")
        }
        Outcome::Size(units) => format!(in alloc; "size {units}"),
        Outcome::Other => String::from_str(alloc, "another answer"),
    }
}

/// A body in module T, the top that is asked for, and what comes of it.
struct Row {
    shape: Shape,
    top: &'static str,
    line: &'static str,
}

const ROWS: [Row; 8] = [
    Row {
        shape: Shape::Forever,
        top: "T",
        line: "accepted",
    },
    Row {
        shape: Shape::Instant,
        top: "U",
        line: "U is missing",
    },
    Row {
        shape: Shape::Instant,
        top: "T",
        line: "loop 0 of T",
    },
    Row {
        shape: Shape::InnerInstant,
        top: "T",
        line: "loop 1 of T",
    },
    Row {
        shape: Shape::Nothings(49_999),
        top: "T",
        line: "accepted",
    },
    Row {
        shape: Shape::Nothings(50_000),
        top: "T",
        line: "size 100002",
    },
    Row {
        shape: Shape::Deep(1_999),
        top: "T",
        line: "accepted",
    },
    Row {
        shape: Shape::Deep(2_000),
        top: "T",
        line: "size 18446744073709551615",
    },
];

#[test]
fn causes_come_in_their_order(rt: HostRuntime) -> Result<(), Fail> {
    let alloc = rt.alloc();
    for row in &ROWS {
        let module = module(alloc, &[""], row.shape)?;
        let line = line_of(alloc, &expanded(alloc, module, row.top))?;
        assert_eq!(rt; line.as_str(), row.line);
    }
    Ok(())
}

/// The texts, with a space before each.
fn joined(alloc: Global, texts: &[Text]) -> Result<String, AllocError> {
    let mut line = String::new(alloc);
    for text in texts {
        line.push_str(" ")?;
        line.push_str(text.as_str())?;
    }
    Ok(line)
}

#[test]
fn things_are_named(rt: HostRuntime) -> Result<(), Fail> {
    let alloc = rt.alloc();
    let module = module(alloc, &["", "wa", "start", "end"], Shape::Forever)?;
    let Outcome::Accepted(names) = expanded(alloc, module, "T") else {
        return Err(Fail::from("refused"));
    };
    let places = joined(alloc, names.places.as_slice())?;
    let locals = joined(alloc, names.locals.as_slice())?;
    let loops = joined(alloc, names.loops.as_slice())?;
    assert_eq!(rt; places.as_str(), " #0 wa #2 #3");
    assert_eq!(rt; locals.as_str(), " x#0");
    assert_eq!(rt; loops.as_str(), " 0 1");
    Ok(())
}
