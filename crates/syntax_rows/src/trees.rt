//! Rows worked out by hand.

use qz_syntax::{
    Arg, Binding, Expr, Kind, Mark, Module, Name, Stmt, Text, Var, marks_of, may_end, size,
};
use qz_values::{Op1, Op2, Value};
use sqlite_items::{Boxed, Items};
use std::alloc::{AllocError, Global};
use std::hash::{DefaultHasher, Hash, Hasher};
use std::test::Fail;

type Made = Result<Stmt, AllocError>;

fn name(alloc: Global, text: &str) -> Result<Name, Fail> {
    Ok(Name::new(alloc, text)?.ok_or("no name")?)
}

fn is_name(alloc: Global, text: &str) -> Result<bool, AllocError> {
    Ok(Name::new(alloc, text)?.is_some())
}

fn module(alloc: Global, body: Made) -> Result<Module, Fail> {
    let body = body?;
    Ok(Module {
        name: name(alloc, "M")?,
        formals: Items::new(alloc),
        decls: Items::new(alloc),
        labels: Items::new(alloc),
        loops: 0,
        calls: 0,
        body,
    })
}

fn units(alloc: Global, body: Made) -> Result<u64, Fail> {
    Ok(size(&module(alloc, body)?))
}

fn ends(body: Made) -> Result<bool, AllocError> {
    Ok(may_end(&body?, &[false, true]))
}

fn truth() -> Expr {
    Expr::Lit(Value::truth(true))
}

fn local(number: u32) -> Expr {
    Expr::Var(Var::Local(number))
}

fn emit(target: Var) -> Stmt {
    Stmt::Assign(target, truth())
}

fn boxed(alloc: Global, s: Made) -> Result<Boxed<Stmt>, AllocError> {
    Boxed::new(alloc, s?)
}

fn add(parts: Result<Items<Stmt>, AllocError>, part: Made) -> Result<Items<Stmt>, AllocError> {
    let mut parts = parts?;
    parts.push(part?)?;
    Ok(parts)
}

fn pair(alloc: Global, first: Made, second: Made) -> Result<Items<Stmt>, AllocError> {
    add(add(Ok(Items::new(alloc)), first), second)
}

/// `if(condition) first`
fn branch(alloc: Global, condition: Expr, first: Stmt) -> Made {
    let first = Boxed::new(alloc, first)?;
    let second = Boxed::new(alloc, Stmt::Nothing)?;
    Ok(Stmt::If(condition, first, second))
}

fn looped(alloc: Global, number: u32, body: Made) -> Made {
    Ok(Stmt::Loop(number, boxed(alloc, body)?, truth()))
}

fn scope(alloc: Global, local: u32, body: Made) -> Made {
    let body = boxed(alloc, body)?;
    Ok(Stmt::Scope(Items::from_slice(alloc, &[local])?, body))
}

fn abort(alloc: Global, immediate: bool, body: Stmt) -> Made {
    let kind = Kind {
        weak: false,
        immediate,
    };
    Ok(Stmt::Abort(kind, Boxed::new(alloc, body)?, truth()))
}

fn suspend(alloc: Global, hold: Option<u32>, body: Stmt) -> Made {
    let kind = Kind {
        weak: false,
        immediate: hold.is_some(),
    };
    Ok(Stmt::Suspend(kind, hold, Boxed::new(alloc, body)?, truth()))
}

fn not(alloc: Global, e: Expr) -> Result<Expr, AllocError> {
    Ok(Expr::Un(Op1::Not, Boxed::new(alloc, e)?))
}

/// `if(t & s) emit x;`
fn sets(alloc: Global) -> Made {
    let t = Boxed::new(alloc, Expr::Var(Var::Formal(0)))?;
    let s = Boxed::new(alloc, local(0))?;
    branch(alloc, Expr::Bin(Op2::And, t, s), emit(Var::Local(1)))
}

/// `if(t) next(s) = !s;`
fn turns(alloc: Global) -> Made {
    let next = Stmt::Delayed(Var::Local(0), not(alloc, local(0))?);
    branch(alloc, Expr::Var(Var::Formal(0)), next)
}

/// A counter's cell: `{ mem bool s; loop { event bool x; .. if(x) emit c; pause; } }`.
fn cell(alloc: Global) -> Made {
    let toggles = pair(alloc, sets(alloc), turns(alloc));
    let carries = add(toggles, branch(alloc, local(1), emit(Var::Formal(1))));
    let turn = Stmt::Seq(add(carries, Ok(Stmt::Pause(0)))?);
    scope(alloc, 0, looped(alloc, 0, scope(alloc, 1, Ok(turn))))
}

/// So many times `nothing;`, and then a statement.
fn padded(alloc: Global, count: u32, last: Made) -> Made {
    let mut parts = Items::new(alloc);
    for _ in 0..count {
        parts.push(Stmt::Nothing)?;
    }
    Ok(Stmt::Seq(add(Ok(parts), last)?))
}

/// A call of the second prototype, with an input argument of two nodes and an output argument.
fn call(alloc: Global) -> Made {
    let value = not(alloc, truth())?;
    let mut arguments = Items::new(alloc);
    arguments.push(Arg::In(value))?;
    arguments.push(Arg::Out(Var::Local(0)))?;
    Ok(Stmt::Call(0, 1, arguments))
}

fn bind(alloc: Global, body: Stmt) -> Made {
    let body = Boxed::new(alloc, body)?;
    let mut bindings = Items::new(alloc);
    bindings.push(Binding {
        number: 0,
        value: truth(),
    })?;
    Ok(Stmt::Bind(bindings, body))
}

/// Local 1 in loops 0 and 1, local 0 in loop 0, and local 2 beside them.
fn nested(alloc: Global) -> Made {
    let inner = looped(alloc, 1, scope(alloc, 1, Ok(Stmt::Pause(0))));
    let outer = looped(alloc, 0, scope(alloc, 0, inner));
    Ok(Stmt::Par(pair(alloc, outer, scope(alloc, 2, Ok(Stmt::Pause(1))))?))
}

/// The marks of a local of a module, which is dropped.
fn marks(alloc: Global, m: Module, decl: u32) -> Result<Vec<Mark>, AllocError> {
    marks_of(alloc, &m, decl)
}

#[test]
fn names(rt: HostRuntime) -> Result<(), Fail> {
    for text in ["a", "x1_y", "\u{3a9}\u{3bc}", "loops"] {
        assert!(rt; is_name(rt.alloc(), text)?);
    }
    for text in ["", "_a", "1a", "a-b", "loop", "sustain"] {
        assert!(rt; !is_name(rt.alloc(), text)?);
    }
    Ok(())
}

#[test]
fn lengths_of_names(rt: HostRuntime) -> Result<(), Fail> {
    let longest = "\u{e9}".repeat(rt.alloc(), 64)?;
    assert!(rt; is_name(rt.alloc(), longest.as_str())?);
    let longer = "a".repeat(rt.alloc(), 65)?;
    assert!(rt; !is_name(rt.alloc(), longer.as_str())?);
    Ok(())
}

fn hash_of(name: &Name) -> u64 {
    let mut state = DefaultHasher::new();
    name.hash(&mut state);
    state.finish()
}

#[test]
fn names_are_compared(rt: HostRuntime) -> Result<(), Fail> {
    let accent = name(rt.alloc(), "\u{e9}")?;
    assert_eq!(rt; accent.as_str(), "\u{e9}");
    assert!(rt; accent == name(rt.alloc(), "\u{e9}")?);
    assert!(rt; accent != name(rt.alloc(), "e")?);
    assert_eq!(rt; hash_of(&accent), hash_of(&name(rt.alloc(), "\u{e9}")?));
    Ok(())
}

#[test]
fn texts(rt: HostRuntime) -> Result<(), Fail> {
    let text = Text::from_string(String::from_str(rt.alloc(), "x#0")?);
    assert_eq!(rt; text.as_str(), "x#0");
    Ok(())
}

#[test]
fn sizes(rt: HostRuntime) -> Result<(), Fail> {
    let alloc = rt.alloc();
    assert_eq!(rt; units(alloc, cell(alloc))?, 74);
    assert_eq!(rt;
        units(alloc, padded(alloc, 49_997, Ok(emit(Var::Formal(0)))))?,
        100_000
    );
    let halt = looped(alloc, 0, Ok(Stmt::Pause(0)));
    assert_eq!(rt; units(alloc, padded(alloc, 49_996, halt))?, 100_001);
    assert_eq!(rt; units(alloc, call(alloc))?, 6);
    assert_eq!(rt; units(alloc, bind(alloc, Stmt::Nothing))?, 6);
    Ok(())
}

#[test]
fn endings(rt: HostRuntime) -> Result<(), Fail> {
    let alloc = rt.alloc();
    let stops = pair(alloc, Ok(Stmt::Nothing), Ok(Stmt::Pause(0)))?;
    assert!(rt; !ends(Ok(Stmt::Seq(stops)))?);
    let passes = pair(alloc, Ok(Stmt::Nothing), Ok(emit(Var::Local(0))))?;
    assert!(rt; ends(Ok(Stmt::Par(passes)))?);
    assert!(rt; ends(branch(alloc, truth(), Stmt::Pause(0)))?);
    assert!(rt; ends(call(alloc))?);
    Ok(())
}

#[test]
fn endings_of_preemptions(rt: HostRuntime) -> Result<(), Fail> {
    let alloc = rt.alloc();
    assert!(rt; ends(abort(alloc, true, Stmt::Pause(0)))?);
    assert!(rt; !ends(abort(alloc, false, Stmt::Pause(0)))?);
    assert!(rt; ends(suspend(alloc, Some(0), Stmt::Nothing))?);
    assert!(rt; !ends(suspend(alloc, Some(0), Stmt::Pause(1)))?);
    assert!(rt; ends(suspend(alloc, None, Stmt::Nothing))?);
    Ok(())
}

#[test]
fn marks_of_locals(rt: HostRuntime) -> Result<(), Fail> {
    let deep = marks(rt.alloc(), module(rt.alloc(), nested(rt.alloc()))?, 1)?;
    assert_eq!(rt;
        deep.as_slice(),
        [Mark::Zero, Mark::Loop(0), Mark::Loop(1)].as_slice()
    );
    let shallow = marks(rt.alloc(), module(rt.alloc(), nested(rt.alloc()))?, 0)?;
    assert_eq!(rt; shallow.as_slice(), [Mark::Zero, Mark::Loop(0)].as_slice());
    let beside = marks(rt.alloc(), module(rt.alloc(), nested(rt.alloc()))?, 2)?;
    assert_eq!(rt; beside.as_slice(), [Mark::Zero].as_slice());
    Ok(())
}
