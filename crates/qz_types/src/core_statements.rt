//! Statements as they are in the core tree, with the numbers of their parts in tree order.

ghost use Rattle.std.specs.Prelude.{◌≡◌, [], map, unwrap_or, IfOk, OnOk};
ghost use Rattle.std.specs.Option.{option_map};
ghost use Rattle.qz_syntax.specs.declared.file_statements.FileStmt.TheVariants.{Block};
ghost use Rattle.qz_types.specs.Scopes.{meanings_of};
ghost use Rattle.qz_types.specs.ArgumentFaults.{formals_of};
ghost use Rattle.qz_syntax.specs.declared.file_expressions.FileExpr.{out-FileExpr};
ghost use Rattle.qz_types.specs.Makers.{in_sequence, in_parallel, with_call, repeating, aborting, suspending, always, hold_place, with_hold_place};
ghost use Rattle.qz_types.specs.CoreStatements.{made, holds, whiling, restarting, on_every, calling, core_argument, core_arguments, output_variable};

use crate::core_declarations::declare;
use crate::core_expressions::{expression, variable};
use crate::core_forms::{
    aborted, always, assigned, assignment, await_either, awaiting, branching, halting, holds,
    in_parallel, in_sequence, pair, pausing, repeated, restarted, scoped, suspended,
};
use crate::numbers::{Numbers, number};
use crate::scope::Scope;
use crate::statements::{Callees, formals_of};
use qz_syntax::{
    Arg, Cond, Dir, FileBlock, FileExpr, FileFormal, FileStmt, Kind, NameAt, Stmt, Var,
};
use sqlite_items::Items;
use std::alloc::{AllocError, Global};

/// Makes a statement of the core tree.
#[tactic(auto, using(crate::proofs::MadeLemmas::made_forms))]
#[cycle(make)]
pub(crate) fn statement(
    alloc: Global,
    callees: &Callees<'_>,
    names: &mut Scope<Var>,
    numbers: &mut Numbers,
    s: &FileStmt,
) -> Result<Stmt, AllocError>
    ensures names { OnOk result (meanings_of names.new ≡ meanings_of names.old) }
    ensures tree { IfOk result (λ tree. tree ≡ (made callees.now.protos.now (meanings_of callees.now.numbers) s.now
        (meanings_of names.old) numbers.old).tree) }
    ensures next { OnOk result (numbers.new ≡ (made callees.now.protos.now (meanings_of callees.now.numbers) s.now
        (meanings_of names.old) numbers.old).next) }
{
    match s {
        FileStmt::Nothing => Ok(Stmt::Nothing),
        FileStmt::Pause(label) => pausing(numbers, label),
        FileStmt::Halt(label) => halting(alloc, numbers, label),
        FileStmt::Await {
            label,
            immediate,
            cond,
        } => await_either(alloc, names, numbers, label, *immediate, cond),
        FileStmt::Assign { target, value, .. } => assignment(alloc, names, target, value),
        FileStmt::Emit(target) => Ok(assigned(names, target, always())),
        FileStmt::Block(inner) => block(alloc, callees, names, numbers, inner),
        FileStmt::If(cond, yes, no) => {
            let first = statement(alloc, callees, names, numbers, yes.get())?;
            match no {
                Some(no) => {
                    let second = statement(alloc, callees, names, numbers, no.get())?;
                    branching(alloc, names, cond, first, second)
                }
                None => branching(alloc, names, cond, first, Stmt::Nothing),
            }
        }
        FileStmt::DoWhile(body, cond) => do_while(alloc, callees, names, numbers, body.get(), cond),
        FileStmt::While(cond, body) => whiling(alloc, callees, names, numbers, body.get(), cond),
        FileStmt::Loop(body) => looping(alloc, callees, names, numbers, body.get()),
        FileStmt::Every(cond, body) => on_every(alloc, callees, names, numbers, body.get(), cond),
        FileStmt::Abort(kind, body, cond) => aborting(
            alloc,
            callees,
            names,
            numbers,
            body.get(),
            *kind,
            cond,
        ),
        FileStmt::Suspend(kind, body, cond) => suspending(
            alloc,
            callees,
            names,
            numbers,
            body.get(),
            *kind,
            cond,
        ),
        FileStmt::Call { callee, args } => call(
            alloc,
            callees,
            names,
            numbers,
            callee,
            args.as_slice(),
        ),
    }
}

/// `do S while(e);`
#[cycle(make)]
fn do_while(
    alloc: Global,
    callees: &Callees<'_>,
    names: &mut Scope<Var>,
    numbers: &mut Numbers,
    body: &FileStmt,
    cond: &Cond,
) -> Result<Stmt, AllocError>
    ensures names { OnOk result (meanings_of names.new ≡ meanings_of names.old) }
    ensures tree { IfOk result (λ tree. tree ≡ (repeating (made callees.now.protos.now (meanings_of callees.now.numbers) body.now) (holds cond.now)
        (meanings_of names.old) numbers.old).tree) }
    ensures next { OnOk result (numbers.new ≡ (repeating (made callees.now.protos.now (meanings_of callees.now.numbers) body.now) (holds cond.now)
        (meanings_of names.old) numbers.old).next) }
{
    let number = numbers.a_loop()?;
    let body = statement(alloc, callees, names, numbers, body)?;
    let condition = holds(alloc, names, cond)?;
    repeated(alloc, number, body, condition)
}

/// `while(e) S`
#[cycle(make)]
fn whiling(
    alloc: Global,
    callees: &Callees<'_>,
    names: &mut Scope<Var>,
    numbers: &mut Numbers,
    body: &FileStmt,
    cond: &Cond,
) -> Result<Stmt, AllocError>
    ensures names { OnOk result (meanings_of names.new ≡ meanings_of names.old) }
    ensures tree { IfOk result (λ tree. tree ≡ (whiling (holds cond.now) (made callees.now.protos.now (meanings_of callees.now.numbers) body.now)
        (meanings_of names.old) numbers.old).tree) }
    ensures next { OnOk result (numbers.new ≡ (whiling (holds cond.now) (made callees.now.protos.now (meanings_of callees.now.numbers) body.now)
        (meanings_of names.old) numbers.old).next) }
{
    let again = do_while(alloc, callees, names, numbers, body, cond)?;
    branching(alloc, names, cond, again, Stmt::Nothing)
}

/// `loop S`
#[cycle(make)]
fn looping(
    alloc: Global,
    callees: &Callees<'_>,
    names: &mut Scope<Var>,
    numbers: &mut Numbers,
    body: &FileStmt,
) -> Result<Stmt, AllocError>
    ensures names { OnOk result (meanings_of names.new ≡ meanings_of names.old) }
    ensures tree { IfOk result (λ tree. tree ≡ (repeating (made callees.now.protos.now (meanings_of callees.now.numbers) body.now) always
        (meanings_of names.old) numbers.old).tree) }
    ensures next { OnOk result (numbers.new ≡ (repeating (made callees.now.protos.now (meanings_of callees.now.numbers) body.now) always
        (meanings_of names.old) numbers.old).next) }
{
    let number = numbers.a_loop()?;
    let body = statement(alloc, callees, names, numbers, body)?;
    repeated(alloc, number, body, always())
}

/// `every(e) S`
#[cycle(make)]
fn on_every(
    alloc: Global,
    callees: &Callees<'_>,
    names: &mut Scope<Var>,
    numbers: &mut Numbers,
    body: &FileStmt,
    cond: &Cond,
) -> Result<Stmt, AllocError>
    ensures names { OnOk result (meanings_of names.new ≡ meanings_of names.old) }
    ensures tree { IfOk result (λ tree. tree ≡ (on_every cond.now (made callees.now.protos.now (meanings_of callees.now.numbers) body.now)
        (meanings_of names.old) numbers.old).tree) }
    ensures next { OnOk result (numbers.new ≡ (on_every cond.now (made callees.now.protos.now (meanings_of callees.now.numbers) body.now)
        (meanings_of names.old) numbers.old).next) }
{
    let waiting = awaiting(alloc, names, numbers, &None, cond)?;
    let again = restarting(alloc, callees, names, numbers, body, cond)?;
    pair(alloc, waiting, again)
}

/// `loop abort { S halt; } when(e);`
#[cycle(make)]
fn restarting(
    alloc: Global,
    callees: &Callees<'_>,
    names: &mut Scope<Var>,
    numbers: &mut Numbers,
    body: &FileStmt,
    cond: &Cond,
) -> Result<Stmt, AllocError>
    ensures names { OnOk result (meanings_of names.new ≡ meanings_of names.old) }
    ensures tree { IfOk result (λ tree. tree ≡ (restarting cond.now (made callees.now.protos.now (meanings_of callees.now.numbers) body.now)
        (meanings_of names.old) numbers.old).tree) }
    ensures next { OnOk result (numbers.new ≡ (restarting cond.now (made callees.now.protos.now (meanings_of callees.now.numbers) body.now)
        (meanings_of names.old) numbers.old).next) }
{
    let number = numbers.a_loop()?;
    let body = statement(alloc, callees, names, numbers, body)?;
    let condition = holds(alloc, names, cond)?;
    restarted(alloc, numbers, number, body, condition)
}

/// `abort S when(e);`
#[cycle(make)]
fn aborting(
    alloc: Global,
    callees: &Callees<'_>,
    names: &mut Scope<Var>,
    numbers: &mut Numbers,
    body: &FileStmt,
    kind: Kind,
    cond: &Cond,
) -> Result<Stmt, AllocError>
    ensures names { OnOk result (meanings_of names.new ≡ meanings_of names.old) }
    ensures tree { IfOk result (λ tree. tree ≡ (aborting kind (made callees.now.protos.now (meanings_of callees.now.numbers) body.now) (holds cond.now)
        (meanings_of names.old) numbers.old).tree) }
    ensures next { OnOk result (numbers.new ≡ (aborting kind (made callees.now.protos.now (meanings_of callees.now.numbers) body.now) (holds cond.now)
        (meanings_of names.old) numbers.old).next) }
{
    let body = statement(alloc, callees, names, numbers, body)?;
    let condition = holds(alloc, names, cond)?;
    aborted(alloc, kind, body, condition)
}

/// `suspend S when(e);`
#[cycle(make)]
fn suspending(
    alloc: Global,
    callees: &Callees<'_>,
    names: &mut Scope<Var>,
    numbers: &mut Numbers,
    body: &FileStmt,
    kind: Kind,
    cond: &Cond,
) -> Result<Stmt, AllocError>
    ensures names { OnOk result (meanings_of names.new ≡ meanings_of names.old) }
    ensures tree { IfOk result (λ tree. tree ≡ (suspending kind (made callees.now.protos.now (meanings_of callees.now.numbers) body.now) (holds cond.now)
        (meanings_of names.old) numbers.old).tree) }
    ensures next { OnOk result (numbers.new ≡ (suspending kind (made callees.now.protos.now (meanings_of callees.now.numbers) body.now) (holds cond.now)
        (meanings_of names.old) numbers.old).next) }
{
    let held = held_body(alloc, callees, names, numbers, body, kind)?;
    let condition = holds(alloc, names, cond)?;
    suspended(alloc, kind, held.place, held.body, condition)
}

/// The statement that a suspend holds, after its hold place.
#[derive(Drop)]
struct HeldBody {
    /// The hold place, where there is one.
    place: Option<u32>,
    body: Stmt,
}

/// Numbers the hold place of a suspend, and makes its body after it.
#[cycle(make)]
fn held_body(
    alloc: Global,
    callees: &Callees<'_>,
    names: &mut Scope<Var>,
    numbers: &mut Numbers,
    body: &FileStmt,
    kind: Kind,
) -> Result<HeldBody, AllocError>
    ensures names { OnOk result (meanings_of names.new ≡ meanings_of names.old) }
    ensures place { IfOk result (λ held. held.place ≡ hold_place kind numbers.old) }
    ensures tree { IfOk result (λ held. held.body ≡ (made callees.now.protos.now (meanings_of callees.now.numbers) body.now
        (meanings_of names.old) (with_hold_place kind numbers.old)).tree) }
    ensures next { OnOk result (numbers.new ≡ (made callees.now.protos.now (meanings_of callees.now.numbers) body.now
        (meanings_of names.old) (with_hold_place kind numbers.old)).next) }
{
    let place = numbers.hold_place(kind)?;
    let inner = statement(alloc, callees, names, numbers, body)?;
    Ok(HeldBody { place, body: inner })
}

/// Makes a block.
#[cycle(make)]
pub(crate) fn block(
    alloc: Global,
    callees: &Callees<'_>,
    names: &mut Scope<Var>,
    numbers: &mut Numbers,
    inner: &FileBlock,
) -> Result<Stmt, AllocError>
    ensures names { OnOk result (meanings_of names.new ≡ meanings_of names.old) }
    ensures tree { IfOk result (λ tree. tree
        ≡ (made callees.now.protos.now (meanings_of callees.now.numbers) (Block inner.now) (meanings_of names.old) numbers.old).tree) }
    ensures next { OnOk result (numbers.new
        ≡ (made callees.now.protos.now (meanings_of callees.now.numbers) (Block inner.now) (meanings_of names.old) numbers.old).next) }
{
    let locals = declare(alloc, inner.decls.as_slice(), names, numbers)?;
    let body = lists(alloc, callees, names, numbers, inner)?;
    names.undo(locals.hidden)?;
    scoped(alloc, locals.numbers, body)
}

/// Makes the lists of a block.
#[cycle(make)]
fn lists(
    alloc: Global,
    callees: &Callees<'_>,
    names: &mut Scope<Var>,
    numbers: &mut Numbers,
    inner: &FileBlock,
) -> Result<Stmt, AllocError>
    ensures names { OnOk result (meanings_of names.new ≡ meanings_of names.old) }
    ensures tree { IfOk result (λ tree. tree ≡ (in_parallel (map (λ list. in_sequence
        (map (made callees.now.protos.now (meanings_of callees.now.numbers)) list)) inner.now.lists) (meanings_of names.old) numbers.old).tree) }
    ensures next { OnOk result (numbers.new ≡ (in_parallel (map (λ list. in_sequence
        (map (made callees.now.protos.now (meanings_of callees.now.numbers)) list)) inner.now.lists) (meanings_of names.old) numbers.old).next) }
{
    let mut parts = Items::new(alloc);
    for list in inner.lists.as_slice() {
        let part = sequence(alloc, callees, names, numbers, list.as_slice())?;
        parts.push(part)?;
    }
    Ok(in_parallel(parts))
}

/// Makes a list of statements.
#[cycle(make)]
fn sequence(
    alloc: Global,
    callees: &Callees<'_>,
    names: &mut Scope<Var>,
    numbers: &mut Numbers,
    list: &[FileStmt],
) -> Result<Stmt, AllocError>
    ensures names { OnOk result (meanings_of names.new ≡ meanings_of names.old) }
    ensures tree { IfOk result (λ tree. tree ≡ (in_sequence
        (map (made callees.now.protos.now (meanings_of callees.now.numbers)) list.now) (meanings_of names.old) numbers.old).tree) }
    ensures next { OnOk result (numbers.new ≡ (in_sequence
        (map (made callees.now.protos.now (meanings_of callees.now.numbers)) list.now) (meanings_of names.old) numbers.old).next) }
{
    let mut parts = Items::new(alloc);
    for s in list {
        let part = statement(alloc, callees, names, numbers, s)?;
        parts.push(part)?;
    }
    Ok(in_sequence(parts))
}

/// Makes a call.
fn call(
    alloc: Global,
    callees: &Callees<'_>,
    names: &Scope<Var>,
    numbers: &mut Numbers,
    callee: &NameAt,
    args: &[FileExpr],
) -> Result<Stmt, AllocError>
    ensures tree { IfOk result (λ tree. tree ≡ (calling (unwrap_or (meanings_of callees.now.numbers callee.now.name) 0)
        (unwrap_or (formals_of callees.now.protos.now (meanings_of callees.now.numbers) callee.now.name) [])
        args.now (meanings_of names.now) numbers.old).tree) }
    ensures next { OnOk result (numbers.new ≡ with_call numbers.old) }
{
    let own = numbers.a_call()?;
    let proto = proto_number(callees, callee)?;
    let formals = formals_of(callees, callee).unwrap_or(&[]);
    let arguments = arguments(alloc, names, formals, args)?;
    Ok(Stmt::Call(own, proto, arguments))
}

/// The number of the prototype of a name.
fn proto_number(callees: &Callees<'_>, callee: &NameAt) -> Result<u32, AllocError>
    ensures { IfOk result (λ proto. proto ≡ unwrap_or (meanings_of callees.now.numbers callee.now.name) 0) }
{
    match callees.numbers.get(&callee.name) {
        Some(proto) => number(proto),
        None => Ok(0),
    }
}

/// The arguments of a call, each at its formal.
fn arguments(
    alloc: Global,
    names: &Scope<Var>,
    formals: &[FileFormal],
    args: &[FileExpr],
) -> Result<Items<Arg>, AllocError>
    ensures { IfOk result (λ core. core ≡ core_arguments (meanings_of names.now) formals.now args.now) }
{
    let mut core = Items::new(alloc);
    let mut rest = formals;
    for value in args {
        match rest.split_first() {
            None => return Ok(core),
            Some((formal, more)) => {
                core.push(argument(alloc, names, formal.dir, value)?)?;
                rest = more;
            }
        }
    }
    Ok(core)
}

/// An argument, by its formal's direction.
fn argument(
    alloc: Global,
    names: &Scope<Var>,
    dir: Dir,
    value: &FileExpr,
) -> Result<Arg, AllocError>
    ensures { IfOk result (λ core. core ≡ core_argument (meanings_of names.now) dir value.now) }
{
    match dir {
        Dir::In => {
            let value = expression(alloc, names, value)?;
            Ok(Arg::In(value))
        }
        Dir::Out => Ok(Arg::Out(output_variable(names, value))),
    }
}

/// An output's argument, which is a plain name.
fn output_variable(names: &Scope<Var>, value: &FileExpr) -> Var
    ensures { result ≡ output_variable (meanings_of names.now) (out-FileExpr value.now) }
{
    match value {
        FileExpr::Name(name) => variable(names, &name.name),
        _ => Var::Formal(0),
    }
}
