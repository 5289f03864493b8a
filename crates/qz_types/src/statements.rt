//! What is said against statements.

ghost use Rattle.std.specs.Prelude.{◌≡◌, ◌∷◌, Some, OnOk};
ghost use Rattle.std.specs.List.{flat_map};
ghost use Rattle.std.specs.Option.{option_map};
ghost use Rattle.qz_types.specs.Faults.{first_with, unless, fault_at};
ghost use Rattle.qz_types.specs.Scopes.{meanings_of};
ghost use Rattle.qz_types.specs.ExpressionTypes.{told};
ghost use Rattle.qz_types.specs.ArgumentFaults.{call_faults, formals_of};
ghost use Rattle.qz_types.specs.WrittenTypes.{where_typed};
ghost use Rattle.qz_values.specs.Types.{is_bool};
ghost use Rattle.qz_syntax.specs.declared.file_statements.FileStmt.TheVariants.{Block};
ghost use Rattle.qz_types.specs.StatementFaults.{condition_faults, type_named, written_faults, assignment_faults, emission_faults, statement_faults};

use crate::arguments::{both, is_writable, matched, own};
use crate::declarations::{declare_locals, local_widths};
use crate::expressions::{is_bool, type_of};
use crate::faults::{FirstFault, TypeKind};
use crate::scope::Scope;
use crate::variables::Variable;
use qz_syntax::{Cond, FileBlock, FileExpr, FileFormal, FileProto, FileStmt, NameAt, Target};
use qz_values::Ty;
use sqlite_items::at;
use std::alloc::{AllocError, Global};

/// The prototypes of a file, and the numbers that their names stand for.
#[derive(Drop)]
pub(crate) struct Callees<'f> {
    pub protos: &'f [FileProto],
    pub numbers: Scope<usize>,
}

/// Looks at a statement.
#[cycle(check)]
pub(crate) fn statement(
    alloc: Global,
    callees: &Callees<'_>,
    names: &mut Scope<Variable>,
    first: &mut FirstFault,
    s: &FileStmt,
) -> Result<(), AllocError>
    ensures names { OnOk result (meanings_of names.new ≡ meanings_of names.old) }
    ensures faults { OnOk result (first.new.fault
        ≡ first_with first.old.fault (statement_faults callees.now.protos.now (meanings_of callees.now.numbers) s.now (meanings_of names.old))) }
{
    match s {
        FileStmt::Nothing | FileStmt::Pause(_) | FileStmt::Halt(_) => Ok(()),
        FileStmt::Await { cond, .. } => {
            condition(names, cond, first);
            Ok(())
        }
        FileStmt::Assign {
            target,
            equals,
            value,
        } => {
            assignment(names, target, *equals, value, first);
            Ok(())
        }
        FileStmt::Emit(target) => {
            emission(names, target, first);
            Ok(())
        }
        FileStmt::Block(inner) => block(alloc, callees, names, first, inner),
        FileStmt::If(cond, yes, no) => {
            condition(names, cond, first);
            statement(alloc, callees, names, first, yes.get())?;
            match no {
                Some(no) => statement(alloc, callees, names, first, no.get()),
                None => Ok(()),
            }
        }
        FileStmt::DoWhile(body, cond)
        | FileStmt::Abort(_, body, cond)
        | FileStmt::Suspend(_, body, cond) => {
            statement(alloc, callees, names, first, body.get())?;
            condition(names, cond, first);
            Ok(())
        }
        FileStmt::While(cond, body) | FileStmt::Every(cond, body) => {
            condition(names, cond, first);
            statement(alloc, callees, names, first, body.get())
        }
        FileStmt::Loop(body) => statement(alloc, callees, names, first, body.get()),
        FileStmt::Call { callee, args } => {
            call(callees, names, callee, args.as_slice(), first);
            Ok(())
        }
    }
}

/// Looks at a block.
#[cycle(check)]
pub(crate) fn block(
    alloc: Global,
    callees: &Callees<'_>,
    names: &mut Scope<Variable>,
    first: &mut FirstFault,
    inner: &FileBlock,
) -> Result<(), AllocError>
    ensures names { OnOk result (meanings_of names.new ≡ meanings_of names.old) }
    ensures faults { OnOk result (first.new.fault
        ≡ first_with first.old.fault (statement_faults callees.now.protos.now (meanings_of callees.now.numbers) (Block inner.now) (meanings_of names.old))) }
{
    local_widths(inner.decls.as_slice(), first);
    let hidden = declare_locals(alloc, inner.decls.as_slice(), names, first)?;
    lists(alloc, callees, names, first, inner)?;
    names.undo(hidden)
}

/// Looks at the lists of a block.
#[cycle(check)]
fn lists(
    alloc: Global,
    callees: &Callees<'_>,
    names: &mut Scope<Variable>,
    first: &mut FirstFault,
    inner: &FileBlock,
) -> Result<(), AllocError>
    ensures names { OnOk result (meanings_of names.new ≡ meanings_of names.old) }
    ensures faults { OnOk result (first.new.fault ≡ first_with first.old.fault (flat_map (λ list. flat_map (λ s.
        statement_faults callees.now.protos.now (meanings_of callees.now.numbers) s (meanings_of names.old)) list) inner.now.lists)) }
{
    for list in inner.lists.as_slice() {
        statements(alloc, callees, names, first, list.as_slice())?;
    }
    Ok(())
}

/// Looks at a list of statements.
#[cycle(check)]
fn statements(
    alloc: Global,
    callees: &Callees<'_>,
    names: &mut Scope<Variable>,
    first: &mut FirstFault,
    list: &[FileStmt],
) -> Result<(), AllocError>
    ensures names { OnOk result (meanings_of names.new ≡ meanings_of names.old) }
    ensures faults { OnOk result (first.new.fault ≡ first_with first.old.fault (flat_map (λ s.
        statement_faults callees.now.protos.now (meanings_of callees.now.numbers) s (meanings_of names.old)) list.now)) }
{
    for s in list {
        statement(alloc, callees, names, first, s)?;
    }
    Ok(())
}

/// Looks at a condition.
fn condition(names: &Scope<Variable>, cond: &Cond, first: &mut FirstFault)
    ensures { first.new.fault ≡ first_with first.old.fault (condition_faults (meanings_of names.now) cond.now) }
{
    let ty = type_of(names, &cond.expr, first);
    truth(ty, cond.at, first);
}

/// A type that has to be `bool`, if there is one.
fn truth(ty: Option<Ty>, at: u32, first: &mut FirstFault)
    ensures { first.new.fault
        ≡ first_with first.old.fault (where_typed ty (λ t. unless (is_bool t) TypeKind.TypeDiffers at)) }
{
    if let Some(ty) = ty {
        first.check(is_bool(ty), TypeKind::TypeDiffers, at);
    }
}

/// Looks at an assignment.
fn assignment(
    names: &Scope<Variable>,
    target: &Target,
    equals: u32,
    value: &FileExpr,
    first: &mut FirstFault,
)
    ensures { first.new.fault
        ≡ first_with first.old.fault (assignment_faults (meanings_of names.now) target.now equals value.now) }
{
    let written = written(names, &target.name, first);
    let ty = type_of(names, value, first);
    both(written, ty, equals, first);
}

/// Looks at an `emit`.
fn emission(names: &Scope<Variable>, target: &Target, first: &mut FirstFault)
    ensures { first.new.fault ≡ first_with first.old.fault (emission_faults (meanings_of names.now) target.now) }
{
    let written = written(names, &target.name, first);
    truth(written, target.name.at, first);
}

/// Looks at a name that is written, and gives its type.
fn written(names: &Scope<Variable>, name: &NameAt, first: &mut FirstFault) -> Option<Ty>
    ensures ty { result ≡ type_named (meanings_of names.now name.now.name) }
    ensures faults { first.new.fault
        ≡ first_with first.old.fault (written_faults (meanings_of names.now name.now.name) name.now.at) }
{
    match names.get(&name.name) {
        None => {
            first.note(TypeKind::UnknownName, name.at);
            None
        }
        Some(variable) => {
            first.check(is_writable(variable.dir), TypeKind::WriteToInput, name.at);
            variable.ty
        }
    }
}

/// Looks at a call.
fn call(
    callees: &Callees<'_>,
    names: &Scope<Variable>,
    callee: &NameAt,
    arguments: &[FileExpr],
    first: &mut FirstFault,
)
    ensures { first.new.fault ≡ first_with first.old.fault (call_faults (meanings_of names.now) callee.now.at arguments.now
        (formals_of callees.now.protos.now (meanings_of callees.now.numbers) callee.now.name)) }
{
    match formals_of(callees, callee) {
        None => {
            first.note(TypeKind::UnknownName, callee.at);
            own(names, arguments, first);
        }
        Some(formals) => called(names, callee.at, formals, arguments, first),
    }
}

/// Looks at a call of a module with these formals.
fn called(
    names: &Scope<Variable>,
    at: u32,
    formals: &[FileFormal],
    arguments: &[FileExpr],
    first: &mut FirstFault,
)
    ensures { first.new.fault
        ≡ first_with first.old.fault (call_faults (meanings_of names.now) at arguments.now (Some formals.now)) }
{
    if arguments.len() == formals.len() {
        matched(names, formals, arguments, first);
    } else {
        first.note(TypeKind::ArgCount, at);
        own(names, arguments, first);
    }
}

/// The formals of the prototype of a name.
pub(crate) fn formals_of<'f>(callees: &Callees<'f>, callee: &NameAt) -> Option<&'f [FileFormal]>
    ensures { option_map (λ formals. formals.now) result
        ≡ formals_of callees.now.protos.now (meanings_of callees.now.numbers) callee.now.name }
{
    let number = callees.numbers.get(&callee.name)?;
    let proto = at(callees.protos, number)?;
    Some(proto.formals.as_slice())
}
