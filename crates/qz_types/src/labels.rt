//! The labels of a module, of which no two have one name.

ghost use Rattle.std.specs.Prelude.{◌≡◌, Some, OnOk};
ghost use Rattle.std.specs.List.{flat_map};
ghost use Rattle.std.specs.Option.{option_to_list};
ghost use Rattle.qz_types.specs.Scopes.{meanings_of};
ghost use Rattle.qz_types.specs.Declarations.{Declares, label_names};
ghost use Rattle.qz_types.specs.FileFaults.{labels_of};

use crate::faults::FirstFault;
use crate::scope::Scope;
use qz_syntax::{FileBlock, FileStmt, NameAt};
use std::alloc::AllocError;

/// Looks at the labels in a statement.
#[cycle(labels)]
pub(crate) fn labels(
    seen: &mut Scope<()>,
    first: &mut FirstFault,
    s: &FileStmt,
) -> Result<(), AllocError>
    ensures { OnOk result (Declares (label_names (labels_of s.now)) (meanings_of seen.old) (meanings_of seen.new) first.old.fault first.new.fault) }
{
    match s {
        FileStmt::Nothing | FileStmt::Assign { .. } | FileStmt::Emit(_) | FileStmt::Call { .. } => {
            Ok(())
        }
        FileStmt::Pause(label) | FileStmt::Halt(label) | FileStmt::Await { label, .. } => own(
            seen, first, label,
        ),
        FileStmt::Block(inner) => lists(seen, first, inner),
        FileStmt::If(_, yes, no) => {
            labels(seen, first, yes.get())?;
            match no {
                Some(no) => labels(seen, first, no.get()),
                None => Ok(()),
            }
        }
        FileStmt::DoWhile(body, _)
        | FileStmt::While(_, body)
        | FileStmt::Loop(body)
        | FileStmt::Every(_, body)
        | FileStmt::Abort(_, body, _)
        | FileStmt::Suspend(_, body, _) => labels(seen, first, body.get()),
    }
}

/// Looks at the labels in the lists of a block.
#[cycle(labels)]
pub(crate) fn lists(
    seen: &mut Scope<()>,
    first: &mut FirstFault,
    inner: &FileBlock,
) -> Result<(), AllocError>
    ensures { OnOk result (Declares (label_names (flat_map (λ list. flat_map labels_of list) inner.now.lists))
        (meanings_of seen.old) (meanings_of seen.new) first.old.fault first.new.fault) }
{
    for list in inner.lists.as_slice() {
        statements(seen, first, list.as_slice())?;
    }
    Ok(())
}

/// Looks at the labels in a list of statements.
#[cycle(labels)]
fn statements(
    seen: &mut Scope<()>,
    first: &mut FirstFault,
    list: &[FileStmt],
) -> Result<(), AllocError>
    ensures { OnOk result (Declares (label_names (flat_map labels_of list.now)) (meanings_of seen.old) (meanings_of seen.new) first.old.fault first.new.fault) }
{
    for s in list {
        labels(seen, first, s)?;
    }
    Ok(())
}

/// Looks at a statement's own label, if it has one.
fn own(
    seen: &mut Scope<()>,
    first: &mut FirstFault,
    label: &Option<NameAt>,
) -> Result<(), AllocError>
    ensures { OnOk result (Declares (label_names (option_to_list label.now)) (meanings_of seen.old) (meanings_of seen.new) first.old.fault first.new.fault) }
{
    match label {
        Some(label) => {
            seen.declare(label, (), first)?;
            Ok(())
        }
        None => Ok(()),
    }
}
