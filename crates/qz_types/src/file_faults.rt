//! The first fault of a file.

ghost use Rattle.std.specs.Prelude.{◌≡◌, [], None, IfOk, OnOk, MatchOption};
ghost use Rattle.std.specs.List.{flat_map};
ghost use Rattle.qz_types.specs.Faults.{IsFirst, first_with};
ghost use Rattle.qz_types.specs.Meanings.{no_meanings};
ghost use Rattle.qz_types.specs.Declarations.{double_names, formal_faults, label_names};
ghost use Rattle.qz_types.specs.FileFaults.{faults_of, labels_of};
ghost use Rattle.qz_syntax.specs.declared.file_statements.FileStmt.TheVariants.{Block};

use crate::declarations::{formals, protos};
use crate::faults::{Fault, FirstFault, TypeKind};
use crate::labels::lists;
use crate::scope::Scope;
use crate::statements::{Callees, block};
use qz_syntax::{File, FileBlock, FileProto};
use std::alloc::{AllocError, Global};

/// The first fault of a file: the one with the least offset, at one offset the first in the order of the
/// kinds. `None` exactly where nothing is said against the file.
pub fn first_fault(alloc: Global, f: &File) -> Result<Option<Fault>, AllocError>
    ensures { IfOk result (λ fault. MatchOption fault (faults_of f.now ≡ []) (λ first. IsFirst (faults_of f.now) first)) }
{
    least_fault(alloc, f)
}

/// The least of all faults of a file.
fn least_fault(alloc: Global, f: &File) -> Result<Option<Fault>, AllocError>
    ensures { IfOk result (λ fault. fault ≡ first_with None (faults_of f.now)) }
{
    let mut first = FirstFault::new();
    let file_protos = f.protos.as_slice();
    proto_formals(alloc, file_protos, &mut first)?;
    let numbers = protos(alloc, file_protos, &mut first)?;
    first.check(
        numbers.get(&f.module.name.name).is_none(),
        TypeKind::DoubleName,
        f.module.name.at,
    );
    let mut names = formals(alloc, f.module.formals.as_slice(), &mut first)?;
    let callees = Callees {
        protos: file_protos,
        numbers,
    };
    block(alloc, &callees, &mut names, &mut first, &f.body)?;
    body_labels(alloc, &f.body, &mut first)?;
    Ok(first.fault)
}

/// Looks at the formals of prototypes.
fn proto_formals(
    alloc: Global,
    file_protos: &[FileProto],
    first: &mut FirstFault,
) -> Result<(), AllocError>
    ensures { OnOk result (first.new.fault
        ≡ first_with first.old.fault (flat_map (λ proto. formal_faults proto.formals) file_protos.now)) }
{
    for proto in file_protos {
        formals(alloc, proto.formals.as_slice(), first)?;
    }
    Ok(())
}

/// Looks at the labels of a module's body.
fn body_labels(alloc: Global, body: &FileBlock, first: &mut FirstFault) -> Result<(), AllocError>
    ensures { OnOk result (first.new.fault
        ≡ first_with first.old.fault (double_names (label_names (labels_of (Block body.now))) no_meanings)) }
{
    let mut seen = Scope::new(alloc);
    lists(&mut seen, first, body)
}
