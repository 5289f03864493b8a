//! Small files as rows of plain data.

use crate::parts::{Locals, Step, body, name};
use qz_syntax::{Class, Dir, File, FileFormal, FileProto, TypeText};
use sqlite_items::Items;
use std::alloc::{AllocError, Global};

/// A formal, which is an event: its direction, its type, its name and the name's offset.
pub type Formal = (Dir, TypeText, &'static str, u32);

/// A list of formals.
#[derive(Clone, Copy)]
pub enum Formals {
    These(&'static [Formal]),
    /// So many inputs, of which each is at its number.
    Many(u32),
}

/// What a module or a prototype says before its body: its name, the name's offset and its formals.
pub type Head = (&'static str, u32, Formals);

/// A file.
#[derive(Clone, Copy)]
pub struct Row<'a> {
    pub protos: &'a [Head],
    pub module: Head,
    pub locals: &'a [Locals],
    pub steps: &'a [Step],
}

pub const BYTE: TypeText = TypeText::Bv { width: 8, at: 90 };

/// `event ?i, event !o, event bv[8] ?n, event bv[8] !m`
pub const FOUR: Formals = Formals::These(&[
    (Dir::In, TypeText::Bool, "i", 1),
    (Dir::Out, TypeText::Bool, "o", 2),
    (Dir::In, BYTE, "n", 3),
    (Dir::Out, BYTE, "m", 4),
]);

/// The prototype `B` with those formals.
pub const B: Head = ("B", 0, FOUR);

/// The file of a row.
pub fn file(alloc: Global, row: &Row<'_>) -> Result<File, AllocError> {
    let protos = protos(alloc, row.protos)?;
    let module = proto(alloc, &row.module)?;
    let body = body(alloc, row.locals, row.steps)?;
    Ok(File {
        protos,
        module,
        body,
    })
}

fn protos(alloc: Global, heads: &[Head]) -> Result<Items<FileProto>, AllocError> {
    let mut protos = Items::new(alloc);
    for head in heads {
        protos.push(proto(alloc, head)?)?;
    }
    Ok(protos)
}

fn proto(alloc: Global, head: &Head) -> Result<FileProto, AllocError> {
    let (text, at, list) = head;
    let formals = listed(alloc, *list)?;
    let name = name(alloc, text, *at)?;
    Ok(FileProto { name, formals })
}

fn listed(alloc: Global, list: Formals) -> Result<Items<FileFormal>, AllocError> {
    match list {
        Formals::These(rows) => these(alloc, rows),
        Formals::Many(count) => many(alloc, count),
    }
}

fn these(alloc: Global, rows: &[Formal]) -> Result<Items<FileFormal>, AllocError> {
    let mut formals = Items::new(alloc);
    for (dir, ty, text, at) in rows {
        formals.push(formal(alloc, *dir, *ty, text, *at)?)?;
    }
    Ok(formals)
}

fn many(alloc: Global, count: u32) -> Result<Items<FileFormal>, AllocError> {
    let mut formals = Items::new(alloc);
    for at in 0..count {
        formals.push(numbered(alloc, at)?)?;
    }
    Ok(formals)
}

fn numbered(alloc: Global, at: u32) -> Result<FileFormal, AllocError> {
    let text = format!(in alloc; "f{at}")?;
    formal(alloc, Dir::In, TypeText::Bool, text.as_str(), at)
}

fn formal(
    alloc: Global,
    dir: Dir,
    ty: TypeText,
    text: &str,
    at: u32,
) -> Result<FileFormal, AllocError> {
    let name = name(alloc, text, at)?;
    Ok(FileFormal {
        class: Class::Event,
        dir,
        ty,
        name,
    })
}
