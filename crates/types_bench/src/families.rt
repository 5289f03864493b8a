//! Files of any size. Offsets play no part in them: each is 0.

use anyhow::{Context, Result};
use qz_syntax::{
    Class, Dir, File, FileBlock, FileDecl, FileFormal, FileProto, FileStmt, Name, NameAt, Target,
    TypeText,
};
use sqlite_items::Items;
use std::alloc::Global;

/// How many names are used.
const NAMES: u32 = 250;

/// How many scopes stand in one another.
const DEPTH: u32 = 100;

#[derive(Clone, Copy)]
pub enum Family {
    /// So many uses of 250 outputs.
    Uses,
    /// So many declarations in one block.
    Declarations,
    /// So many uses of the locals of 100 scopes, in the innermost of them.
    Scopes,
}

impl Family {
    /// The family that a word names.
    pub fn named(word: &str) -> Option<Family> {
        match word {
            "uses" => Some(Family::Uses),
            "declarations" => Some(Family::Declarations),
            "scopes" => Some(Family::Scopes),
            _ => None,
        }
    }

    pub fn file(self, alloc: Global, count: u32) -> Result<File> {
        match self {
            Family::Uses => {
                let body = block(alloc, Items::new(alloc), uses(alloc, count, NAMES)?)?;
                file(alloc, formals(alloc, NAMES)?, body)
            }
            Family::Declarations => {
                let body = block(alloc, locals(alloc, count)?, Items::new(alloc))?;
                file(alloc, Items::new(alloc), body)
            }
            Family::Scopes => file(alloc, Items::new(alloc), scopes(alloc, count)?),
        }
    }
}

fn file(alloc: Global, formals: Items<FileFormal>, body: FileBlock) -> Result<File> {
    Ok(File {
        protos: Items::new(alloc),
        module: FileProto {
            name: name(alloc, 0)?,
            formals,
        },
        body,
    })
}

/// The name with that number.
fn name(alloc: Global, number: u32) -> Result<NameAt> {
    let text = format!(in alloc; "v{number}")?;
    let name = Name::new(alloc, text.as_str())?.context("a name")?;
    Ok(NameAt { name, at: 0 })
}

/// Outputs with the first so many names.
fn formals(alloc: Global, count: u32) -> Result<Items<FileFormal>> {
    let mut formals = Items::new(alloc);
    for number in 0..count {
        formals.push(FileFormal {
            class: Class::Event,
            dir: Dir::Out,
            ty: TypeText::Bool,
            name: name(alloc, number)?,
        })?;
    }
    Ok(formals)
}

/// A declaration of the name with that number.
fn local(alloc: Global, number: u32) -> Result<FileDecl> {
    let mut names = Items::new(alloc);
    names.push(name(alloc, number)?)?;
    Ok(FileDecl {
        class: Class::Event,
        ty: TypeText::Bool,
        names,
    })
}

/// Declarations of the first so many names.
fn locals(alloc: Global, count: u32) -> Result<Items<FileDecl>> {
    let mut decls = Items::new(alloc);
    for number in 0..count {
        decls.push(local(alloc, number)?)?;
    }
    Ok(decls)
}

/// So many times `emit`, of the first so many names in turn.
fn uses(alloc: Global, count: u32, names: u32) -> Result<Items<FileStmt>> {
    let mut list = Items::new(alloc);
    for number in 0..count {
        list.push(FileStmt::Emit(Target {
            next: false,
            name: name(alloc, number.checked_rem(names).unwrap_or(0))?,
        }))?;
    }
    Ok(list)
}

fn block(alloc: Global, decls: Items<FileDecl>, list: Items<FileStmt>) -> Result<FileBlock> {
    let mut lists = Items::new(alloc);
    lists.push(list)?;
    Ok(FileBlock { decls, lists })
}

/// Scopes in one another, with a local each, round so many uses of all locals.
fn scopes(alloc: Global, count: u32) -> Result<FileBlock> {
    let mut list = uses(alloc, count, DEPTH)?;
    for number in 1..DEPTH {
        let mut decls = Items::new(alloc);
        decls.push(local(alloc, number)?)?;
        let inner = block(alloc, decls, list)?;
        list = Items::new(alloc);
        list.push(FileStmt::Block(inner))?;
    }
    let mut decls = Items::new(alloc);
    decls.push(local(alloc, 0)?)?;
    block(alloc, decls, list)
}
