//! The tree of a source file, as it is written: prototypes and then one module with its body.
//!
//! It has the offsets that a fault of types is told at, and the parentheses and derived forms of the
//! text. A formal or declaration has its class and type as they are after carrying over. A number is
//! kept as it stands, whether or not it is in range.

use crate::declarations::{Class, Dir};
use crate::file_expressions::NameAt;
use crate::file_statements::FileBlock;
use sqlite_items::Items;

/// A type as it is written.
#[derive(Clone, Copy, Debug, PartialEq, Eq, Hash)]
pub enum TypeText {
    Bool,
    /// `bv[width]`, with the offset of the width's number.
    Bv { width: u128, at: u32 },
}

/// A formal.
#[derive(Debug, Drop)]
pub struct FileFormal {
    pub class: Class,
    pub dir: Dir,
    pub ty: TypeText,
    pub name: NameAt,
}

/// A declaration of at least one local.
#[derive(Debug, Drop)]
pub struct FileDecl {
    pub class: Class,
    pub ty: TypeText,
    pub names: Items<NameAt>,
}

/// What a module or a prototype says before its body.
#[derive(Debug, Drop)]
pub struct FileProto {
    pub name: NameAt,
    pub formals: Items<FileFormal>,
}

/// A source file.
#[derive(Debug, Drop)]
pub struct File {
    pub protos: Items<FileProto>,
    pub module: FileProto,
    pub body: FileBlock,
}
