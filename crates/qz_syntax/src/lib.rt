//! The trees of the language: modules with their declarations, statements and expressions as they
//! are after typing, the places where control rests, and what may be said against a program.
//!
//! In these, derived forms are already replaced: `loop S` is a do-while with the condition `true`,
//! `await` is a loop round a pause, and so on. Modules, loops, calls, locals and places have
//! numbers, counted from 0 in tree order (preorder).
//!
//! `File` is the tree before typing: a source text as it is written, with names, derived forms,
//! parentheses and the offsets of its tokens.
#![tactic(auto)]

mod declarations;
mod expressions;
mod file_expressions;
mod file_statements;
mod files;
mod marks;
mod may_end_rule;
mod modules;
mod names;
mod places;
mod refusals;
mod sizes;
mod statements;

pub use declarations::{Class, Decl, Dir, Formal, Port, Proto};
pub use expressions::{Expr, Var};
pub use file_expressions::{FileExpr, NameAt};
pub use file_statements::{Cond, FileBlock, FileStmt, Target};
pub use files::{File, FileDecl, FileFormal, FileProto, TypeText};
pub use marks::marks_of;
pub use may_end_rule::may_end;
pub use modules::{Module, Names, Typed, Whole};
pub use names::{Name, Text};
pub use places::{Later, Mark, Place, Residual, Store};
pub use refusals::{CompileRefusal, Doubt, LinkRefusal};
pub use sizes::size;
pub use statements::{Arg, Binding, Kind, Stmt};
