//! Writes statements and blocks.

ghost use Rattle.std.specs.Prelude.{◌≡◌, string_bytes, OnOk};
ghost use Rattle.std.specs.List.{flat_map, join_by};
ghost use Rattle.qz_phrases.specs.declared.words.Mark.TheVariants as mark;
ghost use Rattle.qz_printer.specs.Expressions.{one};
ghost use Rattle.qz_printer.specs.Statements.{stmt_words, block_words};
ghost use Rattle.qz_printer.specs.Writing.{written};

use crate::declarations::declarations;
use crate::statement_parts::{
    assignment, awaiting, bare, call, closing, emission, guarded, labelled, preempting,
};
use crate::words::{bars, word};
use qz_syntax::{FileBlock, FileStmt};
use std::alloc::AllocError;

/// Writes a statement.
#[tactic(auto, using(crate::proofs::Written::written_append, crate::proofs::Equations::statement_words))]
#[cycle(print)]
fn statement(text: &mut String, s: &FileStmt) -> Result<(), AllocError>
    ensures { OnOk result (string_bytes text.new ≡ written (string_bytes text.old) (stmt_words s.now)) }
{
    match s {
        FileStmt::Nothing => bare(text, "nothing"),
        FileStmt::Pause(label) => labelled(text, label, "pause"),
        FileStmt::Halt(label) => labelled(text, label, "halt"),
        FileStmt::Await {
            label,
            immediate,
            cond,
        } => awaiting(text, label, *immediate, cond),
        FileStmt::Assign { target, value, .. } => assignment(text, target, value),
        FileStmt::Emit(target) => emission(text, target),
        FileStmt::Block(inner) => block(text, inner),
        FileStmt::If(cond, yes, no) => {
            guarded(text, "if", cond)?;
            statement(text, yes.get())?;
            match no {
                Some(no) => {
                    word(text, "else")?;
                    statement(text, no.get())
                }
                None => Ok(()),
            }
        }
        FileStmt::DoWhile(body, cond) => {
            word(text, "do")?;
            statement(text, body.get())?;
            closing(text, "while", cond)
        }
        FileStmt::While(cond, body) => {
            guarded(text, "while", cond)?;
            statement(text, body.get())
        }
        FileStmt::Loop(body) => {
            word(text, "loop")?;
            statement(text, body.get())
        }
        FileStmt::Every(cond, body) => {
            guarded(text, "every", cond)?;
            statement(text, body.get())
        }
        FileStmt::Abort(kind, body, cond) => {
            preempting(text, *kind, "abort")?;
            statement(text, body.get())?;
            closing(text, "when", cond)
        }
        FileStmt::Suspend(kind, body, cond) => {
            preempting(text, *kind, "suspend")?;
            statement(text, body.get())?;
            closing(text, "when", cond)
        }
        FileStmt::Call { callee, args } => call(text, callee, args.as_slice()),
    }
}

/// Writes a block.
#[tactic(auto, using(crate::proofs::Written::written_append, crate::proofs::Equations::statement_words))]
#[cycle(print)]
pub(crate) fn block(text: &mut String, inner: &FileBlock) -> Result<(), AllocError>
    ensures { OnOk result (string_bytes text.new ≡ written (string_bytes text.old) (block_words inner.now)) }
{
    word(text, "{")?;
    declarations(text, inner.decls.as_slice())?;
    lists(text, inner)?;
    word(text, "}")
}

/// The lists of a block, with `||` between each two.
#[cycle(print)]
fn lists(text: &mut String, inner: &FileBlock) -> Result<(), AllocError>
    ensures { OnOk result (string_bytes text.new
        ≡ written (string_bytes text.old) (join_by (λ list. flat_map stmt_words list) (one mark.BarBar) inner.now.lists)) }
{
    for (number, list) in inner.lists.as_slice().iter().enumerate() {
        bars(text, number)?;
        statements(text, list.as_slice())?;
    }
    Ok(())
}

/// Statements one after the other.
#[tactic(auto, using(crate::proofs::Written::written_append))]
#[cycle(print)]
fn statements(text: &mut String, list: &[FileStmt]) -> Result<(), AllocError>
    ensures { OnOk result (string_bytes text.new ≡ written (string_bytes text.old) (flat_map stmt_words list.now)) }
{
    for s in list {
        statement(text, s)?;
    }
    Ok(())
}
