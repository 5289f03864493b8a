//! Writes expressions.

ghost use Rattle.std.specs.Prelude.{◌≡◌, ◌∷◌, string_bytes, OnOk};
ghost use Rattle.qz_phrases.specs.declared.words.Word.TheVariants as word;
ghost use Rattle.qz_phrases.specs.declared.words.Mark.TheVariants as mark;
ghost use Rattle.qz_phrases.specs.Words.{bool_mark, unary_mark, binary_mark};
ghost use Rattle.qz_printer.specs.Texts.{mark_text};
ghost use Rattle.qz_printer.specs.Expressions.{index_words, expr_words};
ghost use Rattle.qz_printer.specs.Writing.{written};

use crate::words::{literal, name, number, word};
use qz_syntax::FileExpr;
use qz_values::{Op1, Op2};
use std::alloc::AllocError;

/// Writes an expression.
#[tactic(auto, using(crate::proofs::Written::written_append, crate::proofs::Equations::expression_words))]
pub(crate) fn expression(text: &mut String, e: &FileExpr) -> Result<(), AllocError>
    ensures { OnOk result (string_bytes text.new ≡ written (string_bytes text.old) (expr_words e.now)) }
{
    match e {
        FileExpr::Bool { value, .. } => word(text, truth(*value)),
        FileExpr::Lit { width, value, .. } => literal(text, *width, *value),
        FileExpr::Name(at) => name(text, &at.name),
        FileExpr::Paren { inner, .. } => {
            word(text, "(")?;
            expression(text, inner.get())?;
            word(text, ")")
        }
        FileExpr::Un { op, arg, .. } => {
            word(text, unary_sign(*op))?;
            expression(text, arg.get())
        }
        FileExpr::Bin {
            op,
            left,
            right,
            ..
        } => {
            expression(text, left.get())?;
            word(text, binary_sign(*op))?;
            expression(text, right.get())
        }
        FileExpr::Choose { cond, yes, no, .. } => {
            expression(text, cond.get())?;
            word(text, "?")?;
            expression(text, yes.get())?;
            word(text, ":")?;
            expression(text, no.get())
        }
        FileExpr::Select { arg, high, low, .. } => {
            expression(text, arg.get())?;
            indices(text, *high, *low)
        }
        FileExpr::Concat { left, right, .. } => {
            expression(text, left.get())?;
            word(text, "@")?;
            expression(text, right.get())
        }
    }
}

/// `{ high }` or `{ high : low }`.
fn indices(text: &mut String, high: u128, low: Option<u128>) -> Result<(), AllocError>
    ensures { OnOk result (string_bytes text.new
        ≡ written (string_bytes text.old) (word.Mark mark.OpenBrace ∷ word.Number high ∷ index_words low)) }
{
    word(text, "{")?;
    number(text, high)?;
    if let Some(low) = low {
        word(text, ":")?;
        number(text, low)?;
    }
    word(text, "}")
}

fn truth(value: bool) -> &'static str
    ensures { result.now ≡ mark_text (bool_mark value) }
{
    if value { "true" } else { "false" }
}

fn unary_sign(op: Op1) -> &'static str
    ensures { result.now ≡ mark_text (unary_mark op) }
{
    match op {
        Op1::Not => "!",
        Op1::Invert => "~",
    }
}

fn binary_sign(op: Op2) -> &'static str
    ensures { result.now ≡ mark_text (binary_mark op) }
{
    match op {
        Op2::Imp => "->",
        Op2::Or => "|",
        Op2::Xor => "^",
        Op2::And => "&",
        Op2::Eq => "==",
        Op2::Ne => "!=",
        Op2::Lt => "<",
        Op2::Le => "<=",
        Op2::Gt => ">",
        Op2::Ge => ">=",
        Op2::Add => "+",
        Op2::Sub => "-",
    }
}
