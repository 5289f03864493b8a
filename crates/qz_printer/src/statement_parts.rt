//! Writes statements that hold none, and the parts of the others that are no statements.

ghost use Rattle.std.specs.Prelude.{◌≡◌, [], ◌∷◌, ◌++◌, string_bytes, OnOk};
ghost use Rattle.qz_phrases.specs.declared.words.Word.TheVariants as word;
ghost use Rattle.qz_phrases.specs.declared.words.Mark.TheVariants as mark;
ghost use Rattle.qz_printer.specs.Expressions.{one, expr_words};
ghost use Rattle.qz_printer.specs.Declarations.{listed};
ghost use Rattle.qz_printer.specs.Statements.{cond_words, target_row, target_words, label_words, immediate_words, weak_words, kind_words, closing_words};
ghost use Rattle.qz_printer.specs.Writing.{spaced, written};

use crate::expressions::expression;
use crate::words::{comma, name, word};
use qz_syntax::{Cond, FileExpr, Kind, NameAt, Target};
use std::alloc::AllocError;

/// A word and a semicolon.
pub(crate) fn bare(text: &mut String, spelling: &str) -> Result<(), AllocError>
    ensures { OnOk result (string_bytes text.new
        ≡ written (spaced (string_bytes text.old) ++ spelling.now) (one mark.Semicolon)) }
{
    word(text, spelling)?;
    word(text, ";")
}

/// A label, a word and a semicolon.
#[tactic(auto, using(crate::proofs::Written::written_append))]
pub(crate) fn labelled(
    text: &mut String,
    label: &Option<NameAt>,
    spelling: &str,
) -> Result<(), AllocError>
    ensures { OnOk result (string_bytes text.new
        ≡ written (spaced (written (string_bytes text.old) (label_words label.now)) ++ spelling.now) (one mark.Semicolon)) }
{
    label_before(text, label)?;
    bare(text, spelling)
}

/// A label before its statement, if there is one.
fn label_before(text: &mut String, label: &Option<NameAt>) -> Result<(), AllocError>
    ensures { OnOk result (string_bytes text.new ≡ written (string_bytes text.old) (label_words label.now)) }
{
    match label {
        Some(at) => {
            name(text, &at.name)?;
            word(text, ":")
        }
        None => Ok(()),
    }
}

/// `l : immediate await ( e ) ;`
#[tactic(auto, using(crate::proofs::Written::written_append))]
pub(crate) fn awaiting(
    text: &mut String,
    label: &Option<NameAt>,
    immediate: bool,
    cond: &Cond,
) -> Result<(), AllocError>
    ensures { OnOk result (string_bytes text.new
        ≡ written (string_bytes text.old) (label_words label.now ++ (immediate_words immediate ++ word.Mark mark.Await ∷ closing_words cond.now))) }
{
    label_before(text, label)?;
    at_once(text, immediate)?;
    closing(text, "await", cond)
}

/// `immediate` before what has it.
fn at_once(text: &mut String, immediate: bool) -> Result<(), AllocError>
    ensures { OnOk result (string_bytes text.new ≡ written (string_bytes text.old) (immediate_words immediate)) }
{
    if immediate {
        word(text, "immediate")
    } else {
        Ok(())
    }
}

/// `weak` before what has it.
fn weakly(text: &mut String, weak: bool) -> Result<(), AllocError>
    ensures { OnOk result (string_bytes text.new ≡ written (string_bytes text.old) (weak_words weak)) }
{
    if weak { word(text, "weak") } else { Ok(()) }
}

/// What stands before the body of a preemption of this kind.
#[tactic(auto, using(crate::proofs::Written::written_append))]
pub(crate) fn preempting(text: &mut String, kind: Kind, spelling: &str) -> Result<(), AllocError>
    ensures { OnOk result (string_bytes text.new
        ≡ spaced (written (string_bytes text.old) (kind_words kind)) ++ spelling.now) }
{
    weakly(text, kind.weak)?;
    at_once(text, kind.immediate)?;
    word(text, spelling)
}

/// A word and a condition.
#[tactic(auto, using(crate::proofs::Written::written_append))]
pub(crate) fn guarded(text: &mut String, spelling: &str, cond: &Cond) -> Result<(), AllocError>
    ensures { OnOk result (string_bytes text.new
        ≡ written (spaced (string_bytes text.old) ++ spelling.now) (cond_words cond.now)) }
{
    word(text, spelling)?;
    word(text, "(")?;
    expression(text, &cond.expr)?;
    word(text, ")")
}

/// A word, a condition and a semicolon.
#[tactic(auto, using(crate::proofs::Written::written_append))]
pub(crate) fn closing(text: &mut String, spelling: &str, cond: &Cond) -> Result<(), AllocError>
    ensures { OnOk result (string_bytes text.new
        ≡ written (spaced (string_bytes text.old) ++ spelling.now) (closing_words cond.now)) }
{
    guarded(text, spelling, cond)?;
    word(text, ";")
}

/// `x` or `next ( x )`.
fn target(text: &mut String, target: &Target) -> Result<(), AllocError>
    ensures { OnOk result (string_bytes text.new ≡ written (string_bytes text.old) (target_words target.now)) }
{
    if !target.next {
        return name(text, &target.name.name);
    }
    word(text, "next")?;
    word(text, "(")?;
    name(text, &target.name.name)?;
    word(text, ")")
}

/// `x = e ;`
#[tactic(auto, using(crate::proofs::Written::written_append))]
pub(crate) fn assignment(
    text: &mut String,
    assigned: &Target,
    value: &FileExpr,
) -> Result<(), AllocError>
    ensures { OnOk result (string_bytes text.new
        ≡ written (string_bytes text.old) (target_words assigned.now ++ word.Mark mark.Equals ∷ (expr_words value.now ++ one mark.Semicolon))) }
{
    target(text, assigned)?;
    word(text, "=")?;
    expression(text, value)?;
    word(text, ";")
}

/// `emit x ;`
#[tactic(auto, using(crate::proofs::Written::written_append))]
pub(crate) fn emission(text: &mut String, emitted: &Target) -> Result<(), AllocError>
    ensures { OnOk result (string_bytes text.new
        ≡ written (string_bytes text.old) (word.Mark mark.Emit ∷ (target_words emitted.now ++ one mark.Semicolon))) }
{
    word(text, "emit")?;
    target(text, emitted)?;
    word(text, ";")
}

/// `M ( e , e ) ;`
#[tactic(auto, using(crate::proofs::Written::written_append))]
pub(crate) fn call(text: &mut String, callee: &NameAt, args: &[FileExpr]) -> Result<(), AllocError>
    ensures { OnOk result (string_bytes text.new
        ≡ written (string_bytes text.old)
        (word.Name callee.now.name ∷ word.Mark mark.OpenParen ∷ (listed expr_words args.now ++ word.Mark mark.CloseParen ∷ one mark.Semicolon))) }
{
    name(text, &callee.name)?;
    word(text, "(")?;
    arguments(text, args)?;
    word(text, ")")?;
    word(text, ";")
}

/// Arguments with a comma between each two.
fn arguments(text: &mut String, args: &[FileExpr]) -> Result<(), AllocError>
    ensures { OnOk result (string_bytes text.new ≡ written (string_bytes text.old) (listed expr_words args.now)) }
{
    for (number, arg) in args.iter().enumerate() {
        comma(text, number)?;
        expression(text, arg)?;
    }
    Ok(())
}
