//! The texts by which instances are named.

ghost use Rattle.std.specs.Prelude.{◌≡◌, [], slice_index_or, IfOk};
ghost use Rattle.qz_react.specs.Seeing.{instance_of};
ghost use Rattle.qz_interp.specs.InstanceTexts.{variable_text, instance_text};

use qz_expand::spelled;
use qz_react::Instance;
use qz_syntax::{Mark, Text, Var, Whole};
use sqlite_items::at;
use std::alloc::{AllocError, Global};

/// A variable's text and, behind it, `@` and the text of the loop by which its scope was entered.
pub(crate) fn instance_text(
    alloc: Global,
    w: &Whole,
    instance: Instance,
) -> Result<Text, AllocError>
    ensures { IfOk result (λ text. text ≡ instance_text w.now (instance_of instance)) }
{
    let variable = variable_text(w, instance.variable);
    match instance.mark {
        Mark::Here | Mark::Zero => {
            let text = String::from_str(alloc, variable)?;
            Ok(Text::from_string(text))
        }
        Mark::Loop(number) => {
            let turn = text_at(w.names.loops.as_slice(), number as usize);
            let text = format!(in alloc; "{variable}@{turn}")?;
            Ok(Text::from_string(text))
        }
    }
}

/// An output's name, or a local's text.
pub(crate) fn variable_text(w: &Whole, variable: Var) -> &str
    ensures { result.now ≡ variable_text w.now variable }
{
    match variable {
        Var::Formal(n) => match at(w.module.formals.as_slice(), n as usize) {
            Some(formal) => spelled(&formal.name),
            None => "",
        },
        Var::Local(n) => text_at(w.names.locals.as_slice(), n as usize),
        Var::Bound(_) => "",
    }
}

/// The text with this number, or an empty one.
#[tactic(auto, using(qz_interp::proofs::DoubtLemmas::none_or))]
fn text_at(texts: &[Text], number: usize) -> &str
    ensures { result.now ≡ slice_index_or texts.now number [] }
{
    match at(texts, number) {
        Some(text) => text.as_str(),
        None => "",
    }
}
