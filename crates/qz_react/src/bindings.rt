//! The arguments of a callee's body, which are evaluated where the call stood.

ghost use Rattle.std.specs.Prelude.{◌≡◌, OnOk};
ghost use Rattle.qz_meaning.specs.Scenes.{Passing};
ghost use Rattle.qz_meaning.specs.Expressions.{with_bindings};
ghost use Rattle.qz_react.specs.Contexts.{context_of, without_arguments};
ghost use Rattle.qz_react.specs.Seeing.{Sees};

use crate::expressions::{View, value};
use crate::here::Here;
use crate::operators::no;
use qz_syntax::Binding;
use std::alloc::AllocError;

/// Binds some arguments.
#[tactic(auto, using(crate::proofs::Placing::freed))]
pub fn bind(view: &View, here: &mut Here, bindings: &[Binding]) -> Result<(), AllocError>
    ensures bound { OnOk result ((step : Passing) → Sees view.now.table.now view.now.env.now step
        → context_of here.new ≡ with_bindings step.now (context_of here.old) bindings.now) }
    ensures freed { OnOk result (without_arguments (context_of here.new) bindings.now ≡ context_of here.old) }
{
    match bindings.split_first() {
        None => Ok(()),
        Some((binding, rest)) => {
            if !here.is_unbound(binding.number) {
                return Err(AllocError);
            }
            let known = value(view, here, &binding.value)?;
            bind(view, here, rest)?;
            here.set_argument(binding.number, known)?;
            Ok(())
        }
    }
}

/// Ends that some arguments are bound.
pub fn unbind(here: &mut Here, bindings: &[Binding]) -> Result<(), AllocError>
    ensures { OnOk result (context_of here.new ≡ without_arguments (context_of here.old) bindings.now) }
{
    match bindings.split_first() {
        None => Ok(()),
        Some((binding, rest)) => {
            here.set_argument(binding.number, no())?;
            unbind(here, rest)
        }
    }
}
