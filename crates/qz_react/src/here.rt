//! What changes on the way down a tree: by which mark each local has its instance, and the
//! arguments that are bound.

ghost use Rattle.std.specs.Prelude.{◌≡◌, IsTrue, IfOk, OnOk, map};
ghost use Rattle.qz_meaning.specs.Scenes.{root, with_locals};
ghost use Rattle.qz_syntax.specs.declared.places.Mark.TheVariants.{Zero};
ghost use Rattle.qz_react.specs.Contexts.{context_of, with_local, with_argument, without_argument};

use qz_syntax::Mark;
use qz_values::{Know, Ty, Value};
use std::alloc::{AllocError, Global};

/// The context of a walk, which is changed in place: what is entered is left again.
#[derive(Debug, Drop)]
pub struct Here {
    pub marks: Vec<Mark>,
    pub bound: Vec<Know>,
}

impl Here {
    /// At the root of a body.
    #[tactic(auto, unfolding(crate::specs::Contexts::context_of))]
    pub fn at_root(alloc: Global) -> Here
        ensures { context_of result ≡ root }
    {
        Here {
            marks: Vec::new(alloc),
            bound: Vec::new(alloc),
        }
    }

    /// Goes back to the root.
    #[tactic(auto, unfolding(crate::specs::Contexts::context_of))]
    pub fn reset(&mut self)
        ensures { context_of self.new ≡ root }
    {
        self.marks.clear();
        self.bound.clear();
    }

    /// The mark of the instance that a local has here.
    #[tactic(auto, unfolding(crate::specs::Contexts::context_of))]
    pub fn mark(&self, local: u32) -> Mark
        ensures { result ≡ (context_of self.now).marks local }
    {
        self.marks
            .get(local as usize)
            .copied()
            .unwrap_or(Mark::Zero)
    }

    /// What is known here of a bound argument.
    #[tactic(auto, unfolding(crate::specs::Contexts::context_of))]
    pub fn argument(&self, number: u32) -> Know
        ensures { result ≡ (context_of self.now).bound number }
    {
        self.bound
            .get(number as usize)
            .copied()
            .unwrap_or(Know::Known(Value::truth(false)))
    }

    /// Whether none of these locals has an instance here yet.
    pub fn is_outside(&self, locals: &[u32]) -> bool
        ensures { IsTrue result → with_locals (context_of self.now) locals.now Zero ≡ context_of self.now }
    {
        for local in locals {
            if self.mark(*local) != Mark::Zero {
                return false;
            }
        }
        true
    }

    /// From here on these locals have their instances with this mark.
    pub fn set_marks(&mut self, locals: &[u32], mark: Mark) -> Result<(), AllocError>
        ensures { OnOk result (context_of self.new ≡ with_locals (context_of self.old) locals.now mark) }
    {
        for local in locals {
            self.set_mark(*local, mark)?;
        }
        Ok(())
    }

    /// From here on a local has its instance with this mark.
    fn set_mark(&mut self, local: u32, mark: Mark) -> Result<(), AllocError>
        ensures { OnOk result (context_of self.new ≡ with_local (context_of self.old) local mark) }
    {
        for _ in self.marks.len()..local as usize + 1 {
            self.pad_marks()?;
        }
        self.put_mark(local as usize, mark)
    }

    /// Keeps one local more, as it is at the root.
    #[tactic(auto, using(crate::proofs::Placing::padded_marks))]
    fn pad_marks(&mut self) -> Result<(), AllocError>
        ensures { OnOk result (context_of self.new ≡ context_of self.old) }
    {
        self.marks.push(Mark::Zero)?;
        Ok(())
    }

    /// Sets one mark.
    #[tactic(auto, using(crate::proofs::Placing::put_mark))]
    fn put_mark(&mut self, place: usize, mark: Mark) -> Result<(), AllocError>
        ensures { OnOk result (context_of self.new ≡ with_local (context_of self.old) place mark) }
    {
        if place < self.marks.len() {
            self.marks[place] = mark;
            Ok(())
        } else {
            Err(AllocError)
        }
    }

    /// Whether an argument isn't bound here.
    pub fn is_unbound(&self, number: u32) -> bool
        ensures { IsTrue result → without_argument (context_of self.now) number ≡ context_of self.now }
    {
        match self.argument(number) {
            Know::Known(v) => v.ty() == Ty::Bool && v.bits() == 0,
            Know::Unknown | Know::Clash => false,
        }
    }

    /// From here on an argument is known as this.
    pub fn set_argument(&mut self, number: u32, known: Know) -> Result<(), AllocError>
        ensures { OnOk result (context_of self.new ≡ with_argument (context_of self.old) number known) }
    {
        for _ in self.bound.len()..number as usize + 1 {
            self.pad_arguments()?;
        }
        self.put_argument(number as usize, known)
    }

    /// Keeps one argument more, as it is at the root.
    #[tactic(auto, using(crate::proofs::Placing::padded_arguments))]
    fn pad_arguments(&mut self) -> Result<(), AllocError>
        ensures { OnOk result (context_of self.new ≡ context_of self.old) }
    {
        self.bound.push(Know::Known(Value::truth(false)))?;
        Ok(())
    }

    /// Sets one argument.
    #[tactic(auto, using(crate::proofs::Placing::put_argument))]
    fn put_argument(&mut self, place: usize, known: Know) -> Result<(), AllocError>
        ensures { OnOk result (context_of self.new ≡ with_argument (context_of self.old) place known) }
    {
        if place < self.bound.len() {
            self.bound[place] = known;
            Ok(())
        } else {
            Err(AllocError)
        }
    }
}
