//! The mark of the instance that each local has here.

ghost use Rattle.std.specs.Prelude.{◌≡◌, IfOk, OnOk};
ghost use Rattle.qz_meaning.specs.Scenes.{root, with_locals, instance_here};
ghost use Rattle.qz_control.specs.Contexts.{context_of, with_local, restored};

use qz_syntax::{Mark, Var};
use std::alloc::{AllocError, Global};

/// The marks of the locals whose scopes are round a place, by their numbers. They are changed in
/// place: what is entered is left again.
#[derive(Debug, Drop)]
pub struct Marks {
    pub of: Vec<Mark>,
}

/// A local, and the mark that it had before its scope was entered.
#[derive(Clone, Copy, Debug, Drop, PartialEq, Eq)]
pub struct Covered {
    pub local: u32,
    pub mark: Mark,
}

impl Marks {
    /// At the root of a body, where no local exists.
    #[tactic(auto, unfolding(crate::specs::Contexts::context_of))]
    pub fn at_root(alloc: Global) -> Marks
        ensures { context_of result ≡ root }
    {
        Marks {
            of: Vec::new(alloc),
        }
    }

    /// The mark of the instance that a local has here.
    #[tactic(auto, unfolding(crate::specs::Contexts::context_of))]
    pub fn of_local(&self, local: u32) -> Mark
        ensures { result ≡ (context_of self.now).marks local }
    {
        self.of.get(local as usize).copied().unwrap_or(Mark::Zero)
    }

    /// The mark of the instance that a variable has here.
    pub fn of_variable(&self, variable: Var) -> Mark
        ensures { result ≡ (instance_here (context_of self.now) variable).mark }
    {
        match variable {
            Var::Formal(_) | Var::Bound(_) => Mark::Zero,
            Var::Local(local) => self.of_local(local),
        }
    }

    /// Enters a scope whose locals have instances with this mark. The answer is what to leave it by.
    pub fn enter(
        &mut self,
        alloc: Global,
        locals: &[u32],
        mark: Mark,
    ) -> Result<Vec<Covered>, AllocError>
        ensures entered { OnOk result (context_of self.new ≡ with_locals (context_of self.old) locals.now mark) }
        ensures covered { IfOk result (λ covered. restored (context_of self.new) covered.items ≡ context_of self.old) }
    {
        let mut covered = Vec::new(alloc);
        for local in locals {
            covered.push(Covered {
                local: *local,
                mark: self.of_local(*local),
            })?;
            self.set(*local, mark)?;
        }
        Ok(covered)
    }

    /// Leaves a scope.
    pub fn leave(&mut self, covered: Vec<Covered>) -> Result<(), AllocError>
        ensures { OnOk result (context_of self.new ≡ restored (context_of self.old) covered.items) }
    {
        let mut covered = covered;
        while let Some(one) = covered.pop() {
            self.set(one.local, one.mark)?;
        }
        Ok(())
    }

    /// From here on a local has its instance with this mark.
    fn set(&mut self, local: u32, mark: Mark) -> Result<(), AllocError>
        ensures { OnOk result (context_of self.new ≡ with_local (context_of self.old) local mark) }
    {
        for _ in self.of.len()..local as usize + 1 {
            self.pad()?;
        }
        self.put(local as usize, mark)
    }

    /// Keeps one local more, as it is at the root.
    #[tactic(auto, using(crate::proofs::Placing::padded))]
    fn pad(&mut self) -> Result<(), AllocError>
        ensures { OnOk result (context_of self.new ≡ context_of self.old) }
    {
        self.of.push(Mark::Zero)?;
        Ok(())
    }

    /// Sets one mark.
    #[tactic(auto, using(crate::proofs::Placing::put))]
    fn put(&mut self, place: usize, mark: Mark) -> Result<(), AllocError>
        ensures { OnOk result (context_of self.new ≡ with_local (context_of self.old) place mark) }
    {
        if place < self.of.len() {
            self.of[place] = mark;
            Ok(())
        } else {
            Err(AllocError)
        }
    }
}
