//! The variables to which some `next` is applied.

ghost use Rattle.std.specs.Prelude.{◌≡◌, Bool, false, map, ◌||◌, IfOk, OnOk};
ghost use Rattle.std.specs.List.{list_any};
ghost use Rattle.qz_syntax.specs.declared.expressions.Var.{Var as OfTree};
ghost use Rattle.qz_meaning.specs.Instances.{is_same_variable};
ghost use Rattle.qz_meaning.specs.Programs.{delays};
ghost use Rattle.qz_single.specs.DelayedTo.{has};

use indexmap::IndexSet;
use qz_syntax::{Stmt, Var};
use std::alloc::{AllocError, Global};

/// Some variables.
#[derive(Drop)]
pub(crate) struct Delayed {
    pub variables: IndexSet<Var>,
}

impl Delayed {
    /// The variables to which a statement applies `next`. The time is linear in the tree.
    pub fn of(alloc: Global, body: &Stmt) -> Result<Delayed, AllocError>
        ensures { IfOk result (λ delayed. (x : OfTree) → has delayed x ≡ delays x body.now) }
    {
        let mut delayed = Delayed::none(alloc);
        add(&mut delayed, body)?;
        Ok(delayed)
    }

    #[tactic(auto, unfolding(crate::specs::DelayedTo::has))]
    fn none(alloc: Global) -> Delayed
        ensures { (x : OfTree) → has result x ≡ false }
    {
        Delayed {
            variables: IndexSet::new(alloc),
        }
    }

    /// Whether a variable is one of them.
    #[tactic(auto, unfolding(crate::specs::DelayedTo::has))]
    pub fn has(&self, variable: Var) -> bool
        ensures { result ≡ has self.now variable }
    {
        self.variables.contains(&variable)
    }

    fn insert(&mut self, variable: Var) -> Result<(), AllocError>
        ensures { OnOk result ((x : OfTree) → has self.new x ≡ (has self.old x || is_same_variable variable x)) }
    {
        self.variables.insert(variable)?;
        Ok(())
    }
}

/// Adds the variables to which a statement applies `next`.
#[cycle(adding)]
fn add(delayed: &mut Delayed, s: &Stmt) -> Result<(), AllocError>
    ensures { OnOk result ((x : OfTree) → has delayed.new x ≡ (has delayed.old x || delays x s.now)) }
{
    match s {
        Stmt::Delayed(target, _) => delayed.insert(*target),
        Stmt::Nothing | Stmt::Assign(..) | Stmt::Pause(_) | Stmt::Call(..) => Ok(()),
        Stmt::Seq(parts) | Stmt::Par(parts) => add_all(delayed, parts.as_slice()),
        Stmt::If(_, first, second) => {
            add(delayed, first.get())?;
            add(delayed, second.get())
        }
        Stmt::Loop(_, body, _)
        | Stmt::Abort(_, body, _)
        | Stmt::Suspend(_, _, body, _)
        | Stmt::Scope(_, body)
        | Stmt::Bind(_, body) => add(delayed, body.get()),
    }
}

/// Adds those of some statements.
#[cycle(adding)]
fn add_all(delayed: &mut Delayed, parts: &[Stmt]) -> Result<(), AllocError>
    ensures { OnOk result ((x : OfTree) → has delayed.new x ≡ (has delayed.old x || list_any (λ part. part) (map (delays x) parts.now))) }
{
    for part in parts {
        add(delayed, part)?;
    }
    Ok(())
}
