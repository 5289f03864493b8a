//! The numbers of a module's places, locals, loops and calls, which are given in tree order.

ghost use Rattle.std.specs.Prelude.{◌≡◌, ◌+◌, ◌∷◌, [], length, IfOk, OnOk};
ghost use Rattle.qz_types.specs.CoreModules.{no_numbers};
ghost use Rattle.qz_types.specs.Makers.{with_place, with_loop, with_call, with_locals, hold_place, with_hold_place};

use qz_syntax::{Decl, Kind, Name};
use sqlite_items::Items;
use std::alloc::{AllocError, Global};

/// What was numbered so far.
#[derive(Debug, Drop)]
pub(crate) struct Numbers {
    /// For each place its label, if it has one.
    pub labels: Items<Option<Name>>,
    /// The locals.
    pub decls: Items<Decl>,
    /// How many loops there are.
    pub loops: u32,
    /// How many calls there are.
    pub calls: u32,
}

impl Numbers {
    /// Nothing is numbered yet.
    pub fn new(alloc: Global) -> Numbers
        ensures { result ≡ no_numbers }
    {
        Numbers {
            labels: Items::new(alloc),
            decls: Items::new(alloc),
            loops: 0,
            calls: 0,
        }
    }

    /// Numbers a place.
    pub fn place(&mut self, label: Option<Name>) -> Result<u32, AllocError>
        ensures number { IfOk result (λ number. number ≡ length self.old.labels) }
        ensures next { OnOk result (self.new ≡ with_place self.old label) }
    {
        let number = number(self.labels.len())?;
        self.labels.push(label)?;
        Ok(number)
    }

    /// Numbers the hold place of a suspend, which it has where it is immediate.
    pub fn hold_place(&mut self, kind: Kind) -> Result<Option<u32>, AllocError>
        ensures number { IfOk result (λ hold. hold ≡ hold_place kind self.old) }
        ensures next { OnOk result (self.new ≡ with_hold_place kind self.old) }
    {
        if kind.immediate {
            let place = self.place(None)?;
            Ok(Some(place))
        } else {
            Ok(None)
        }
    }

    /// Numbers a loop.
    pub fn a_loop(&mut self) -> Result<u32, AllocError>
        ensures number { IfOk result (λ number. number ≡ self.old.loops) }
        ensures next { OnOk result (self.new ≡ with_loop self.old) }
    {
        let number = self.loops;
        self.loops = after(number)?;
        Ok(number)
    }

    /// Numbers a call.
    pub fn a_call(&mut self) -> Result<u32, AllocError>
        ensures number { IfOk result (λ number. number ≡ self.old.calls) }
        ensures next { OnOk result (self.new ≡ with_call self.old) }
    {
        let number = self.calls;
        self.calls = after(number)?;
        Ok(number)
    }

    /// Numbers a local.
    pub fn local(&mut self, decl: Decl) -> Result<u32, AllocError>
        ensures number { IfOk result (λ number. number ≡ length self.old.decls) }
        ensures next { OnOk result (self.new ≡ with_locals self.old (decl ∷ [])) }
    {
        let number = number(self.decls.len())?;
        self.decls.push(decl)?;
        Ok(number)
    }
}

/// A count as a number. For more than there are numbers there is no memory.
pub(crate) fn number(count: usize) -> Result<u32, AllocError>
    ensures { IfOk result (λ number. number ≡ count) }
{
    match u32::try_from(count) {
        Ok(number) => Ok(number),
        Err(_) => Err(AllocError),
    }
}

/// The number after this one.
fn after(number: u32) -> Result<u32, AllocError>
    ensures { IfOk result (λ next. next ≡ number + 1) }
{
    match number.checked_add(1) {
        Some(next) => Ok(next),
        None => Err(AllocError),
    }
}
