//! What the names in scope stand for.

ghost use Rattle.std.specs.Prelude.{◌≡◌, ◌++◌, ◌∷◌, [], Some, IfOk, OnOk};
ghost use Rattle.std.specs.Option.{is_none};
ghost use Rattle.qz_types.specs.Faults.{first_with, unless};
ghost use Rattle.qz_types.specs.Meanings.{no_meanings, updated, before};
ghost use Rattle.qz_types.specs.Scopes.{meanings_of};

use crate::faults::{FirstFault, TypeKind};
use indexmap::IndexMap;
use qz_syntax::{Name, NameAt};
use sqlite_items::Items;
use std::alloc::{AllocError, Global};

/// What the names in scope stand for.
#[derive(Drop)]
pub(crate) struct Scope<T> {
    pub entries: IndexMap<Name, T>,
}

/// A name with what it stood for before a declaration.
#[derive(Drop)]
pub(crate) struct Was<T> {
    pub name: Name,
    pub meaning: Option<T>,
}

impl<T: Copy> Scope<T> {
    /// No name is in scope.
    pub fn new(alloc: Global) -> Scope<T>
        ensures { meanings_of result ≡ no_meanings }
    {
        Scope {
            entries: IndexMap::new(alloc),
        }
    }

    /// What a name stands for.
    pub fn get(&self, name: &Name) -> Option<T>
        ensures { result ≡ meanings_of self.now name.now }
    {
        self.entries.get(name).copied()
    }

    /// Lets a name stand for something else, or for nothing, and gives what it stood for.
    pub fn set(&mut self, name: &Name, meaning: Option<T>) -> Result<Option<T>, AllocError>
        ensures was { IfOk result (λ was. was ≡ meanings_of self.old name.now) }
        ensures set { OnOk result (meanings_of self.new ≡ updated (meanings_of self.old) name.now meaning) }
    {
        match meaning {
            Some(meaning) => Ok(self.entries.insert(name.clone()?, meaning)?),
            None => Ok(self.entries.swap_remove(name)),
        }
    }

    /// Declares a name, which may stand for something already, and gives what it stood for.
    pub fn declare(
        &mut self,
        name: &NameAt,
        meaning: T,
        first: &mut FirstFault,
    ) -> Result<Option<T>, AllocError>
        ensures was { IfOk result (λ was. was ≡ meanings_of self.old name.now.name) }
        ensures set { OnOk result (meanings_of self.new ≡ updated (meanings_of self.old) name.now.name (Some meaning)) }
        ensures faults { OnOk result (first.new.fault
            ≡ first_with first.old.fault (unless (is_none (meanings_of self.old name.now.name)) TypeKind.DoubleName name.now.at)) }
    {
        let was = self.set(&name.name, Some(meaning))?;
        first.check(was.is_none(), TypeKind::DoubleName, name.at);
        Ok(was)
    }

    /// Undoes some declarations, the last one first.
    pub fn undo(&mut self, mut declared: Items<Was<T>>) -> Result<(), AllocError>
        ensures { OnOk result (meanings_of self.new ≡ before declared (meanings_of self.old)) }
    {
        while let Some(was) = declared.pop() {
            self.set(&was.name, was.meaning)?;
        }
        Ok(())
    }
}
