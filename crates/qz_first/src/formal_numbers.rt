//! The numbers of a module's formals by their names.

ghost use Rattle.std.specs.Prelude.{◌≡◌, true, false, IfOk, MatchOption};
ghost use Rattle.qz_first.specs.CoreTree.{number_of};
ghost use Rattle.qz_syntax.specs.DoubleNames.{formal_names, are_distinct};

use indexmap::IndexSet;
use qz_syntax::{Formal, Name};
use std::alloc::{AllocError, Global};
use std::marker::Model;

/// The names of formals, each at its formal's number.
#[derive(Drop)]
pub struct FormalNumbers {
    names: IndexSet<Name>,
}

impl Model for FormalNumbers {
    ghost use Rattle.std.specs.Prelude.{List, ℕ};

    ghost Value = { List (List ℕ) };

    ghost view = { λ numbers. numbers.names.keys };
}

impl FormalNumbers {
    /// The numbers of these formals, or `None` where two of them have one name.
    pub fn new(alloc: Global, formals: &[Formal]) -> Result<Option<FormalNumbers>, AllocError>
        ensures { IfOk result (λ made. MatchOption made (are_distinct (formal_names formals.now) ≡ false)
            (λ numbers. (numbers ≡ formal_names formals.now) × (are_distinct (formal_names formals.now) ≡ true))) }
    {
        let mut names = IndexSet::new(alloc);
        for formal in formals {
            let (_, added) = names.insert_full(formal.name.clone()?)?;
            if !added {
                return Ok(None);
            }
        }
        Ok(Some(FormalNumbers { names }))
    }

    /// The number of the formal of this name.
    pub fn number_of(&self, name: &Name) -> Option<usize>
        ensures { result ≡ number_of self.now name.now }
    {
        self.names.get_index_of(name)
    }
}
