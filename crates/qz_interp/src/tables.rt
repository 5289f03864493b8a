//! What a machine makes once for its program.

ghost use Rattle.std.specs.Prelude.{◌≡◌, IfOk};
ghost use Rattle.qz_interp.specs.Tables.{AreTablesOf};

use crate::entering::blank_slots;
use crate::instance_texts::texts_of;
use crate::lists::Lists;
use qz_react::Walker;
use qz_syntax::{Text, Whole};
use std::alloc::{AllocError, Global};

/// How a program is walked, the texts of its instances, and the lists of its steps.
#[derive(Drop)]
pub(crate) struct Tables {
    pub walker: Walker,
    /// The text of each instance.
    pub texts: Vec<Text>,
    pub lists: Lists,
}

impl Tables {
    /// The tables of a program.
    pub fn make(alloc: Global, w: &Whole) -> Result<Tables, AllocError>
        ensures { IfOk result (λ tables. AreTablesOf w.now tables) }
    {
        let walker = Walker::make(alloc, &w.module)?;
        let blank = blank_slots(alloc, &w.module, walker.instances())?;
        let texts = texts_of(alloc, w, walker.instances())?;
        let lists = Lists::make(alloc, blank)?;
        Ok(Tables {
            walker,
            texts,
            lists,
        })
    }
}
