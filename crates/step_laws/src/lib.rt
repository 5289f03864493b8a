//! Laws of the writes of a macro step, for the compiler: they read and reach no more than the step meets.
//!
//! A round of a circuit knows instances that the source's step doesn't meet, and an environment of the source
//! may say anything of them. These laws say that the writes don't look there (`specs/Written.antt`).
#![tactic(auto)]

ghost use Rattle.step_laws.specs.StandAlone.{WalksStandAlone, LayoutsStandAlone};
ghost use Rattle.step_laws.specs.Written.{WritesReadWhatIsMet, WhatIsWrittenIsMet};

/// Environments that agree at the inputs and wherever instances are met give the same writes.
pub fn writes_read_what_is_met()
    ensures { WritesReadWhatIsMet }
{}

/// Whatever is known, what is written to is an instance that the step meets.
pub fn what_is_written_is_met()
    ensures { WhatIsWrittenIsMet }
{}

/// A module without prototypes calls nothing: its open walks and its layout are those of a whole program.
pub fn modules_without_prototypes_stand_alone()
    ensures walks { WalksStandAlone }
    ensures layouts { LayoutsStandAlone }
{}
