//! What is true of the numbers of instances.

ghost use Rattle.qz_interp.specs.Numbering.{InstancesAreDistinct};
ghost use Rattle.qz_interp.specs.FirstDoubts.{ListsTellDoubts};
ghost use Rattle.qz_interp.specs.LastRounds.{NothingIsRoundZero, UnchangedIsLast, UndoubtedIsDefinite, DoubtedIsNotDefinite};
ghost use Rattle.qz_interp.specs.RoundTables.{TablesAreRounds};
ghost use Rattle.qz_interp.specs.Slots.{SettlesAsDefined};
ghost use Rattle.qz_interp.specs.Tallying.{TalliesAreVerdicts};

/// In a module that is numbered in tree order each instance has one number.
pub fn instances_have_one_number()
    ensures { InstancesAreDistinct }
{}

/// The table of verdicts by number has for each instance the verdict on its writers.
pub fn tallies_are_verdicts()
    ensures { TalliesAreVerdicts }
{}

/// What an instance settles to by its default is what it settles to by its type.
pub fn settles_as_defined()
    ensures { SettlesAsDefined }
{}

/// What the tables of a step settle to is the next round, at each instance.
pub fn tables_are_rounds()
    ensures { TablesAreRounds }
{}

/// The lists of a round tell the first instance that isn't definite in it, or that there is none.
pub fn lists_tell_doubts()
    ensures { ListsTellDoubts }
{}

/// What the lists of rounds come to: round 0, the last round, and whether it is definite.
pub fn rounds_come_to_a_decision()
    ensures zero { NothingIsRoundZero }
    ensures last { UnchangedIsLast }
    ensures definite { UndoubtedIsDefinite }
    ensures doubted { DoubtedIsNotDefinite }
{}
