//! Laws of rounds.

ghost use Rattle.system_laws.specs.RoundLaws.{RoundsExist, RoundsAreOne, RoundsRise, RoundsEnd, RoundsStay, LastsAreOne};

/// At a valuation that fits there is a round with each number.
pub fn rounds_exist()
    ensures { RoundsExist }
{}

/// At a valuation there is one round with each number, and one last round.
pub fn rounds_are_one()
    ensures rounds { RoundsAreOne }
    ensures lasts { LastsAreOne }
{}

/// What is known never falls from round to round.
pub fn rounds_never_fall()
    ensures { RoundsRise }
{}

/// Rounds come to an end, and then stay.
pub fn rounds_come_to_an_end()
    ensures end { RoundsEnd }
    ensures stay { RoundsStay }
{}
