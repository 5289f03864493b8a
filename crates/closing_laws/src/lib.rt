//! The law that the system of a whole program of one module closes it.
//!
//! Nothing is said of statements here: what was compiled says by its contract what the nets mean in every view
//! (`qz_single`), a valuation of the system is such a view, and the laws of the source's walks carry it to rounds and
//! macro steps.
#![tactic(auto)]

ghost use Rattle.closing_laws.specs.Closing.{SystemsClose};

/// The system of a whole program of one module closes it: they agree in all that is named, in their permitted
/// valuations, at each of them in every round, Unknown and Clash among what is known, and in the valuation that comes
/// next.
pub fn systems_close_their_programs()
    ensures { SystemsClose }
{}
