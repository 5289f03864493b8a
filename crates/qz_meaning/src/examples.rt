//! What the definitions give for small programs: each contract is a value that they compute to.

ghost use Rattle.qz_meaning.specs.Examples.{EmitsAlways, StartsDefinite, EmitsInOneRun};
ghost use Rattle.qz_meaning.specs.PreemptionExamples.{AbortsStrongly, AbortsWeakly, LeavesAtOnce, LeavesAfterActing, IsHeldBack};
ghost use Rattle.qz_meaning.specs.ScopeExamples.{EntersAgain, HasThreeInstances, CarriesStores};
ghost use Rattle.qz_meaning.specs.CallExamples.{ReadsAnew, LendsItsLocal};
ghost use Rattle.qz_meaning.specs.WriterExamples.{TakesDelayed, WaitsForItself, Contradicts, PendingClashes, DelayedClashes};
ghost use Rattle.qz_meaning.specs.ValuationExamples.{IsWrittenOut, HasLocalBits, ArePermitted, IsNoPlaceWhenDone};
ghost use Rattle.qz_meaning.specs.SolutionExamples.{HasTwoSolutions};
ghost use Rattle.qz_meaning.specs.ReentryExamples.{SuspendsWeakly, EntersByEach};

/// `loop { emit o; pause; }` emits in its first step and in each later one.
pub fn emits_always()
    ensures { EmitsAlways }
{}

/// The first configuration of the same program is definite.
pub fn starts_definite()
    ensures { StartsDefinite }
{}

/// The same program has exactly one run over any number of steps.
pub fn emits_in_one_run()
    ensures { EmitsInOneRun }
{}

/// A strong abort doesn't let its body act in the step in which it is left.
pub fn aborts_strongly()
    ensures { AbortsStrongly }
{}

/// A weak abort still lets its body act in the step in which it is left.
pub fn aborts_weakly()
    ensures { AbortsWeakly }
{}

/// An immediate strong abort that is left in its first step doesn't let its body act.
pub fn leaves_at_once()
    ensures { LeavesAtOnce }
{}

/// An immediate weak abort that is left in its first step lets its body act, and control doesn't enter it.
pub fn leaves_after_acting()
    ensures { LeavesAfterActing }
{}

/// An immediate suspend keeps control at its hold place while its condition holds.
pub fn is_held_back()
    ensures { IsHeldBack }
{}

/// A local of a scope that a loop leaves and enters again has two instances in that step.
pub fn enters_again()
    ensures { EntersAgain }
{}

/// A local inside two loops has three instances.
pub fn has_three_instances()
    ensures { HasThreeInstances }
{}

/// A suspended scope's stores are carried on.
pub fn carries_stores()
    ensures { CarriesStores }
{}

/// A call's argument is evaluated anew in each step.
pub fn reads_anew()
    ensures { ReadsAnew }
{}

/// A delayed value is taken in the step after its assignment.
pub fn takes_delayed()
    ensures { TakesDelayed }
{}

/// `if(x) emit x;` isn't definite.
pub fn waits_for_itself()
    ensures { WaitsForItself }
{}

/// Two writers that give different values clash.
pub fn contradicts()
    ensures { Contradicts }
{}

/// The bits of one valuation, in their order.
pub fn is_written_out()
    ensures { IsWrittenOut }
{}

/// The bits of a local in two valuations, where it exists and where it doesn't.
pub fn has_local_bits()
    ensures { HasLocalBits }
{}

/// A pending value clashes with a present writer that gives another value.
pub fn pending_clashes()
    ensures { PendingClashes }
{}

/// Two delayed values that differ clash.
pub fn delayed_clashes()
    ensures { DelayedClashes }
{}

/// `event x; if(x) emit x;` has two macro steps with the same outputs.
pub fn has_two_solutions()
    ensures { HasTwoSolutions }
{}

/// Which stores are permitted: no mark without `next`, no value of an event, none before the start.
pub fn are_permitted()
    ensures { ArePermitted }
{}

/// A parallel whose members are all done is no place.
pub fn is_no_place_when_done()
    ensures { IsNoPlaceWhenDone }
{}

/// A call in a loop is handed the instance of the caller's local by which its scope is kept or entered.
pub fn lends_its_local()
    ensures { LendsItsLocal }
{}

/// A weak immediate suspend round a scope in a loop.
pub fn suspends_weakly()
    ensures { SuspendsWeakly }
{}

/// An inner loop's local, which the outer loop leaves and enters again.
pub fn enters_by_each()
    ensures { EntersByEach }
{}
