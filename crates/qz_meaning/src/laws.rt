//! What the definitions say in general: each contract is a law, for the interpreter and the compiler alike.

ghost use Rattle.std.specs.Prelude.{Bool, List};
ghost use Rattle.qz_meaning.specs.Instances.{Instance};
ghost use Rattle.qz_meaning.specs.Accounts.{Write};
ghost use Rattle.qz_meaning.specs.VerdictLaws.{VerdictsJoin, IsByLines};
ghost use Rattle.qz_meaning.specs.RisingLaws.{WalksRise, OpenWalksRise, VerdictsRise, SettledRises, SettledLaterRises};
ghost use Rattle.qz_meaning.specs.RoundLaws.{RoundsRise, RoundsEnd, RoundsStay, OneLeast};
ghost use Rattle.qz_meaning.specs.MeetingLaws.{TargetsStand, InstancesAreMetOnce, ModulesHaveNumbers, ScopesWereMet};
ghost use Rattle.qz_meaning.specs.LayoutLaws.{PlacesHaveTheirBits};
ghost use Rattle.qz_meaning.specs.StepLaws.{SolutionsAbove, SolvedNeverClash, SolutionsAreLeast, LeastSolves, DefiniteStepsOnce, StepsLeadToConfigurations};
ghost use Rattle.qz_meaning.specs.Agreement.{TheAccountsAgree};
ghost use Rattle.qz_meaning.specs.RunLaws.{PermittedAreValuations, DefiniteRunsOnce, PermittedStays, CheckedRunsOnce};

/// The verdict of two lists joined is determined by their two verdicts.
pub fn verdicts_join()
    ensures { VerdictsJoin }
{}

/// A verdict is by the first line that holds: a contradiction, a value, nobody.
pub fn verdicts_go_by_lines()
    ensures { (i : Instance) (delayed : Bool) (writes : List Write) → IsByLines i delayed writes }
{}

/// More knowledge of instances and of calls' answers never gives less in what a walk ends by and does,
/// and it does the same in the same order.
pub fn walks_are_monotone()
    ensures whole { WalksRise }
    ensures answered { OpenWalksRise }
{}

/// Whatever is known, a walk from one place writes to the same instances.
pub fn targets_depend_on_the_place()
    ensures { TargetsStand }
{}

/// Verdicts on writes of which more is known are known more, and so is what they settle.
pub fn settling_is_monotone()
    ensures verdicts { VerdictsRise }
    ensures now { SettledRises }
    ensures later { SettledLaterRises }
{}

/// Rounds never fall, they come to an end, and they come to one environment.
pub fn rounds_come_to_an_end()
    ensures rise { RoundsRise }
    ensures end { RoundsEnd }
    ensures stay { RoundsStay }
    ensures one { OneLeast }
{}

/// Where there are no calls both accounts of a walk agree: residuals with stores, and deeds with spots.
pub fn the_two_accounts_agree()
    ensures { TheAccountsAgree }
{}

/// In a whole program each instance is met once, and no input is met.
pub fn instances_are_met_once()
    ensures programs { InstancesAreMetOnce }
    ensures modules { ModulesHaveNumbers }
{}

/// A definite least environment is the only solution, wherever instances are met. Every solution lies
/// above the least environment, definite or not, so where that has a clash there is none.
pub fn the_least_is_the_only_solution()
    ensures above { SolutionsAbove }
    ensures unclashed { SolvedNeverClash }
    ensures agree { SolutionsAreLeast }
    ensures solves { LeastSolves }
{}

/// A definite configuration with inputs has exactly one macro step, and a step leads to a configuration
/// of the program.
pub fn definite_steps_are_one()
    ensures steps { DefiniteStepsOnce }
    ensures lead { StepsLeadToConfigurations }
{}

/// The bits of a place where control can rest say that it rests there, and where none is set it rests nowhere.
pub fn places_have_their_bits()
    ensures { PlacesHaveTheirBits }
{}

/// Every scope that stands in the next place was met, and its stores come from the instances that were.
pub fn scopes_in_the_next_place_were_met()
    ensures { ScopesWereMet }
{}

/// Where all that it passes is definite there is exactly one run.
pub fn definite_runs_are_one()
    ensures { DefiniteRunsOnce }
{}

/// Where every permitted valuation is definite, steps lead to permitted ones and there is exactly one run.
pub fn checked_programs_run_once()
    ensures valuations { PermittedAreValuations }
    ensures stays { PermittedStays }
    ensures runs { CheckedRunsOnce }
{}
