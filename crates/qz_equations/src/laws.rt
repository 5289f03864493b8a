//! The law of runs.

ghost use Rattle.qz_equations.specs.Runs.{RunsAsSystem};

/// A module that does a system has, over the rows of inputs of steps from the initial valuation, the
/// outputs of those steps row by row. A call does nothing: its clause holds of all modules.
pub fn a_module_runs_as_its_system()
    ensures { RunsAsSystem }
{}
