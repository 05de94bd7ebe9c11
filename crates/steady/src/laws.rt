//! What follows from what is found of a run. The functions do nothing; each law is the contract of one.

ghost use Rattle.steady.specs.Laws.{SteadyBoundIsAlways, SteadyRuns, VerdictIsRight};

/// If steady times have the bound of all runs, it is the bound in each cycle of each run.
pub fn steady_bound_is_always()
    ensures law { SteadyBoundIsAlways }
{}

/// If steady times are found, every number of cycles has times.
pub fn steady_runs()
    ensures law { SteadyRuns }
{}

/// The verdict of the bounds of a row is right in every cycle of every run.
pub fn verdict_is_right()
    ensures law { VerdictIsRight }
{}
