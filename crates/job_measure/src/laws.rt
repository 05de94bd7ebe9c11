//! Laws of job measure. Each is the contract of a function that does nothing.

ghost use Rattle.job_measure.specs.Laws.{KeptRulesHold, TalliesAreCounts};

/// A run keeps a constraint whose events it shows up to a tolerance if and only if the constraint holds at the times of the run when each of
/// its ends is moved outward by the tolerance; and so for ends that are moved inward.
pub fn kept_rules_hold()
    ensures law { KeptRulesHold }
{}

/// The counts of a tally count the runs, its first run is the least that breaks the rule, and each of its numbers is attained in the run
/// that it names and exceeded in none.
pub fn tallies_are_counts()
    ensures law { TalliesAreCounts }
{}
