//! Laws of the texts of the job. The functions do nothing. Their clauses hold of all drawn networks.

ghost use Rattle.job_fall.specs.Laws.{InconsistentHasNoTimes, UndecidedHasFewTurns};

/// An answer is undecided only if there are fewer turns than are enough.
pub fn undecided_has_few_turns()
    ensures law { UndecidedHasFewTurns }
{}

/// An answer is inconsistent only if no times satisfy the network.
pub fn inconsistent_has_no_times()
    ensures law { InconsistentHasNoTimes }
{}
