//! What is found of a bound.

ghost use Rattle.std.specs.Prelude.{◌≡◌};
ghost use Rattle.job_settle.specs.Answers.{bound_of};

use crate::proof::Proof;
use requirements::{BothBounds, Bound};

/// What is found of a bound of a row. The times are in picoseconds, one per event; they satisfy the network, with the from-event at 0.
#[derive(Drop)]
pub enum SettledBound {
    /// The bound in picoseconds, times that attain it, and its proof.
    Closed(i64, Vec<i64>, Proof),
    /// There is no bound: times, and for each event whether it can be raised from them without end.
    Unbounded(Vec<i64>, Vec<bool>),
    /// The turns were spent before the bound was known.
    Open,
}

/// The bound as it is printed, and as verdicts and slacks use it; of a spent bound nothing is known.
pub fn bound_of(found: &SettledBound) -> Bound
    ensures bound { result ≡ bound_of found.now }
{
    match found {
        SettledBound::Closed(value, _, _) => Bound::Closed(*value),
        SettledBound::Unbounded(_, _) => Bound::Unbounded,
        SettledBound::Open => Bound::Within {
            limit: None,
            attained: None,
        },
    }
}

/// Both bounds of a row, as verdicts and slacks use them.
pub fn both_of(least: &SettledBound, greatest: &SettledBound) -> BothBounds
    ensures least { result.least ≡ bound_of least.now }
    ensures greatest { result.greatest ≡ bound_of greatest.now }
    ensures both { result ≡ record { least = bound_of least.now; greatest = bound_of greatest.now } }
{
    BothBounds {
        least: bound_of(least),
        greatest: bound_of(greatest),
    }
}
