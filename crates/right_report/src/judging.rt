//! What a bound and a verdict mean for the end of a report.

ghost use Rattle.std.specs.Prelude.{◌≡◌};
ghost use Rattle.right_report.specs.Right.ReportState.{is_fail, is_within};

use requirements::{Bound, Verdict};

/// Whether a bound was left open.
pub fn is_within(bound: Bound) -> bool
    ensures { result ≡ is_within bound }
{
    match bound {
        Bound::Closed(_) | Bound::Unbounded => false,
        Bound::Within { .. } => true,
    }
}

/// Whether a verdict says that a requirement is broken.
pub fn is_fail(word: Verdict) -> bool
    ensures { result ≡ is_fail word }
{
    match word {
        Verdict::FailHigh | Verdict::FailLow => true,
        Verdict::Pass | Verdict::Undecided => false,
    }
}
