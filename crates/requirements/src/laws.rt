//! Laws of verdicts. The functions do nothing; what they ensure holds of all networks.

ghost use Rattle.requirements.specs.Laws.{ClosedHighHasSlack, ClosedLowHasSlack, FailHighIsBroken, FailLowIsBroken, HighSlackIsDistance, LowSlackIsDistance, PassIsMet, ReversedGreatestIsLeast, UndecidedIsWithin};

/// If a requirement passes according to right bounds, it is met: every satisfying separation lies in its range.
pub fn pass_is_met()
    ensures { PassIsMet }
{}

/// If a requirement fails on the high side according to right bounds, a satisfying separation is past its high end.
pub fn fail_high_is_broken()
    ensures { FailHighIsBroken }
{}

/// If a requirement fails on the low side according to right bounds, a satisfying separation is past its low end.
pub fn fail_low_is_broken()
    ensures { FailLowIsBroken }
{}

/// A verdict is undecided only if the search left one of the two bounds open.
pub fn undecided_is_within()
    ensures { UndecidedIsWithin }
{}

/// A slack from a right bound says how far the nearest satisfying separation is inside an end. The sum of the low end and the low
/// slack is the least satisfying separation. The high end less the high slack is the greatest one.
pub fn slack_is_distance()
    ensures low { LowSlackIsDistance }
    ensures high { HighSlackIsDistance }
{}

/// An end that is not open has a slack if its bound is closed.
pub fn closed_has_slack()
    ensures low { ClosedLowHasSlack }
    ensures high { ClosedHighHasSlack }
{}

/// A bound is the greatest of a pair if and only if, with its numbers negated, it is the least of the reversed pair.
pub fn reversed_greatest_is_least()
    ensures { ReversedGreatestIsLeast }
{}
