//! Laws of right reports. The functions do nothing; what they ensure holds of all networks and all reports.

ghost use Rattle.right_report.specs.Right.Order.{RightLinesKeepOrder};
ghost use Rattle.right_report.specs.Laws.{AcceptedTextIsNotRefused, AcceptedTextIsRight, BareIsRight, BareUndecidedIsBelow, CheckedHasNoWrong, CheckedIsRight, ConsistentIsSo, FailEndIsSo, ReportFailHighIsBroken, ReportFailLowIsBroken, GreatestIsRight, InconsistentEndIsSo, InconsistentIsSo, LeastIsRight, OneFirstWrong, OneRefusedLine, PassEndIsSo, ReportPassIsMet, RightIsReport, SetShowsAbove, SetShowsBelow, ShownIsRight, ShownUndecidedIsBelow, UnboundedAbove, UnboundedBelow, UnrefusedTextIsRight};

/// A report that shows its numbers, by lines of proofs before them, is right.
pub fn shown_is_right()
    ensures { ShownIsRight }
{}

/// A report without the lines that show its numbers is right, if there are such lines.
pub fn bare_is_right()
    ensures { BareIsRight }
{}

/// A report in which each line meets the check is right, whoever wrote it. No search is trusted.
pub fn checked_is_right()
    ensures { CheckedIsRight }
{}

/// A report has at most one first wrong line.
pub fn one_first_wrong()
    ensures { OneFirstWrong }
{}

/// A report in which each line meets the check has no wrong line: it is not both accepted and refused.
pub fn checked_has_no_wrong()
    ensures { CheckedHasNoWrong }
{}

/// If a right report finds a network inconsistent, no times satisfy the network.
pub fn inconsistent_is_so()
    ensures { InconsistentIsSo }
{}

/// If a right report finds a network consistent, some times satisfy the network.
pub fn consistent_is_so()
    ensures { ConsistentIsSo }
{}

/// A greatest bound in a right report is right for the pair of its row. If it is a number, some satisfying separation attains it
/// and none exceeds it. If it is unbounded, satisfying separations exceed every number.
pub fn greatest_is_right()
    ensures { GreatestIsRight }
{}

/// A least bound in a right report is right for the pair of its row.
pub fn least_is_right()
    ensures { LeastIsRight }
{}

/// If a right report says that a greatest bound is unbounded, satisfying separations of the pair exceed every number. If it says so
/// of a least bound, satisfying separations of the reversed pair do.
pub fn unbounded_is_so()
    ensures above { UnboundedAbove }
    ensures below { UnboundedBelow }
{}

/// A set of events after a bound shows the same, even if the lines only begin a right report.
pub fn set_shows_unbounded()
    ensures above { SetShowsAbove }
    ensures below { SetShowsBelow }
{}

/// If a right report says `pass`, every satisfying separation lies in the range of the row.
pub fn report_pass_is_met()
    ensures { ReportPassIsMet }
{}

/// If a right report says `fail high`, some satisfying separation is past the high end of the row.
pub fn report_fail_high_is_broken()
    ensures { ReportFailHighIsBroken }
{}

/// If a right report says `fail low`, some satisfying separation is past the low end of the row.
pub fn report_fail_low_is_broken()
    ensures { ReportFailLowIsBroken }
{}

/// If a right report ends with `pass`, some times satisfy the network, and all satisfying times meet every requirement.
pub fn pass_end_is_so()
    ensures { PassEndIsSo }
{}

/// If a right report ends with `fail`, some satisfying times break a requirement.
pub fn fail_end_is_so()
    ensures { FailEndIsSo }
{}

/// If a right report ends with `inconsistent`, no times satisfy the network.
pub fn inconsistent_end_is_so()
    ensures { InconsistentEndIsSo }
{}

/// A report that shows its numbers ends with `undecided` only if its budget is less than the number of cause choices. The same
/// holds of a report without the lines that show them, if there are such lines.
pub fn undecided_is_below_choices()
    ensures shown { ShownUndecidedIsBelow }
    ensures bare { BareUndecidedIsBelow }
{}

/// If the numbers and names of a right report have texts, it is a report, and its text is the text of a report.
pub fn right_is_report()
    ensures { RightIsReport }
{}

/// A text that the check accepts is the text of a right report, whoever wrote it.
pub fn accepted_text_is_right()
    ensures { AcceptedTextIsRight }
{}

/// The check refuses a text at one line at most.
pub fn one_refused_line()
    ensures { OneRefusedLine }
{}

/// The check does not both accept and refuse a text.
pub fn accepted_text_is_not_refused()
    ensures { AcceptedTextIsNotRefused }
{}

/// A text without a wrong line can't fail to be the text of a right report.
pub fn unrefused_text_is_right()
    ensures { UnrefusedTextIsRight }
{}

/// A line that may follow in a right report may stand at the same place in the order of texts, and leads to the same place.
pub fn right_lines_keep_order()
    ensures { RightLinesKeepOrder }
{}
