//! What decides the word at the end of a report.

ghost use Rattle.std.specs.Prelude.{◌≡◌};
ghost use Rattle.right_report.specs.Right.ReportState.{tally_of, end_word, with_bounds, with_verdict};
ghost use Rattle.right_report.specs.RowTally.{with_row};

use crate::judging::{is_fail, is_within};
use itv_base::RowKind;
use requirements::{BothBounds, Consistency, Verdict, judge};
use slack_report::EndWord;

/// What decides the word at the end: the finding, whether some verdict was a fail, and whether some bound was left
/// open.
#[derive(Clone, Copy)]
pub struct ReportTally {
    pub found: Consistency,
    pub fails: bool,
    pub within: bool,
}

impl ReportTally {
    /// The tally after a finding, before the first row.
    pub fn new(found: Consistency) -> ReportTally
        ensures tally { result ≡ tally_of found }
    {
        ReportTally {
            found,
            fails: false,
            within: false,
        }
    }

    /// The tally with both bounds of one more row.
    pub fn with_bounds(self, both: &BothBounds) -> ReportTally
        ensures tally { result ≡ with_bounds self both.now.least both.now.greatest }
    {
        let within = self.within || is_within(both.least) || is_within(both.greatest);
        ReportTally { within, ..self }
    }

    /// The tally with one more verdict.
    pub fn with_verdict(self, word: Verdict) -> ReportTally
        ensures tally { result ≡ with_verdict self word }
    {
        ReportTally {
            fails: self.fails || is_fail(word),
            ..self
        }
    }

    /// The tally with one more row of this kind with these bounds. A requirement has a verdict according to its bounds,
    /// and an ask has none.
    pub fn with_row(self, kind: RowKind, both: &BothBounds) -> ReportTally
        ensures tally { result ≡ with_row self kind both.now }
    {
        let tally = self.with_bounds(both);
        match kind {
            RowKind::Ask => tally,
            RowKind::Req(range) => tally.with_verdict(judge(range, both)),
        }
    }

    /// The word at the end.
    pub fn end_word(self) -> EndWord
        ensures word { result ≡ end_word self }
    {
        if self.fails {
            return EndWord::Fail;
        }
        match self.found {
            Consistency::Consistent if self.within => EndWord::Undecided,
            Consistency::Consistent => EndWord::Pass,
            Consistency::Inconsistent => EndWord::Inconsistent,
            Consistency::Open => EndWord::Undecided,
        }
    }
}
