//! Counts of verdicts, and what decides the word at the end.

ghost use Rattle.std.specs.Prelude.{◌≡◌, ◌<◌, ◌≤◌, ◌+◌, ◌-◌, ◌^◌, ◌++◌, [], List};
ghost use Rattle.std.specs.Option.{option_to_list};
ghost use Rattle.job_bounds.specs.Step.Ready.{IsTally, tally_after};
ghost use Rattle.requirements.specs.declared.verdict.Verdict.{Verdict as Word};
ghost use Rattle.right_report.specs.Right.ReportState.{tally_of};

use requirements::{BothBounds, Consistency, Verdict};
use right_report::ReportTally;

/// The result of a row: its verdict, if it has one, and both bounds.
#[derive(Clone, Copy)]
pub struct RowEnd {
    pub verdict: Option<Verdict>,
    pub both: BothBounds,
}

/// How many requirements pass, fail and are undecided so far, and what decides the word at the end.
#[derive(Clone, Copy)]
pub struct Tally {
    pub report: ReportTally,
    pub passes: u32,
    pub fails: u32,
    pub undecided: u32,
}

impl Tally {
    /// After a finding, before the first row.
    pub fn start(found: Consistency) -> Tally
        ensures counted { IsTally result [] }
        ensures report { result.report ≡ tally_of found }
        ensures none { result.passes + result.fails + result.undecided ≡ 0 }
    {
        Tally {
            report: ReportTally::new(found),
            passes: 0,
            fails: 0,
            undecided: 0,
        }
    }

    /// Counts one more row.
    pub fn after(self, end: RowEnd) -> Tally
        requires room { self.passes + self.fails + self.undecided < 2 ^ 32 - 1 }
        ensures counted { (words : List Word) → IsTally self words
            → IsTally result (words ++ option_to_list end.verdict) }
        ensures report { result.report ≡ tally_after self.report end }
        ensures most { result.passes + result.fails + result.undecided
            ≤ self.passes + self.fails + self.undecided + 1 }
    {
        let report = report_after(self.report, &end);
        match end.verdict {
            None => Tally { report, ..self },
            Some(Verdict::Pass) => Tally {
                report,
                passes: self.passes + 1,
                ..self
            },
            Some(Verdict::FailHigh | Verdict::FailLow) => Tally {
                report,
                fails: self.fails + 1,
                ..self
            },
            Some(Verdict::Undecided) => Tally {
                report,
                undecided: self.undecided + 1,
                ..self
            },
        }
    }
}

// What decides the word at the end, with one more row.
fn report_after(report: ReportTally, end: &RowEnd) -> ReportTally
    ensures tally { result ≡ tally_after report end.now }
{
    let bounded = report.with_bounds(&end.both);
    match end.verdict {
        None => bounded,
        Some(word) => bounded.with_verdict(word),
    }
}
