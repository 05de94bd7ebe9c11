//! Where a check stands between two lines of a report, with what the following lines must agree with.

ghost use Rattle.std.specs.Prelude.{◌≡◌, ◌<◌, ◌^◌, length};
ghost use Rattle.requirements.specs.Bounds.{HasTimes};
ghost use Rattle.right_report.specs.Right.ReportState.{behind_bound, behind_finding, behind_past, behind_verdict, bounded, which_of};
ghost use Rattle.drawn_networks.specs.Drawn.{Drawn};
ghost use Rattle.job_check.specs.Step.Stages.{AreBounded, Fits, IsNextBound, IsCurrentRow, at_of, next_in, current_in};

use drawn_networks::Row;
use itv_base::{Range, RowKind};
use requirements::{BothBounds, Bound, Consistency, Verdict};
use right_report::{ReportTally, is_fail};
use slack_report::{EndWord, Which};

/// Which bound of a row comes next: the greatest, or the least after the greatest.
#[derive(Clone, Copy)]
pub enum NextBound {
    Greatest,
    LeastBy(Bound),
}

/// The row at which a report stands, with its number from 0, and the tally of what came before.
#[derive(Clone, Copy)]
pub struct CurrentRow {
    pub tally: ReportTally,
    pub number: u64,
    pub row: Row,
}

/// Where a check stands: before the line that the stage is named for. Proof lines are taken together with the finding
/// or the bound after them, so that no stage stands among them.
#[derive(Clone, Copy)]
pub enum Stage<'a> {
    Heading,
    Budget,
    Events,
    /// Before the event with this number, from 0. After all events: before the finding.
    Event(u32),
    /// Before the times of a consistent finding.
    Known,
    Rows(Consistency),
    /// Before the row with this number, from 0. After all rows: before the end.
    Row {
        tally: ReportTally,
        number: u64,
    },
    Bound {
        current: CurrentRow,
        coming: NextBound,
    },
    /// Before the times of a bound.
    Times {
        current: CurrentRow,
        coming: NextBound,
        value: Bound,
    },
    /// Before the set of events that can be raised from these times.
    Raise {
        current: CurrentRow,
        coming: NextBound,
        times: &'a [i64],
    },
    Verdict {
        current: CurrentRow,
        range: Range,
        both: BothBounds,
    },
    /// Before the times that break a requirement.
    Past {
        current: CurrentRow,
        range: Range,
        both: BothBounds,
    },
    /// Before the slack of a row. The row with this number comes after it.
    Slack {
        tally: ReportTally,
        number: u64,
        range: Range,
        both: BothBounds,
    },
    End(EndWord),
    /// After the last line.
    Done,
}

impl NextBound {
    /// Which bound comes next.
    pub fn which(self) -> Which
        ensures which { result ≡ which_of (next_in self) }
    {
        match self {
            NextBound::Greatest => Which::Max,
            NextBound::LeastBy(_) => Which::Min,
        }
    }
}

/// The stage after a finding.
pub fn behind_finding(word: Consistency) -> Stage<'static>
    ensures stage { (drawn : Drawn) → at_of drawn result ≡ behind_finding word }
    ensures fits { (drawn : Drawn) → Fits drawn result }
{
    match word {
        Consistency::Consistent => Stage::Known,
        Consistency::Inconsistent => Stage::End(EndWord::Inconsistent),
        Consistency::Open => Stage::Rows(Consistency::Open),
    }
}

// The stage after both bounds of a row.
fn behind_both(current: &CurrentRow, both: &BothBounds) -> Stage<'static>
    requires number { current.now.number < 2 ^ 32 }
    ensures stage { (drawn : Drawn) → at_of drawn result ≡ bounded (current_in drawn current.now) (next_in (NextBound.LeastBy both.now.greatest)) both.now.least }
    ensures fits { (drawn : Drawn) → IsCurrentRow drawn current.now → AreBounded both.now → Fits drawn result }
{
    match &current.row.kind {
        RowKind::Ask => Stage::Row {
            tally: current.tally.with_bounds(both),
            number: current.number + 1,
        },
        RowKind::Req(range) => Stage::Verdict {
            current: *current,
            range: *range,
            both: *both,
        },
    }
}

/// The stage after a bound and its lines.
pub fn bounded(current: &CurrentRow, coming: NextBound, value: Bound) -> Stage<'static>
    requires number { current.now.number < 2 ^ 32 }
    ensures stage { (drawn : Drawn) → at_of drawn result ≡ bounded (current_in drawn current.now) (next_in coming) value }
    ensures fits { (drawn : Drawn) → IsCurrentRow drawn current.now → IsNextBound coming → HasTimes value → Fits drawn result }
{
    match coming {
        NextBound::Greatest => Stage::Bound {
            current: *current,
            coming: NextBound::LeastBy(value),
        },
        NextBound::LeastBy(greatest) => behind_both(
            current,
            &BothBounds {
                least: value,
                greatest,
            },
        ),
    }
}

/// The stage after the line of a bound.
pub fn behind_bound(current: &CurrentRow, coming: NextBound, value: Bound) -> Stage<'static>
    requires number { current.now.number < 2 ^ 32 }
    ensures stage { (drawn : Drawn) → at_of drawn result ≡ behind_bound (current_in drawn current.now) (next_in coming) value }
    ensures fits { (drawn : Drawn) → IsCurrentRow drawn current.now → IsNextBound coming → HasTimes value → Fits drawn result }
{
    match value {
        Bound::Within { attained: None, .. } => bounded(current, coming, value),
        _ => Stage::Times {
            current: *current,
            coming,
            value,
        },
    }
}

/// The stage after a verdict and the times that break the requirement.
pub fn behind_past(
    current: &CurrentRow,
    range: Range,
    both: &BothBounds,
    word: Verdict,
) -> Stage<'static>
    requires number { current.now.number < 2 ^ 32 }
    ensures stage { (drawn : Drawn) → at_of drawn result ≡ behind_past (current_in drawn current.now) range both.now.least both.now.greatest word }
    ensures fits { (drawn : Drawn) → IsCurrentRow drawn current.now → AreBounded both.now → Fits drawn result }
{
    Stage::Slack {
        tally: current.tally.with_bounds(both).with_verdict(word),
        number: current.number + 1,
        range,
        both: *both,
    }
}

/// The stage after a verdict.
pub fn behind_verdict(
    current: &CurrentRow,
    range: Range,
    both: &BothBounds,
    word: Verdict,
) -> Stage<'static>
    requires number { current.now.number < 2 ^ 32 }
    ensures stage { (drawn : Drawn) → at_of drawn result ≡ behind_verdict (current_in drawn current.now) range both.now.least both.now.greatest word }
    ensures fits { (drawn : Drawn) → IsCurrentRow drawn current.now → AreBounded both.now → Fits drawn result }
{
    if is_fail(word) {
        return Stage::Past {
            current: *current,
            range,
            both: *both,
        };
    }
    behind_past(current, range, both, word)
}
