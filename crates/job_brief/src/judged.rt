//! The judgement of a row.

ghost use Rattle.std.specs.Prelude.{◌≡◌};
ghost use Rattle.explanations.specs.Answers.{HasRowTimes};
ghost use Rattle.job_brief.specs.Rows.{misses_high, misses_low};
ghost use Rattle.job_brief.specs.Step.{judged_in};

use explanations::RowFound;
use itv_base::RowKind;
use job_why::both_of;
use requirements::{Bound, Slack, Verdict, judge, slack};

/// The verdict on a requirement, its slacks in picoseconds, and whether a side is missed and no number says by how much.
#[derive(Clone, Copy)]
pub struct Judged {
    pub word: Verdict,
    pub slack: Slack,
    pub misses: bool,
}

/// The judgement of a row, given what is found of it. An ask has none.
pub fn judged_of(kind: RowKind, found: &RowFound) -> Option<Judged>
    requires times { HasRowTimes found.now }
    ensures judged { result ≡ judged_in kind found.now }
{
    let RowKind::Req(range) = kind else {
        return None;
    };
    let both = both_of(found);
    Some(Judged {
        word: judge(range, &both),
        slack: slack(range, &both),
        misses: misses_high(range.high(), both.greatest) || misses_low(range.low(), both.least),
    })
}

// Whether the high end is missed, and no number says by how much.
fn misses_high(high: Option<i64>, greatest: Bound) -> bool
    ensures { result ≡ misses_high high greatest }
{
    let Some(high) = high else {
        return false;
    };
    match greatest {
        Bound::Closed(_) => false,
        Bound::Unbounded => true,
        Bound::Within { attained, .. } => attained.is_some_and(|found| high < found),
    }
}

// Whether the low end is missed, and no number says by how much.
fn misses_low(low: Option<i64>, least: Bound) -> bool
    ensures { result ≡ misses_low low least }
{
    let Some(low) = low else {
        return false;
    };
    match least {
        Bound::Closed(_) => false,
        Bound::Unbounded => true,
        Bound::Within { attained, .. } => attained.is_some_and(|found| found < low),
    }
}
