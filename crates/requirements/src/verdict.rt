//! The verdict on a requirement.

ghost use Rattle.std.specs.Prelude.{◌≡◌};
ghost use Rattle.requirements.specs.Verdicts.{breaks_high, breaks_low, meets_high, meets_low, verdict_of};

use crate::bound::{BothBounds, Bound};
use itv_base::Range;

/// The verdict on a requirement.
#[derive(Clone, Copy, PartialEq, Eq)]
pub enum Verdict {
    /// Every satisfying separation lies in the range.
    Pass,
    /// A satisfying separation is past the high end.
    FailHigh,
    /// A satisfying separation is past the low end.
    FailLow,
    /// The bounds do not decide it.
    Undecided,
}

// Whether a satisfying separation is known to be past the high end, according to the greatest bound.
fn breaks_high(high: Option<i64>, greatest: Bound) -> bool
    ensures { result ≡ breaks_high high greatest }
{
    let Some(high) = high else {
        return false;
    };
    match greatest {
        Bound::Closed(value) => high < value,
        Bound::Unbounded => true,
        Bound::Within { attained, .. } => attained.is_some_and(|found| high < found),
    }
}

// Whether no satisfying separation is past the high end, according to the greatest bound.
fn meets_high(high: Option<i64>, greatest: Bound) -> bool
    ensures { result ≡ meets_high high greatest }
{
    let Some(high) = high else {
        return true;
    };
    match greatest {
        Bound::Closed(value) => value <= high,
        Bound::Unbounded => false,
        Bound::Within { limit, .. } => limit.is_some_and(|most| most <= high),
    }
}

// Whether a satisfying separation is known to be past the low end, according to the least bound.
fn breaks_low(low: Option<i64>, least: Bound) -> bool
    ensures { result ≡ breaks_low low least }
{
    let Some(low) = low else {
        return false;
    };
    match least {
        Bound::Closed(value) => value < low,
        Bound::Unbounded => true,
        Bound::Within { attained, .. } => attained.is_some_and(|found| found < low),
    }
}

// Whether no satisfying separation is past the low end, according to the least bound.
fn meets_low(low: Option<i64>, least: Bound) -> bool
    ensures { result ≡ meets_low low least }
{
    let Some(low) = low else {
        return true;
    };
    match least {
        Bound::Closed(value) => low <= value,
        Bound::Unbounded => false,
        Bound::Within { limit, .. } => limit.is_some_and(|fewest| low <= fewest),
    }
}

/// The verdict on a requirement on the separation of a pair, according to its range and the two bounds of the pair. An open end demands
/// nothing. A broken side decides before a fine one, and the high side before the low one.
pub fn judge(range: Range, both: &BothBounds) -> Verdict
    ensures { result ≡ verdict_of range both.now.least both.now.greatest }
{
    if breaks_high(range.high(), both.greatest) {
        return Verdict::FailHigh;
    }
    if breaks_low(range.low(), both.least) {
        return Verdict::FailLow;
    }
    if meets_high(range.high(), both.greatest) && meets_low(range.low(), both.least) {
        return Verdict::Pass;
    }
    Verdict::Undecided
}
