//! The slacks of a requirement.

ghost use Rattle.std.specs.Prelude.{◌≡◌, ◌-ℤ◌};
ghost use Rattle.itv_base.specs.Range.{IsEnd};
ghost use Rattle.event_graph.specs.Times.{IsTime};
ghost use Rattle.requirements.specs.Bounds.{HasTimes};
ghost use Rattle.requirements.specs.Slacks.{high_slack, low_slack, slack_of};

use crate::bound::{BothBounds, Bound, Slack};
use itv_base::Range;

// How far a number is above an end.
fn above(end: i64, value: i64) -> i64
    requires end { IsEnd (Some end) }
    requires value { IsTime value }
    ensures { result ≡ value -ℤ end }
{
    value - end
}

// How far a number is below an end.
fn below(end: i64, value: i64) -> i64
    requires end { IsEnd (Some end) }
    requires value { IsTime value }
    ensures { result ≡ end -ℤ value }
{
    end - value
}

fn low_slack(low: Option<i64>, least: Bound) -> Option<i64>
    requires end { IsEnd low }
    requires times { HasTimes least }
    ensures { result ≡ low_slack low least }
{
    match (low, least) {
        (Some(low), Bound::Closed(value)) => Some(above(low, value)),
        _ => None,
    }
}

fn high_slack(high: Option<i64>, greatest: Bound) -> Option<i64>
    requires end { IsEnd high }
    requires times { HasTimes greatest }
    ensures { result ≡ high_slack high greatest }
{
    match (high, greatest) {
        (Some(high), Bound::Closed(value)) => Some(below(high, value)),
        _ => None,
    }
}

/// The slacks of a requirement on the separation of a pair, from its range and the two bounds of the pair: the least separation less
/// the low end, and the high end less the greatest separation. The numbers of the bounds are below 2^61 in absolute value.
pub fn slack(range: Range, both: &BothBounds) -> Slack
    requires least { HasTimes both.now.least }
    requires greatest { HasTimes both.now.greatest }
    ensures { result ≡ slack_of range both.now.least both.now.greatest }
{
    Slack {
        low: low_slack(range.low(), both.least),
        high: high_slack(range.high(), both.greatest),
    }
}
