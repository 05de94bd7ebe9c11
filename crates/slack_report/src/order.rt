//! The order of the lines: the place after a line that stands at a place.

ghost use Rattle.std.specs.Prelude.{◌≡◌, ◌+◌, ◌^◌, ◌<◌};
ghost use Rattle.slack_report.specs.Order.{after_bound, after_finding, after_row, after_times, after_verdict, before_event, before_row, in_bound, in_row};
ghost use Rattle.slack_report.specs.Step.Within.{IsSpot, IsPlaceWithin};

use crate::place::{Place, Spot};
use crate::words::Which;
use itv_base::RowKind;
use requirements::{Bound, Consistency, Verdict};

/// The place before the event with this number, or before the finding if no events are left. `left` counts this event
/// and the events after it.
pub fn before_event(events: u32, number: u32, left: u32) -> Place
    requires { number + left < 2 ^ 32 }
    ensures is { result ≡ before_event events number left }
    ensures within { IsPlaceWithin result }
{
    if left == 0 {
        return Place::Finding { events };
    }
    Place::Event {
        events,
        number,
        more: left - 1,
    }
}

/// The place before the row with this number, or before the end if no rows are left. `left` counts this row and the
/// rows after it.
pub fn before_row(events: u32, number: u32, left: u32) -> Place
    requires { number + left < 2 ^ 32 }
    ensures is { result ≡ before_row events number left }
    ensures within { IsPlaceWithin result }
{
    if left == 0 {
        return Place::End;
    }
    Place::Row {
        events,
        number,
        more: left - 1,
    }
}

/// The place after the first line of a row. `more` rows come after it.
pub fn in_row(events: u32, number: u32, more: u32, kind: &RowKind) -> Place
    requires { number + more + 1 < 2 ^ 32 }
    ensures is { result ≡ in_row events number more kind.now }
    ensures within { IsPlaceWithin result }
{
    let is_required = match kind {
        RowKind::Ask => false,
        RowKind::Req(_) => true,
    };
    let spot = Spot {
        events,
        next: number + 1,
        left: more,
        is_required,
    };
    Place::Bound {
        spot,
        which: Which::Max,
    }
}

/// The place after a finding.
pub fn after_finding(events: u32, word: Consistency) -> Place
    ensures is { result ≡ after_finding events word }
    ensures within { IsPlaceWithin result }
{
    match word {
        Consistency::Consistent => Place::FoundTimes { events },
        Consistency::Inconsistent => Place::End,
        Consistency::Open => Place::Rows { events },
    }
}

/// The place after a row.
pub fn after_row(spot: Spot) -> Place
    requires { IsSpot spot }
    ensures is { result ≡ after_row spot }
    ensures within { IsPlaceWithin result }
{
    before_row(spot.events, spot.next, spot.left)
}

/// The place after a bound and all its lines: before the other bound, the verdict or the next row.
pub fn after_bound(spot: Spot, which: Which) -> Place
    requires { IsSpot spot }
    ensures is { result ≡ after_bound spot which }
    ensures within { IsPlaceWithin result }
{
    match which {
        Which::Max => Place::Bound {
            spot,
            which: Which::Min,
        },
        Which::Min if spot.is_required => Place::Verdict { spot },
        Which::Min => after_row(spot),
    }
}

/// The place after the line of a bound.
pub fn in_bound(spot: Spot, which: Which, value: Bound) -> Place
    requires { IsSpot spot }
    ensures is { result ≡ in_bound spot which value }
    ensures within { IsPlaceWithin result }
{
    match value {
        Bound::Closed(_) => Place::Times {
            spot,
            which,
            raises: false,
        },
        Bound::Unbounded => Place::Times {
            spot,
            which,
            raises: true,
        },
        Bound::Within { attained: None, .. } => after_bound(spot, which),
        Bound::Within {
            attained: Some(_),
            ..
        } => Place::Times {
            spot,
            which,
            raises: false,
        },
    }
}

/// The place after the times of a bound.
pub fn after_times(spot: Spot, which: Which, raises: bool) -> Place
    requires { IsSpot spot }
    ensures is { result ≡ after_times spot which raises }
    ensures within { IsPlaceWithin result }
{
    if raises {
        return Place::Raise { spot, which };
    }
    after_bound(spot, which)
}

/// The place after a verdict.
pub fn after_verdict(spot: Spot, word: Verdict) -> Place
    requires { IsSpot spot }
    ensures is { result ≡ after_verdict spot word }
    ensures within { IsPlaceWithin result }
{
    match word {
        Verdict::Pass | Verdict::Undecided => Place::Slack { spot },
        Verdict::FailHigh | Verdict::FailLow => Place::FailTimes { spot },
    }
}
