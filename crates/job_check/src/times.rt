//! Whether a report may have some times or a set of events.

ghost use Rattle.std.specs.Prelude.{◌≡◌, ◌<◌, ◌↔◌, IsTrue, All, length};
ghost use Rattle.event_graph.specs.Satisfying.{Satisfies};
ghost use Rattle.event_graph.specs.Times.{IsTime};
ghost use Rattle.drawn_networks.specs.Drawn.{AreTimes};
ghost use Rattle.right_report.specs.Right.LineClaims.{Attains, BreaksEnd, CanRise};
ghost use Rattle.right_report.specs.Checked.{checked};
ghost use Rattle.job_check.specs.Step.Stages.{next_in};

use crate::stage::NextBound;
use cert_checker::check_ray;
use drawn_networks::Row;
use event_graph::{Network, separation, time_of};
use itv_base::{EventId, Range};
use requirements::{Bound, Verdict};

/// Whether a number of picoseconds is below 2^61 in absolute value.
pub fn is_time(time: i64) -> bool
    ensures time { IsTrue result ↔ IsTime time }
{
    -(1 << 61) < time && time < 1 << 61
}

fn are_within(times: &[i64]) -> bool
    ensures times { IsTrue result ↔ All IsTime times.now }
{
    times.iter().all(|time| is_time(*time))
}

// Whether times are below 2^61 in absolute value and satisfy the network.
fn satisfy(net: &Network, times: &[i64]) -> bool
    ensures satisfied { IsTrue result ↔ (All IsTime times.now × Satisfies times.now net.now) }
{
    times.len() == net.events() as usize && are_within(times) && net.broken(times).is_none()
}

/// Whether times satisfy the network and event 0 is at 0, as the times after a consistent finding must.
pub fn are_known(net: &Network, times: &[i64]) -> bool
    ensures known { IsTrue result ↔ (checked net.now).known times.now }
{
    satisfy(net, times) && time_of(times, EventId(0)) == 0
}

/// Whether times satisfy the network and the from-event of a row is at 0.
pub fn are_times(net: &Network, row: &Row, times: &[i64]) -> bool
    ensures times { IsTrue result ↔ (All IsTime times.now × AreTimes net.now row.now times.now) }
{
    satisfy(net, times) && time_of(times, row.from) == 0
}

/// Whether times have the separation that a bound of a row gives.
pub fn attains(row: &Row, value: Bound, times: &[i64]) -> bool
    requires times { All IsTime times.now }
    ensures attains { IsTrue result ↔ Attains row.now value times.now }
{
    let reached = separation(times, row.from, row.to);
    match value {
        Bound::Closed(value) => reached == value,
        Bound::Unbounded => true,
        Bound::Within { attained, .. } => attained.is_none_or(|value| reached == value),
    }
}

/// Whether times break the end of a range that a verdict names.
pub fn breaks(row: &Row, range: Range, word: Verdict, times: &[i64]) -> bool
    requires times { All IsTime times.now }
    ensures breaks { IsTrue result ↔ BreaksEnd row.now range word times.now }
{
    let reached = separation(times, row.from, row.to);
    match word {
        Verdict::FailHigh => range.high().is_some_and(|high| high < reached),
        Verdict::FailLow => range.low().is_some_and(|low| reached < low),
        Verdict::Pass | Verdict::Undecided => false,
    }
}

/// Whether a set of events can be raised from times without end, and a bound of a row with it. For the greatest bound the
/// set holds the to-event and not the from-event, and for the least bound the from-event and not the to-event.
pub fn can_rise(net: &Network, row: &Row, coming: NextBound, times: &[i64], set: &[bool]) -> bool
    requires times { All IsTime times.now }
    requires count { length times.now ≡ net.now.events }
    requires from { row.now.from.0 < net.now.events }
    requires to { row.now.to.0 < net.now.events }
    ensures rise { IsTrue result ↔ CanRise net.now row.now (next_in coming) times.now set.now }
{
    if set.len() != net.events() as usize {
        return false;
    }
    match coming {
        NextBound::Greatest => check_ray(net, times, set, row.from, row.to),
        NextBound::LeastBy(_) => check_ray(net, times, set, row.to, row.from),
    }
}
