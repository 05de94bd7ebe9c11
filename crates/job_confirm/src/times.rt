//! Times, and checks of them.

ghost use Rattle.std.specs.Prelude.{◌≡◌, ◌↔◌, ◌++◌, ℕ, ℤ, List, pos, IsTrue, IfOk, All, length};
ghost use Rattle.event_graph.specs.Limits.{IsPrintedTime};
ghost use Rattle.event_graph.specs.Satisfying.{Satisfies};
ghost use Rattle.event_graph.specs.Times.{separation, time_of};
ghost use Rattle.drawn_networks.specs.Drawn.{IsRowOf};
ghost use Rattle.right_report.specs.Right.LineClaims.{BreaksEnd};
ghost use Rattle.job_settle.specs.Answers.{ArePrintedTimes, CanRise};
ghost use Rattle.slack_report.specs.Entry.{times as entry_times};
ghost use Rattle.slack_report.specs.Text.{entry_text};
ghost use Rattle.job_confirm.specs.Step.{AreShownTimes, Gives};

use crate::check_stop::CheckStop;
use crate::reader::Reader;
use drawn_networks::Row;
use event_graph::{Network, time_of};
use itv_base::{END_LIMIT, EventId, MAX_EVENTS, Range};
use requirements::Verdict;
use slack_report::Which;
use std::alloc::Global;

// The greatest time that is printed, in picoseconds.
const PRINTED_LIMIT: i64 = 12 * END_LIMIT * MAX_EVENTS as i64 + END_LIMIT + 1;

/// The times that stand next. They satisfy a network, and the from-event of a row is at 0.
pub fn row_times_next(
    alloc: Global,
    net: &Network,
    row: &Row,
    reader: &Reader<'_>,
) -> Result<Vec<i64>, CheckStop>
    ensures times { IfOk result (λ times. ArePrintedTimes net.now row.now.from times.items) }
    ensures read { (times : List ℤ) → (more : List ℕ) → ArePrintedTimes net.now row.now.from times → reader.now.rest.now ≡ entry_text (entry_times times) ++ more
        → Gives (λ found. found.items ≡ times) result }
{
    let times = reader.times(alloc)?;
    if !are_row_times(net, row, &times) {
        return Err(reader.refused());
    }
    Ok(times)
}

// Whether times can be printed, satisfy the network, and have the from-event of a row at 0.
fn are_row_times(net: &Network, row: &Row, times: &[i64]) -> bool
    ensures times { IsTrue result ↔ ArePrintedTimes net.now row.now.from times.now }
{
    are_printed(net, times) && time_of(times, row.from) == 0
}

/// Whether times can be printed and satisfy a network.
pub fn are_printed(net: &Network, times: &[i64]) -> bool
    ensures printed { IsTrue result ↔ AreShownTimes net.now times.now }
{
    times.len() == net.events() as usize && are_within(times) && satisfy(net, times)
}

fn are_within(times: &[i64]) -> bool
    ensures within { IsTrue result ↔ All IsPrintedTime times.now }
{
    times.iter().all(|time| is_within(*time))
}

fn is_within(time: i64) -> bool
    ensures within { IsTrue result ↔ IsPrintedTime time }
{
    -PRINTED_LIMIT <= time && time <= PRINTED_LIMIT
}

// Whether times that can be printed satisfy a network.
fn satisfy(net: &Network, times: &[i64]) -> bool
    requires count { length times.now ≡ net.now.events }
    requires printed { All IsPrintedTime times.now }
    ensures satisfied { IsTrue result ↔ Satisfies times.now net.now }
{
    net.broken(times).is_none()
}

/// Whether times of a row have this separation, in picoseconds.
pub fn attain(row: &Row, value: i64, times: &[i64]) -> bool
    requires zero { time_of times.now row.now.from ≡ pos 0 }
    ensures attained { IsTrue result ↔ (separation times.now row.now.from row.now.to ≡ value) }
{
    separation(row, times) == value
}

/// Whether times of a row break the end of a range that a verdict names.
pub fn break_end(row: &Row, range: Range, word: Verdict, times: &[i64]) -> bool
    requires zero { time_of times.now row.now.from ≡ pos 0 }
    ensures breaks { IsTrue result ↔ BreaksEnd row.now range word times.now }
{
    let reached = separation(row, times);
    match word {
        Verdict::FailHigh => range.high().is_some_and(|high| high < reached),
        Verdict::FailLow => range.low().is_some_and(|low| reached < low),
        Verdict::Pass | Verdict::Undecided => false,
    }
}

// The separation of a row in times that have its from-event at 0.
fn separation(row: &Row, times: &[i64]) -> i64
    requires zero { time_of times.now row.now.from ≡ pos 0 }
    ensures separation { result ≡ separation times.now row.now.from row.now.to }
{
    time_of(times, row.to)
}

/// Whether a set of events can be raised from times of a row without end, and the separation of the row with it. The
/// to-event is raised for the greatest separation, and the from-event for the least.
pub fn can_rise(net: &Network, which: Which, row: &Row, times: &[i64], set: &[bool]) -> bool
    requires row { IsRowOf net.now row.now }
    requires times { ArePrintedTimes net.now row.now.from times.now }
    ensures raised { IsTrue result ↔ CanRise which net.now row.now times.now set.now }
{
    if set.len() != net.events() as usize {
        return false;
    }
    match which {
        Which::Max => net.is_ray(times, set, row.from, row.to),
        Which::Min => net.is_ray(times, set, row.to, row.from),
    }
}
