//! Verdicts and slacks from two bounds, and times that are raised past an end.

ghost use Rattle.std.specs.Prelude.{IsTrue};
ghost use Rattle.event_graph.specs.Times.{IsTime};
ghost use Rattle.requirements.specs.Bounds.{HasTimes};

use crate::out::Out;
use crate::writing::{is_time, put_numbers, range_of};
use itv_base::{EventId, Range};
use line_words::{long_in, open_in};
use requirements::{BothBounds, Bound, Verdict, judge, raise_past, slack};

/// Writes the verdict and the two slacks of a range, a least and a greatest bound, as in `0:250 0 250`.
pub fn verdict(row: &str, out: &mut Out) {
    match judged_of(row) {
        Some((range, both)) if has_times(both.least) && has_times(both.greatest) => {
            put_verdict(range, both, out)
        }
        _ => out.refuse(),
    }
}

// The range and the two bounds of a row.
fn judged_of(row: &str) -> Option<(Range, BothBounds)> {
    let mut words = row.split(' ');
    let range = range_of(words.next()?)?;
    let least = bound_of(words.next()?)?;
    let greatest = bound_of(words.next()?)?;
    Some((range, BothBounds { least, greatest }))
}

fn put_verdict(range: Range, both: BothBounds, out: &mut Out)
    requires least { HasTimes both.least }
    requires greatest { HasTimes both.greatest }
{
    let slack = slack(range, &both);
    out.put(match judge(range, &both) {
        Verdict::Pass => "pass ",
        Verdict::FailHigh => "fail high ",
        Verdict::FailLow => "fail low ",
        Verdict::Undecided => "undecided ",
    });
    out.put_end(slack.low);
    out.put(" ");
    out.put_end(slack.high);
}

// A bound: a number, a star for an unbounded one, or the limit and the attained separation of an open one, as in `251:7`.
fn bound_of(word: &str) -> Option<Bound> {
    match word.split_once(':') {
        Some((limit, attained)) => Some(Bound::Within {
            limit: open_in(limit)?,
            attained: open_in(attained)?,
        }),
        None if word == "*" => Some(Bound::Unbounded),
        None => Some(Bound::Closed(long_in(word)?)),
    }
}

fn has_times(bound: Bound) -> bool
    ensures { IsTrue result → HasTimes bound }
{
    match bound {
        Bound::Closed(value) => is_time(value),
        Bound::Unbounded => true,
        Bound::Within { limit, attained } => {
            limit.is_none_or(|value| is_time(value)) && attained.is_none_or(|value| is_time(value))
        }
    }
}

/// Writes the times 0, 5, 7 and 0 after events 1 and 3 are raised, until event 1 comes past this limit after event 0.
pub fn raise(row: &str, out: &mut Out) {
    match long_in(row) {
        Some(limit) if is_time(limit) => put_raised(limit, out),
        _ => out.refuse(),
    }
}

fn put_raised(limit: i64, out: &mut Out)
    requires { IsTime limit }
{
    let mut times = [0, 5, 7, 0];
    raise_past(
        &mut times,
        &[false, true, false, true],
        EventId(0),
        EventId(1),
        limit,
    );
    put_numbers(&times, out);
}
