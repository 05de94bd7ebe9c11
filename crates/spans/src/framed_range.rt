//! Ranges that frame a range with all values of an interval: they hold it with each value, or lie in it with each value.

ghost use Rattle.std.specs.Prelude.{◌≡◌, ◌<◌, ◌+ℤ◌, ◌-ℤ◌, ◌≤ℤ◌, ℤ, All, IfSome, IsSomeAnd, Some, length};
ghost use Rattle.itv_base.specs.Range.{IsEnd};
ghost use Rattle.event_graph.specs.Times.{separation};
ghost use Rattle.spans.specs.Step.{IsCountGap, IsCount, IsCountStep, IsFramedKind, IsFramedRange, IsInside, IsInterval, IsUnwrapped, IsWithinRange, kind_at, range_at, times_by, wanting};

use crate::interval::{Interval, greatest_multiple, least_multiple};
use itv_base::{END_LIMIT, EventId, Range, RowKind};

/// What one network is for all values of an interval.
#[derive(Clone, Copy)]
pub enum FrameKind {
    /// It allows all that is allowed with one of the values, and its rows want no less.
    Cover,
    /// It allows only what is allowed with each of the values, and its rows want no more.
    Core,
}

/// By how many values an event counts from more than another one.
pub fn apart(counts: &[i64], from: EventId, to: EventId) -> i64
    requires counts { All IsCount counts.now }
    requires from { from.0 < length counts.now }
    requires to { to.0 < length counts.now }
    ensures apart { result ≡ separation counts.now from to }
    ensures within { IsCountGap result }
{
    difference(counts[to.0 as usize], counts[from.0 as usize])
}

fn difference(to: i64, from: i64) -> i64
    requires to { IsCount to }
    requires from { IsCount from }
    ensures difference { result ≡ to -ℤ from }
    ensures within { IsCountGap result }
{
    to - from
}

/// A range of a cause of a frame, in counted times.
pub fn framed_range(
    range: Range,
    is_drawn: bool,
    apart: i64,
    interval: Interval,
    kind: FrameKind,
) -> Option<Range>
    requires apart { IsCountGap apart }
    requires interval { IsInterval interval }
    ensures frames { IfSome result (λ framed. (value : ℤ) → IsInside interval value → IsFramedRange kind (range_at is_drawn apart value range) framed) }
{
    match kind {
        FrameKind::Cover => covering_range(range, is_drawn, apart, interval),
        FrameKind::Core => tight_range(range, is_drawn, apart, interval),
    }
}

// A range that allows all that a range allows with each of the values, in counted times.
fn covering_range(range: Range, is_drawn: bool, apart: i64, interval: Interval) -> Option<Range>
    requires apart { IsCountGap apart }
    requires interval { IsInterval interval }
    ensures covers { IfSome result (λ wide. (value : ℤ) → IsInside interval value → IsWithinRange (range_at is_drawn apart value range) wide) }
{
    let times = times_of(is_drawn, apart);
    let low = low_end(range.low(), least_multiple(interval, times));
    let high = high_end(range.high(), greatest_multiple(interval, times));
    Range::new(low, high).ok()
}

// By which multiple of a value an end goes up in counted times.
fn times_of(is_drawn: bool, apart: i64) -> i64
    requires { IsCountGap apart }
    ensures times { result ≡ times_by is_drawn apart }
    ensures within { IsCountStep result }
{
    if is_drawn { 1 - apart } else { -apart }
}

// A low end that is not above an end that goes up by a number. It is open if one of the two is missing.
fn low_end(end: Option<i64>, add: Option<i64>) -> Option<i64>
    requires end { IsEnd end }
    requires add { IfSome add IsUnwrapped }
    ensures low { IfSome result (λ low. IsSomeAnd end (λ end. IsSomeAnd add (λ add. low ≤ℤ (end +ℤ add)))) }
{
    let sum = sum_of(end?, add?);
    if sum < -END_LIMIT {
        None
    } else {
        Some(sum.min(END_LIMIT))
    }
}

// A high end that is not below an end that goes up by a number. It is open if one of the two is missing.
fn high_end(end: Option<i64>, add: Option<i64>) -> Option<i64>
    requires end { IsEnd end }
    requires add { IfSome add IsUnwrapped }
    ensures high { IfSome result (λ high. IsSomeAnd end (λ end. IsSomeAnd add (λ add. (end +ℤ add) ≤ℤ high))) }
{
    let sum = sum_of(end?, add?);
    if END_LIMIT < sum {
        None
    } else {
        Some(sum.max(-END_LIMIT))
    }
}

fn sum_of(end: i64, add: i64) -> i64
    requires end { IsEnd (Some end) }
    requires add { IsUnwrapped add }
    ensures { result ≡ end +ℤ add }
{
    end + add
}

/// What a row of a frame wants of a counted separation.
pub fn framed_kind(
    kind: RowKind,
    is_drawn: bool,
    apart: i64,
    interval: Interval,
    frame: FrameKind,
) -> Option<RowKind>
    requires apart { IsCountGap apart }
    requires interval { IsInterval interval }
    ensures frames { IfSome result (λ framed. (value : ℤ) → IsInside interval value → (x : ℤ) → IsFramedKind frame (kind_at is_drawn apart value kind) framed x) }
{
    match kind {
        RowKind::Ask => Some(RowKind::Ask),
        RowKind::Req(range) => match framed_range(
            range,
            is_drawn,
            apart,
            interval,
            wanting(frame),
        ) {
            None => None,
            Some(range) => Some(RowKind::Req(range)),
        },
    }
}

// The frame of the ranges of rows: a row wants no less where a cause allows no less.
fn wanting(kind: FrameKind) -> FrameKind
    ensures { result ≡ wanting kind }
{
    match kind {
        FrameKind::Cover => FrameKind::Core,
        FrameKind::Core => FrameKind::Cover,
    }
}

// A range that lies in a range with each of the values, in counted times.
fn tight_range(range: Range, is_drawn: bool, apart: i64, interval: Interval) -> Option<Range>
    requires apart { IsCountGap apart }
    requires interval { IsInterval interval }
    ensures tight { IfSome result (λ tight. (value : ℤ) → IsInside interval value → IsWithinRange tight (range_at is_drawn apart value range)) }
{
    let times = times_of(is_drawn, apart);
    let low = tight_lower(range.low(), greatest_multiple(interval, times))?;
    let high = tight_upper(range.high(), least_multiple(interval, times))?;
    Range::new(low, high).ok()
}

// A low end that is not below an end that goes up by a number, which may be missing. An open end stays open.
fn tight_lower(end: Option<i64>, add: Option<i64>) -> Option<Option<i64>>
    requires end { IsEnd end }
    requires add { IfSome add IsUnwrapped }
    ensures low { IfSome result (λ low. IfSome end (λ end. IsSomeAnd low (λ low. IsSomeAnd add (λ add. (end +ℤ add) ≤ℤ low)))) }
{
    match end {
        None => Some(None),
        Some(end) => match add {
            None => None,
            Some(add) => Some(Some(tight_low(end, add))),
        },
    }
}

// A high end that is not above an end that goes up by a number, which may be missing. An open end stays open.
fn tight_upper(end: Option<i64>, add: Option<i64>) -> Option<Option<i64>>
    requires end { IsEnd end }
    requires add { IfSome add IsUnwrapped }
    ensures high { IfSome result (λ high. IfSome end (λ end. IsSomeAnd high (λ high. IsSomeAnd add (λ add. high ≤ℤ (end +ℤ add))))) }
{
    match end {
        None => Some(None),
        Some(end) => match add {
            None => None,
            Some(add) => Some(Some(tight_high(end, add))),
        },
    }
}

// A low end that is not below an end that goes up by a number.
fn tight_low(end: i64, add: i64) -> i64
    requires end { IsEnd (Some end) }
    requires add { IsUnwrapped add }
    ensures { (end +ℤ add) ≤ℤ result }
{
    sum_of(end, add).max(-END_LIMIT)
}

// A high end that is not above an end that goes up by a number.
fn tight_high(end: i64, add: i64) -> i64
    requires end { IsEnd (Some end) }
    requires add { IsUnwrapped add }
    ensures { result ≤ℤ (end +ℤ add) }
{
    sum_of(end, add).min(END_LIMIT)
}
