//! Raising a set of events above all others.

ghost use Rattle.std.specs.Prelude.{◌≡◌, ◌+◌, ◌*◌, ◌⊎◌, ℕ, pos, ◌+ℤ◌, ◌-ℤ◌, ◌≤ℤ◌, ◌<ℤ◌, true, false, All, Some, length, slice_get};
ghost use Rattle.event_graph.specs.Times.{raised};
ghost use Rattle.event_graph.specs.Limits.{reach_limit, weight_limit};
ghost use Rattle.diff_bounds.specs.Limits.{IsTimely};
ghost use Rattle.branch.specs.Step.Raising.{AreRaised, IsNearSeparation, IsRise, raised_to};

use itv_base::{END_LIMIT, EventId};

/// Raises all events of a set by one number of picoseconds. Each of them is then above every other event by more than the limit of
/// ends, so no finite end of a range reaches across the gap. The separation of the pair is then at least `reach`.
pub fn raise(times: &mut [i64], set: &[bool], from: EventId, to: EventId, reach: i64)
    requires near { All IsTimely times.old }
    requires count { length set.now ≡ length times.old }
    requires lacks { slice_get set.now from.0 ≡ Some false }
    requires holds { slice_get set.now to.0 ≡ Some true }
    requires reach { IsNearSeparation reach }
    ensures { AreRaised set.now from to reach times.old times.new }
{
    let by = rise(times, set, from, to, reach);
    raise_by(times, set, by);
}

// Raises the events of a set by a number of picoseconds.
fn raise_by(times: &mut [i64], set: &[bool], by: i64)
    requires near { All IsTimely times.old }
    requires count { length set.now ≡ length times.old }
    requires low { pos 0 ≤ℤ by }
    requires high { by ≤ℤ pos (6 * reach_limit) }
    ensures { (n : ℕ) → by ≡ pos n → times.new ≡ raised set.now n times.old }
{
    for event in 0..times.len() {
        times[event] = moved(times[event], set[event], by);
    }
}

// The time of an event, raised by a number if the event is in the set.
fn moved(time: i64, is_in: bool, by: i64) -> i64
    requires time { IsTimely time }
    requires low { pos 0 ≤ℤ by }
    requires high { by ≤ℤ pos (6 * reach_limit) }
    ensures { (n : ℕ) → by ≡ pos n → result ≡ raised_to is_in time n }
{
    if is_in { later(time, by) } else { time }
}

// A time, later by a number.
fn later(time: i64, by: i64) -> i64
    requires time { IsTimely time }
    requires low { pos 0 ≤ℤ by }
    requires high { by ≤ℤ pos (6 * reach_limit) }
    ensures { result ≡ time +ℤ by }
{
    time + by
}

// The least time of a set and the greatest of all others.
#[derive(Clone, Copy)]
struct Span {
    lowest: i64,
    highest: i64,
}

// The number by which the events of the set have to be raised.
fn rise(times: &[i64], set: &[bool], from: EventId, to: EventId, reach: i64) -> i64
    requires near { All IsTimely times.now }
    requires count { length set.now ≡ length times.now }
    requires lacks { slice_get set.now from.0 ≡ Some false }
    requires holds { slice_get set.now to.0 ≡ Some true }
    requires reach { IsNearSeparation reach }
    ensures { IsRise set.now from to reach times.now result }
{
    let first = times[from.0 as usize];
    let last = times[to.0 as usize];
    let mut span = Span {
        lowest: last,
        highest: first,
    };
    for event in 0..times.len() {
        span = widened(span, times[event], set[event]);
    }
    enough(span, first, last, reach)
}

// The span with one more time.
fn widened(span: Span, time: i64, is_in: bool) -> Span
    requires lowest { IsTimely span.lowest }
    requires highest { IsTimely span.highest }
    requires time { IsTimely time }
    ensures lowest { IsTimely result.lowest }
    ensures highest { IsTimely result.highest }
    ensures falls { result.lowest ≤ℤ span.lowest }
    ensures rises { span.highest ≤ℤ result.highest }
    ensures set { is_in ≡ true → result.lowest ≤ℤ time }
    ensures others { is_in ≡ false → time ≤ℤ result.highest }
{
    if is_in {
        Span {
            lowest: lesser(span.lowest, time),
            ..span
        }
    } else {
        Span {
            highest: greater(span.highest, time),
            ..span
        }
    }
}

// The lesser of two numbers.
fn lesser(a: i64, b: i64) -> i64
    ensures first { result ≤ℤ a }
    ensures second { result ≤ℤ b }
    ensures either { (result ≡ a) ⊎ (result ≡ b) }
{
    if a < b { a } else { b }
}

// The greater of two numbers.
fn greater(a: i64, b: i64) -> i64
    ensures first { a ≤ℤ result }
    ensures second { b ≤ℤ result }
    ensures either { (result ≡ a) ⊎ (result ≡ b) }
{
    if a < b { b } else { a }
}

// The least number, from 0 on, that closes the gap and reaches the separation.
fn enough(span: Span, first: i64, last: i64, reach: i64) -> i64
    requires lowest { IsTimely span.lowest }
    requires highest { IsTimely span.highest }
    requires first { IsTimely first }
    requires last { IsTimely last }
    requires reach { IsNearSeparation reach }
    ensures low { pos 0 ≤ℤ result }
    ensures high { result ≤ℤ pos (6 * reach_limit) }
    ensures gap { (span.highest +ℤ pos weight_limit) <ℤ (span.lowest +ℤ result) }
    ensures reached { reach ≤ℤ ((last -ℤ first) +ℤ result) }
{
    greater(greater(gap(span), shortfall(first, last, reach)), 0)
}

// The number by which the lowest has to rise to be above the highest by more than the limit of ends.
fn gap(span: Span) -> i64
    requires lowest { IsTimely span.lowest }
    requires highest { IsTimely span.highest }
    ensures { result ≡ ((span.highest -ℤ span.lowest) +ℤ pos (weight_limit + 1)) }
{
    span.highest - span.lowest + END_LIMIT + 1
}

// How much the separation lacks of the one to be reached. It is negative if the separation is greater.
fn shortfall(first: i64, last: i64, reach: i64) -> i64
    requires first { IsTimely first }
    requires last { IsTimely last }
    requires reach { IsNearSeparation reach }
    ensures { result ≡ reach -ℤ (last -ℤ first) }
{
    reach - (last - first)
}
