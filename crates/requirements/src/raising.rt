//! Times that are raised past a limit.

ghost use Rattle.std.specs.Prelude.{◌≡◌, ◌<◌, ◌+◌, ◌^◌, pos, ◌+ℤ◌, ◌-ℤ◌, ◌<ℤ◌, ◌≤ℤ◌, neg_ℤ, true, false, length, All, Some, slice_get};
ghost use Rattle.event_graph.specs.Times.{IsTime, raised};
ghost use Rattle.requirements.specs.Raising.{RaisesPast};
ghost use Rattle.requirements.specs.Step.Raising.{not_negative, rise_past};

use event_graph::time_of;
use itv_base::EventId;

fn gap(from: i64, to: i64) -> i64
    requires from { IsTime from }
    requires to { IsTime to }
    ensures value { result ≡ to -ℤ from }
    ensures low { neg_ℤ (pos (2 ^ 62)) <ℤ result }
    ensures high { result <ℤ pos (2 ^ 62) }
{
    to - from
}

// How far the limit plus one is above a separation.
fn excess(separation: i64, limit: i64) -> i64
    requires low { neg_ℤ (pos (2 ^ 62)) <ℤ separation }
    requires high { separation <ℤ pos (2 ^ 62) }
    requires limit { IsTime limit }
    ensures value { result ≡ (limit -ℤ separation) +ℤ pos 1 }
    ensures within { result <ℤ pos (2 ^ 62 + 2 ^ 61) }
{
    limit - separation + 1
}

// A number, or 0 if it is below 0.
fn or_zero(value: i64) -> u64
    ensures { result ≡ not_negative value }
{
    if value < 0 { 0 } else { value as u64 }
}

// The least number, from 0 on, by which the separation of two times has to rise to exceed a limit.
fn rise(from: i64, to: i64, limit: i64) -> u64
    requires from { IsTime from }
    requires to { IsTime to }
    requires limit { IsTime limit }
    ensures value { result ≡ rise_past (to -ℤ from) limit }
    ensures within { result < 2 ^ 62 + 2 ^ 61 }
{
    or_zero(excess(gap(from, to), limit))
}

fn later(time: i64, by: u64) -> i64
    requires time { IsTime time }
    requires by { by < 2 ^ 62 + 2 ^ 61 }
    ensures { result ≡ time +ℤ pos by }
{
    time + by as i64
}

// Raises the events of a set.
fn raise(times: &mut [i64], set: &[bool], by: u64)
    requires count { length times.old ≡ length set.now }
    requires times { All IsTime times.old }
    requires by { by < 2 ^ 62 + 2 ^ 61 }
    ensures { times.new ≡ raised set.now by times.old }
{
    for (event, is_in) in set.iter().enumerate() {
        if *is_in {
            times[event] = later(times[event], by);
        }
    }
}

/// Raises the times of a set of events by the least number of picoseconds, from 0 on, with which the separation of a pair exceeds a
/// limit. There is a flag for each event. The set has the event `to`, and does not have the event `from`. All numbers are below
/// 2^61 in absolute value.
pub fn raise_past(times: &mut [i64], ray: &[bool], from: EventId, to: EventId, limit: i64)
    requires count { length times.old ≡ length ray.now }
    requires holds { slice_get ray.now to.0 ≡ Some true }
    requires lacks { slice_get ray.now from.0 ≡ Some false }
    requires times { All IsTime times.old }
    requires limit { IsTime limit }
    ensures { RaisesPast times.old ray.now from to limit times.new }
{
    let by = rise(time_of(times, from), time_of(times, to), limit);
    raise(times, ray, by);
}
