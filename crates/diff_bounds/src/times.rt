//! Times from labels.

ghost use Rattle.std.specs.Prelude.{◌≡◌, ◌+◌, ◌*◌, ◌<◌, ◌≤◌, ℕ, ℤ, pos, ◌+ℤ◌, ◌≤ℤ◌, All, IfSome, Some, length, slice_index_or};
ghost use Rattle.std.specs.Prelude.{is_none, slice_get, slice_set};
ghost use Rattle.itv_base.specs.declared.limits.TheConstants.{MAX_EVENTS};
ghost use Rattle.diff_bounds.specs.Labels.{labels_from, number};
ghost use Rattle.event_graph.specs.Limits.{IsReach};
ghost use Rattle.diff_bounds.specs.Limits.{IsTimely, near_limit};
ghost use Rattle.diff_bounds.specs.Standing.{lifted};
ghost use Rattle.diff_bounds.specs.Step.Timing.{AreInReach, LiftsAll};

use crate::falling::label_in;
use trail::Trail;

/// The least number from 0 on that makes feasible times late enough: no label from the source is above the feasible time of its event plus this
/// number.
pub fn least_lift(trail: &Trail, events: u32) -> i64
    requires slots { events + events ≤ length trail.now.current.stamps }
    requires most { length trail.now.current.stamps ≤ 2 * MAX_EVENTS }
    requires labels { AreInReach events trail.now.current.stamps }
    ensures lifts { LiftsAll events trail.now.current.stamps result }
    ensures low { pos 0 ≤ℤ result }
    ensures high { result ≤ℤ pos near_limit }
{
    let mut lift = 0;
    for event in 0..events {
        let time = feasible_in(trail, events, event);
        lift = lift_above(lift, label_in(trail, event), time);
    }
    lift
}

// The greater of two numbers: `lift`, and how far a label is above a time, if there is a label.
fn lift_above(lift: i64, label: Option<i64>, time: i64) -> i64
    requires label { IfSome label IsReach }
    requires time { IsReach time }
    ensures keeps { lift ≤ℤ result }
    ensures above { IfSome label (λ l. l ≤ℤ (time +ℤ result)) }
    ensures high { lift ≤ℤ pos near_limit → result ≤ℤ pos near_limit }
{
    match label {
        Some(label) if label - time > lift => label - time,
        _ => lift,
    }
}

// The feasible time of an event.
fn feasible_in(trail: &Trail, events: u32, event: u32) -> i64
    requires slots { events + events ≤ length trail.now.current.stamps }
    requires most { length trail.now.current.stamps ≤ 2 * MAX_EVENTS }
    requires event { event < events }
    ensures { result ≡ number (labels_from trail.now.current.stamps events event) }
{
    label_in(trail, events + event).unwrap_or(0)
}

/// Writes the time of each event: its label from the source, or its feasible time plus `lift` where there is no label.
pub fn write_times(trail: &Trail, events: u32, lift: i64, out: &mut [i64])
    requires slots { events + events ≤ length trail.now.current.stamps }
    requires most { length trail.now.current.stamps ≤ 2 * MAX_EVENTS }
    requires labels { AreInReach events trail.now.current.stamps }
    requires low { pos 0 ≤ℤ lift }
    requires high { lift ≤ℤ pos near_limit }
    requires count { length out.old ≡ events }
    ensures times { (event : ℕ) → event < events → slice_index_or out.new event (pos 0)
        ≡ lifted (labels_from trail.now.current.stamps 0 event) (number (labels_from trail.now.current.stamps events event) +ℤ lift) }
    ensures range { All IsTimely out.new }
{
    for event in 0..events {
        put_time(out, event, time_in(trail, events, event, lift));
    }
}

// Writes a time.
fn put_time(out: &mut [i64], event: u32, time: i64)
    requires { event < length out.old }
    ensures { out.new ≡ slice_set out.old event time }
{
    out[event as usize] = time;
}

// The time of an event.
fn time_in(trail: &Trail, events: u32, event: u32, lift: i64) -> i64
    requires slots { events + events ≤ length trail.now.current.stamps }
    requires most { length trail.now.current.stamps ≤ 2 * MAX_EVENTS }
    requires labels { AreInReach events trail.now.current.stamps }
    requires event { event < events }
    requires low { pos 0 ≤ℤ lift }
    requires high { lift ≤ℤ pos near_limit }
    ensures value { result
        ≡ lifted (labels_from trail.now.current.stamps 0 event) (number (labels_from trail.now.current.stamps events event) +ℤ lift) }
    ensures range { IsTimely result }
{
    match label_in(trail, event) {
        Some(label) => label,
        None => later(feasible_in(trail, events, event), lift),
    }
}

// A time plus `lift`.
fn later(time: i64, lift: i64) -> i64
    requires time { IsReach time }
    requires early { time ≤ℤ pos 0 }
    requires low { pos 0 ≤ℤ lift }
    requires high { lift ≤ℤ pos near_limit }
    ensures time { result ≡ time +ℤ lift }
    ensures range { IsTimely result }
{
    time + lift
}

/// Writes for each event whether it has no label from the source.
pub fn write_ray(trail: &Trail, out: &mut [bool])
    requires slots { length out.old + length out.old ≤ length trail.now.current.stamps }
    requires most { length trail.now.current.stamps ≤ 2 * MAX_EVENTS }
    ensures { (event : ℕ) → event < length out.new → slice_get out.new event ≡ Some (is_none (labels_from trail.now.current.stamps 0 event)) }
{
    let events = out.len() as u32;
    for event in 0..events {
        out[event as usize] = label_in(trail, event).is_none();
    }
}
