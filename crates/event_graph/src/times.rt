//! Lists of times.

ghost use Rattle.std.specs.Prelude.{◌≡◌, ◌<◌, ◌-ℤ◌, All, length};
ghost use Rattle.event_graph.specs.Times.{IsTime, moved, separation, time_of};

use itv_base::EventId;

/// The time of an event, in picoseconds, or 0 if there is no such event.
pub fn time_of(times: &[i64], event: EventId) -> i64
    ensures time { result ≡ time_of times.now event }
{
    match times.get(event.0 as usize) {
        None => 0,
        Some(time) => *time,
    }
}

/// How much later the second event comes than the first, in picoseconds. The time of an event that is not there is 0. All times are
/// below 2^61 picoseconds in absolute value.
pub fn separation(times: &[i64], from: EventId, to: EventId) -> i64
    requires times { All IsTime times.now }
    ensures value { result ≡ separation times.now from to }
{
    since(time_of(times, from), time_of(times, to))
}

/// Subtracts the time of an event from all times. The event is there, and all times are below 2^61 picoseconds in
/// absolute value.
pub fn move_all(times: &mut [i64], origin: EventId)
    requires event { origin.0 < length times.old }
    requires times { All IsTime times.old }
    ensures moved { times.new ≡ moved origin times.old }
{
    let at = time_of(times, origin);
    for event in 0..times.len() {
        times[event] = since(at, times[event]);
    }
}

// How long after an origin a time is.
fn since(origin: i64, time: i64) -> i64
    requires origin { IsTime origin }
    requires time { IsTime time }
    ensures value { result ≡ time -ℤ origin }
{
    time - origin
}
