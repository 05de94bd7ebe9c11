//! Where the drawn events stand.

ghost use Rattle.std.specs.Prelude.{◌≡◌, ◌+◌, ◌*◌, ◌<◌, ◌≤◌, pos, ◌+ℤ◌, ◌-ℤ◌, ◌≤ℤ◌, int_lt, if◌then◌else◌, All, length, take};
ghost use Rattle.event_graph.specs.Times.{IsTime};
ghost use Rattle.redraw.specs.Drawing.{first_stand, next_stand, stands_of};
ghost use Rattle.redraw.specs.Narrowing.{lesser, widest_gap};
ghost use Rattle.redraw.specs.Step.{AreInOrder};
ghost use Rattle.redraw.specs.declared.drawn_event.Timed.{Timed};
ghost use Rattle.redraw.specs.declared.drawn_event.TheConstants.{MOST_DRAWN};

use crate::drawn_event::{DrawnEvent, Timed};
use itv_base::END_LIMIT;

/// Writes into the first places where events in order of time stand.
pub fn stand_up(timed: &[Timed], stands: &mut [DrawnEvent])
    requires some { 1 ≤ length timed.now }
    requires few { length timed.now ≤ MOST_DRAWN }
    requires room { length stands.old ≡ MOST_DRAWN }
    requires order { AreInOrder timed.now }
    requires times { All (λ (x : Timed). IsTime x.time) timed.now }
    ensures room { length stands.new ≡ MOST_DRAWN }
    ensures stands { take (length timed.now) stands.new ≡ stands_of timed.now }
{
    let mut last = timed[0];
    let mut before = first_stand(last);
    stands[0] = before;
    for k in 1..timed.len() {
        let item = timed[k];
        before = next_stand(last, before, item);
        stands[k] = before;
        last = item;
    }
}

fn first_stand(item: Timed) -> DrawnEvent
    ensures { result ≡ first_stand item }
{
    DrawnEvent {
        event: item.event,
        number: 0,
        place: 1,
        time: 0,
    }
}

fn next_stand(last: Timed, before: DrawnEvent, item: Timed) -> DrawnEvent
    requires last { IsTime last.time }
    requires item { IsTime item.time }
    requires order { last.time ≤ℤ item.time }
    requires number { before.number ≤ MOST_DRAWN }
    requires place { before.place ≤ MOST_DRAWN }
    requires low { pos 0 ≤ℤ before.time }
    requires high { before.time ≤ℤ pos (MOST_DRAWN * widest_gap) }
    ensures { result ≡ next_stand last before item }
{
    DrawnEvent {
        event: item.event,
        number: before.number + 1,
        place: next_place(before.place, last, item),
        time: later(before.time, gap_between(last, item)),
    }
}

fn next_place(place: u32, last: Timed, item: Timed) -> u32
    requires { place ≤ MOST_DRAWN }
    ensures { result ≡ (if int_lt last.time item.time then place + 1 else place) }
{
    if last.time < item.time {
        place + 1
    } else {
        place
    }
}

// A time, later by a gap.
fn later(time: i64, gap: i64) -> i64
    requires time_low { pos 0 ≤ℤ time }
    requires time_high { time ≤ℤ pos (MOST_DRAWN * widest_gap) }
    requires gap_low { pos 0 ≤ℤ gap }
    requires gap_high { gap ≤ℤ pos widest_gap }
    ensures { result ≡ time +ℤ gap }
{
    time + gap
}

// How far after the event before it an event is drawn.
fn gap_between(last: Timed, item: Timed) -> i64
    requires last { IsTime last.time }
    requires item { IsTime item.time }
    ensures { result ≡ lesser (item.time -ℤ last.time) (pos widest_gap) }
{
    let gap = item.time - last.time;
    if gap <= END_LIMIT { gap } else { END_LIMIT }
}
