//! Drawing a row.

ghost use Rattle.std.specs.Prelude.{◌≡◌, ◌<◌, ◌≤◌, All, IsSomeAnd, length, slice_get, take};
ghost use Rattle.itv_base.specs.Outside.{Puts};
ghost use Rattle.event_graph.specs.Times.{IsTime};
ghost use Rattle.drawn_networks.specs.declared.row.Row.{Row};
ghost use Rattle.drawn_networks.specs.Drawn.{name_of};
ghost use Rattle.redraw.specs.Drawing.{demand_of, sketch_of, stands_of};
ghost use Rattle.redraw.specs.Order.{ordered_events};
ghost use Rattle.redraw.specs.Step.{IsDemand};
ghost use Rattle.redraw.specs.Text.{redrawn, sketch_text};
ghost use Rattle.redraw.specs.declared.drawn_event.TheConstants.{MOST_DRAWN};

use crate::drawn_event::{DrawnEvent, MOST_DRAWN, Timed};
use crate::order::order;
use crate::standing::stand_up;
use crate::write::put_sketch;
use drawn_networks::{DrawnNetwork, Row};
use itv_base::{EventId, NoMemory, PutFailed, Range, RowKind, Sink};
use std::alloc::Global;
use std::marker::Model;

/// Room for drawings, one after another.
#[derive(Drop)]
pub struct DrawSpace {
    timed: Vec<Timed>,
    stands: Vec<DrawnEvent>,
}

impl Model for DrawSpace {
    ghost use Rattle.std.specs.Prelude.{◌≡◌, ⊤, length};
    ghost use Rattle.redraw.specs.declared.drawn_event.TheConstants.{MOST_DRAWN};

    ghost Value = { ⊤ };

    ghost view = { λ s. tt };

    ghost invariant = { λ s. (length s.timed.items ≡ MOST_DRAWN) × (length s.stands.items ≡ MOST_DRAWN) };
}

// What a row demands.
fn demand_of(kind: RowKind) -> Range
    requires { IsDemand kind }
    ensures { result ≡ demand_of kind }
{
    match kind {
        RowKind::Ask => unreachable!(),
        RowKind::Req(range) => range,
    }
}

// Writes into the first places where the drawn events of a row stand. Returns how many are drawn. The network has `events` events.
fn place_all(
    timed: &mut [Timed],
    stands: &mut [DrawnEvent],
    asked: &Row,
    events: u32,
    times: &[i64],
) -> usize
    requires from { asked.now.from.0 < length times.now }
    requires to { asked.now.to.0 < length times.now }
    requires events { events ≡ length times.now }
    requires small { All IsTime times.now }
    requires timed { length timed.old ≡ MOST_DRAWN }
    requires stands { length stands.old ≡ MOST_DRAWN }
    ensures timed { length timed.new ≡ MOST_DRAWN }
    ensures stands { length stands.new ≡ MOST_DRAWN }
    ensures count { result ≤ MOST_DRAWN }
    ensures placed { take result stands.new ≡ stands_of (ordered_events asked.now.from asked.now.to (length times.now) times.now) }
{
    let count = order(timed, asked.from, asked.to, events, times);
    stand_up(&timed[..count], stands);
    count
}

// Draws a row at some times, with the range that it demands.
fn draw_asked<K: Sink>(
    names: &DrawnNetwork,
    asked: &Row,
    range: Range,
    times: &[i64],
    timed: &mut [Timed],
    stands: &mut [DrawnEvent],
    sink: &mut K,
) -> Result<(), PutFailed>
    requires from { asked.now.from.0 < length times.now }
    requires to { asked.now.to.0 < length times.now }
    requires count { length times.now ≡ names.now.net.events }
    requires small { All IsTime times.now }
    requires timed { length timed.old ≡ MOST_DRAWN }
    requires stands { length stands.old ≡ MOST_DRAWN }
    ensures timed { length timed.new ≡ MOST_DRAWN }
    ensures stands { length stands.new ≡ MOST_DRAWN }
    ensures puts { Puts (K.state sink.old) (K.state sink.new) (sketch_text (sketch_of (name_of names.now) asked.now.from asked.now.to range
        (stands_of (ordered_events asked.now.from asked.now.to (length times.now) times.now)))) result }
{
    let count = place_all(timed, stands, asked, names.network().events(), times);
    put_sketch(names, &stands[..count], asked.from, asked.to, range, sink)
}

impl DrawSpace {
    /// Makes room for the drawings of any drawn network.
    pub fn new(alloc: Global) -> Result<DrawSpace, NoMemory> {
        let nothing = EventId(0);
        Ok(DrawSpace {
            timed: vec![in alloc; Timed {
                event: nothing,
                time: 0
            }; MOST_DRAWN]?,
            stands: vec![in alloc; DrawnEvent {
                event: nothing,
                number: 0,
                place: 0,
                time: 0
            }; MOST_DRAWN]?,
        })
    }
}

/// Writes the drawing of a row that demands a range, at some times. Takes no memory. If a put failed, a front of the text was
/// written, and the sink's count of faults rose.
pub fn draw<K: Sink>(
    names: &DrawnNetwork,
    row: u32,
    times: &[i64],
    work: &mut DrawSpace,
    sink: &mut K,
) -> Result<(), PutFailed>
    requires row { IsSomeAnd (slice_get names.now.rows row) (λ (asked : Row). IsDemand asked.kind) }
    requires count { length times.now ≡ names.now.net.events }
    requires small { All IsTime times.now }
    ensures puts { Puts (K.state sink.old) (K.state sink.new) (redrawn names.now row times.now) result }
{
    let asked = names.rows().get(u64::from(row));
    let kind: RowKind = asked.kind;
    draw_asked(
        names,
        asked,
        demand_of(kind),
        times,
        &mut work.timed,
        &mut work.stands,
        sink,
    )
}
