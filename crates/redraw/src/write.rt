//! Writing a drawing.

ghost use Rattle.std.specs.Prelude.{◌≡◌, ◌<◌, ◌≤◌, ◌==◌, ◌||◌, ◌∷◌, ◌++◌, pos, ◌-ℤ◌, ◌≤ℤ◌, All, length, map, replicate, codes};
ghost use Rattle.itv_base.specs.Names.{name_view};
ghost use Rattle.itv_base.specs.Numerals.{number_text};
ghost use Rattle.itv_base.specs.Outside.{Puts};
ghost use Rattle.label_grammar.specs.Label.{IsProper, spelling, version_1};
ghost use Rattle.label_grammar.specs.declared.label.Kind.TheVariants.{Lin};
ghost use Rattle.slack_report.specs.Text.{name_word};
ghost use Rattle.drawn_networks.specs.Drawn.{name_of};
ghost use Rattle.redraw.specs.Drawing.{demand_edge, edge_text, exactly, lane_of, mark_at, number_in, range_label, sketch_of, step_edge, step_edges, steps_of};
ghost use Rattle.redraw.specs.Narrowing.{widest_gap};
ghost use Rattle.redraw.specs.Step.{AreNear, IsStand, StandNear, edge_front, lane_end, lane_front, lane_wave, mark_and_cycle, steps_text};
ghost use Rattle.redraw.specs.Text.{after_commas, escaped, escaped_byte, lane_text, quoted, sketch_text, with_commas};
ghost use Rattle.redraw.specs.declared.drawn_event.DrawnEvent.{DrawnEvent};
ghost use Rattle.redraw.specs.declared.drawn_event.TheConstants.{MOST_DRAWN};

use crate::drawn_event::{DrawnEvent, MOST_DRAWN};
use drawn_networks::DrawnNetwork;
use itoa::Buffer;
use itv_base::{EventId, EventName, PutFailed, Range, Sink, number_text, put_all};
use label_grammar::{Kind, Label, write_label};

// The marks, in the order in which events get them: letters, digits, and then all other visible ASCII characters but the full stop.
const MARKS: &[u8; MOST_DRAWN] =
    b"abcdefghijklmnopqrstuvwxyzABCDEFGHIJKLMNOPQRSTUVWXYZ0123456789!\"#$%&'()*+,-/:;<=>?@[\\]^_`{|}~";

// As many full stops as a node has at most.
const DOTS: &[u8; MOST_DRAWN] =
    b".............................................................................................";

// The mark of a number.
fn mark_at(number: u32) -> u8
    requires { number < MOST_DRAWN }
    ensures { result ≡ mark_at number }
{
    MARKS[number as usize]
}

// The full stops of the longest node.
fn all_dots() -> &'static [u8]
    ensures { result.now ≡ replicate MOST_DRAWN 46 }
{
    DOTS
}

// So many full stops.
fn dots(count: u32) -> &'static [u8]
    requires { count ≤ MOST_DRAWN }
    ensures { result.now ≡ replicate count 46 }
{
    &all_dots()[..count as usize]
}

// Whether a byte of a string needs a backslash before it.
fn needs_backslash(byte: u8) -> bool
    ensures { result ≡ (byte == 34 || byte == 92) }
{
    byte == b'"' || byte == b'\\'
}

// Puts a byte of a string, with a backslash before it if it needs one.
fn put_byte<K: Sink>(byte: u8, sink: &mut K) -> Result<(), PutFailed>
    ensures { Puts (K.state sink.old) (K.state sink.new) (escaped_byte byte) result }
{
    if needs_backslash(byte) {
        return sink.put(&[b'\\', byte]);
    }
    sink.put(&[byte])
}

// Puts bytes as they are, and then a byte of a string.
fn put_after<K: Sink>(front: &[u8], byte: u8, sink: &mut K) -> Result<(), PutFailed>
    ensures { Puts (K.state sink.old) (K.state sink.new) (front.now ++ escaped_byte byte) result }
{
    sink.put(front)?;
    put_byte(byte, sink)
}

// Puts the bytes of a string.
fn put_bytes<K: Sink>(text: &[u8], sink: &mut K) -> Result<(), PutFailed>
    ensures { Puts (K.state sink.old) (K.state sink.new) (escaped text.now) result }
{
    for byte in text {
        put_byte(*byte, sink)?;
    }
    Ok(())
}

// Puts the cycle of a name.
fn put_cycle<K: Sink>(cycle: u32, sink: &mut K) -> Result<(), PutFailed>
    ensures { Puts (K.state sink.old) (K.state sink.new) (64 ∷ number_text cycle) result }
{
    let mut digits = Buffer::new();
    let text = number_text(u64::from(cycle), &mut digits);
    put_all(sink, &[b"@", text.as_bytes()])
}

// Puts the mark and the cycle of a name.
fn put_mark_and_cycle<K: Sink>(mark: u8, cycle: u32, sink: &mut K) -> Result<(), PutFailed>
    ensures { Puts (K.state sink.old) (K.state sink.new) (mark_and_cycle mark cycle) result }
{
    put_after(b".", mark, sink)?;
    put_cycle(cycle, sink)
}

// Puts the name of an event.
fn put_name<K: Sink>(name: EventName<'_>, sink: &mut K) -> Result<(), PutFailed>
    ensures { Puts (K.state sink.old) (K.state sink.new) (escaped (name_word (name_view name.entry))) result }
{
    put_bytes(name.part.as_bytes(), sink)?;
    put_mark_and_cycle(name.mark, name.cycle, sink)
}

// Puts a lane up to the end of its name.
fn put_lane_front<K: Sink>(name: EventName<'_>, sink: &mut K) -> Result<(), PutFailed>
    ensures { Puts (K.state sink.old) (K.state sink.new) (lane_front (name_word (name_view name.entry))) result }
{
    sink.put(b"{\"name\":\"")?;
    put_name(name, sink)
}

// Puts the wave of a lane, and its node up to the mark.
fn put_wave<K: Sink>(place: u32, sink: &mut K) -> Result<(), PutFailed>
    requires least { 1 ≤ place }
    requires most { place ≤ MOST_DRAWN }
    ensures { Puts (K.state sink.old) (K.state sink.new) (lane_wave place) result }
{
    let wave = dots(place - 1);
    let node = dots(place);
    put_all(sink, &[b"\",\"wave\":\"0", wave, b"1\",\"node\":\"", node])
}

// Puts the mark at the end of a node, and the end of its lane.
fn put_lane_end<K: Sink>(mark: u8, sink: &mut K) -> Result<(), PutFailed>
    ensures { Puts (K.state sink.old) (K.state sink.new) (lane_end mark) result }
{
    put_byte(mark, sink)?;
    sink.put(b"\"}")
}

// Puts a lane from the end of its name on.
fn put_lane_back<K: Sink>(place: u32, mark: u8, sink: &mut K) -> Result<(), PutFailed>
    requires least { 1 ≤ place }
    requires most { place ≤ MOST_DRAWN }
    ensures { Puts (K.state sink.old) (K.state sink.new) (lane_wave place ++ lane_end mark) result }
{
    put_wave(place, sink)?;
    put_lane_end(mark, sink)
}

// Puts the lane of an event.
fn put_lane<K: Sink>(names: &DrawnNetwork, stand: DrawnEvent, sink: &mut K) -> Result<(), PutFailed>
    requires { IsStand names.now.net.events stand }
    ensures { Puts (K.state sink.old) (K.state sink.new) (lane_text (lane_of (name_of names.now) stand)) result }
{
    put_lane_front(names.name(stand.event), sink)?;
    put_lane_back(stand.place, mark_at(stand.number), sink)
}

// Puts a lane after another one.
fn put_next_lane<K: Sink>(
    names: &DrawnNetwork,
    stand: DrawnEvent,
    sink: &mut K,
) -> Result<(), PutFailed>
    requires { IsStand names.now.net.events stand }
    ensures { Puts (K.state sink.old) (K.state sink.new) (44 ∷ lane_text (lane_of (name_of names.now) stand)) result }
{
    sink.put(b",")?;
    put_lane(names, stand, sink)
}

// Puts the mark at the head of an edge.
fn put_head<K: Sink>(to: u8, sink: &mut K) -> Result<(), PutFailed>
    ensures { Puts (K.state sink.old) (K.state sink.new) (codes "->" ++ escaped_byte to) result }
{
    put_after(b"->", to, sink)
}

// Puts the marks of an edge.
fn put_marks<K: Sink>(from: u8, to: u8, sink: &mut K) -> Result<(), PutFailed>
    ensures { Puts (K.state sink.old) (K.state sink.new) (edge_front from to) result }
{
    put_after(b"\"", from, sink)?;
    put_head(to, sink)
}

// Puts the label of an edge, and its end.
fn put_label<K: Sink>(kind: Kind, range: Range, sink: &mut K) -> Result<(), PutFailed>
    requires { IsProper version_1 (range_label kind range) }
    ensures { Puts (K.state sink.old) (K.state sink.new) (spelling version_1 (range_label kind range) ++ codes "\"") result }
{
    let label = Label {
        kind,
        shift: 0,
        tag: None,
        range: Some(range),
        note: None,
    };
    write_label(&label, sink)?;
    sink.put(b"\"")
}

// Puts an edge from its label on.
fn put_edge_back<K: Sink>(kind: Kind, range: Range, sink: &mut K) -> Result<(), PutFailed>
    requires { IsProper version_1 (range_label kind range) }
    ensures { Puts (K.state sink.old) (K.state sink.new) (32 ∷ (spelling version_1 (range_label kind range) ++ codes "\"")) result }
{
    sink.put(b" ")?;
    put_label(kind, range, sink)
}

// Puts an edge from a mark to a mark.
fn put_edge<K: Sink>(
    from: u8,
    to: u8,
    kind: Kind,
    range: Range,
    sink: &mut K,
) -> Result<(), PutFailed>
    requires { IsProper version_1 (range_label kind range) }
    ensures { Puts (K.state sink.old) (K.state sink.new) (quoted (edge_text from to (range_label kind range))) result }
{
    put_marks(from, to, sink)?;
    put_edge_back(kind, range, sink)
}

// The number of an event among the drawn events.
fn number_of(stands: &[DrawnEvent], event: EventId) -> u32
    requires { All (λ (s : DrawnEvent). s.number < MOST_DRAWN) stands.now }
    ensures number { result ≡ number_in stands.now event }
    ensures marked { result < MOST_DRAWN }
{
    for stand in stands {
        if stand.event.0 == event.0 {
            return stand.number;
        }
    }
    0
}

// Puts the lanes after the first.
fn put_other_lanes<K: Sink>(
    names: &DrawnNetwork,
    stands: &[DrawnEvent],
    sink: &mut K,
) -> Result<(), PutFailed>
    requires { All (IsStand names.now.net.events) stands.now }
    ensures { Puts (K.state sink.old) (K.state sink.new) (after_commas (map (λ (s : DrawnEvent). lane_text (lane_of (name_of names.now) s)) stands.now)) result }
{
    for stand in stands {
        put_next_lane(names, *stand, sink)?;
    }
    Ok(())
}

// Puts the lanes.
fn put_lanes<K: Sink>(
    names: &DrawnNetwork,
    stands: &[DrawnEvent],
    sink: &mut K,
) -> Result<(), PutFailed>
    requires some { 1 ≤ length stands.now }
    requires stand { All (IsStand names.now.net.events) stands.now }
    ensures { Puts (K.state sink.old) (K.state sink.new) (with_commas (map (λ (s : DrawnEvent). lane_text (lane_of (name_of names.now) s)) stands.now)) result }
{
    put_lane(names, stands[0], sink)?;
    put_other_lanes(names, &stands[1..], sink)
}

// The range for how far after another event an event is drawn.
fn exactly_between(before: DrawnEvent, stand: DrawnEvent) -> Range
    requires low { pos 0 ≤ℤ (stand.time -ℤ before.time) }
    requires high { (stand.time -ℤ before.time) ≤ℤ pos widest_gap }
    ensures range { result ≡ exactly (stand.time -ℤ before.time) }
    ensures proper { IsProper version_1 (range_label Lin result) }
{
    let distance = stand.time - before.time;
    match Range::new(Some(distance), Some(distance)) {
        Ok(range) => range,
        Err(_) => unreachable!(),
    }
}

// Puts the edge that keeps two events apart, with a comma after it.
fn put_step<K: Sink>(before: DrawnEvent, stand: DrawnEvent, sink: &mut K) -> Result<(), PutFailed>
    requires before { before.number < MOST_DRAWN }
    requires number { stand.number < MOST_DRAWN }
    requires low { pos 0 ≤ℤ (stand.time -ℤ before.time) }
    requires high { (stand.time -ℤ before.time) ≤ℤ pos widest_gap }
    ensures { Puts (K.state sink.old) (K.state sink.new) (quoted (step_edge before stand) ++ codes ",") result }
{
    let from = mark_at(before.number);
    let to = mark_at(stand.number);
    let range = exactly_between(before, stand);
    put_edge(from, to, Kind::Lin, range, sink)?;
    sink.put(b",")
}

// Puts the edges that keep the events after the first one apart, each with a comma after it.
fn put_steps_after<K: Sink>(
    first: DrawnEvent,
    stands: &[DrawnEvent],
    sink: &mut K,
) -> Result<(), PutFailed>
    requires first { first.number < MOST_DRAWN }
    requires numbers { All (λ (s : DrawnEvent). s.number < MOST_DRAWN) stands.now }
    requires near { AreNear first stands.now }
    ensures { Puts (K.state sink.old) (K.state sink.new) (steps_text (step_edges first stands.now)) result }
{
    let mut before = first;
    for stand in stands {
        put_step(before, *stand, sink)?;
        before = *stand;
    }
    Ok(())
}

// Puts the edges that keep all events apart, each with a comma after it.
fn put_steps<K: Sink>(stands: &[DrawnEvent], sink: &mut K) -> Result<(), PutFailed>
    requires some { 1 ≤ length stands.now }
    requires numbers { All (λ (s : DrawnEvent). s.number < MOST_DRAWN) stands.now }
    requires near { StandNear stands.now }
    ensures { Puts (K.state sink.old) (K.state sink.new) (steps_text (steps_of stands.now)) result }
{
    put_steps_after(stands[0], &stands[1..], sink)
}

// Puts the edge for what the row demands.
fn put_demand<K: Sink>(
    stands: &[DrawnEvent],
    from: EventId,
    to: EventId,
    range: Range,
    sink: &mut K,
) -> Result<(), PutFailed>
    requires numbers { All (λ (s : DrawnEvent). s.number < MOST_DRAWN) stands.now }
    ensures { Puts (K.state sink.old) (K.state sink.new) (quoted (demand_edge stands.now from to range)) result }
{
    let tail = number_of(stands, from);
    let head = number_of(stands, to);
    let from_mark = mark_at(tail);
    let to_mark = mark_at(head);
    put_edge(from_mark, to_mark, Kind::Req, range, sink)
}

// Puts the list of lanes.
fn put_signal<K: Sink>(
    names: &DrawnNetwork,
    stands: &[DrawnEvent],
    sink: &mut K,
) -> Result<(), PutFailed>
    requires some { 1 ≤ length stands.now }
    requires stand { All (IsStand names.now.net.events) stands.now }
    ensures { Puts (K.state sink.old) (K.state sink.new) (codes "{\"signal\":["
        ++ with_commas (map (λ (s : DrawnEvent). lane_text (lane_of (name_of names.now) s)) stands.now)) result }
{
    sink.put(b"{\"signal\":[")?;
    put_lanes(names, stands, sink)
}

// Puts all edges.
fn put_edges<K: Sink>(
    stands: &[DrawnEvent],
    from: EventId,
    to: EventId,
    range: Range,
    sink: &mut K,
) -> Result<(), PutFailed>
    requires some { 1 ≤ length stands.now }
    requires numbers { All (λ (s : DrawnEvent). s.number < MOST_DRAWN) stands.now }
    requires near { StandNear stands.now }
    ensures { Puts (K.state sink.old) (K.state sink.new)
        (steps_text (steps_of stands.now) ++ quoted (demand_edge stands.now from to range)) result }
{
    put_steps(stands, sink)?;
    put_demand(stands, from, to, range, sink)
}

// Puts the list of edges, without its end.
fn put_edge_list<K: Sink>(
    stands: &[DrawnEvent],
    from: EventId,
    to: EventId,
    range: Range,
    sink: &mut K,
) -> Result<(), PutFailed>
    requires some { 1 ≤ length stands.now }
    requires numbers { All (λ (s : DrawnEvent). s.number < MOST_DRAWN) stands.now }
    requires near { StandNear stands.now }
    ensures { Puts (K.state sink.old) (K.state sink.new) (codes "],\"edge\":["
        ++ (steps_text (steps_of stands.now) ++ quoted (demand_edge stands.now from to range))) result }
{
    sink.put(b"],\"edge\":[")?;
    put_edges(stands, from, to, range, sink)
}

// Puts the list of edges, and the end of the drawing.
fn put_tail<K: Sink>(
    stands: &[DrawnEvent],
    from: EventId,
    to: EventId,
    range: Range,
    sink: &mut K,
) -> Result<(), PutFailed>
    requires some { 1 ≤ length stands.now }
    requires numbers { All (λ (s : DrawnEvent). s.number < MOST_DRAWN) stands.now }
    requires near { StandNear stands.now }
    ensures { Puts (K.state sink.old) (K.state sink.new) ((codes "],\"edge\":["
        ++ (steps_text (steps_of stands.now) ++ quoted (demand_edge stands.now from to range))) ++ codes "]}\n") result }
{
    put_edge_list(stands, from, to, range, sink)?;
    sink.put(b"]}\n")
}

/// Writes the drawing of the drawn events, with what a row demands of two of them.
pub fn put_sketch<K: Sink>(
    names: &DrawnNetwork,
    stands: &[DrawnEvent],
    from: EventId,
    to: EventId,
    range: Range,
    sink: &mut K,
) -> Result<(), PutFailed>
    requires some { 1 ≤ length stands.now }
    requires stand { All (IsStand names.now.net.events) stands.now }
    requires numbers { All (λ (s : DrawnEvent). s.number < MOST_DRAWN) stands.now }
    requires near { StandNear stands.now }
    ensures puts { Puts (K.state sink.old) (K.state sink.new)
        (sketch_text (sketch_of (name_of names.now) from to range stands.now)) result }
{
    put_signal(names, stands, sink)?;
    put_tail(stands, from, to, range, sink)
}
