//! Writing a line of a derivation.

ghost use Rattle.itv_base.specs.Outside.{Puts};
ghost use Rattle.falling.specs.declared.line.Reason.TheVariants.{ByEdge, ByLatest};
ghost use Rattle.job_fall.specs.FallText.{fall_line_text};

use certificate::side_letter;
use falling::{FallLine, Reason};
use itoa::Buffer;
use itv_base::{EdgeName, EventId, PutFailed, Sink, number_text, put_all, signed_text};

/// Writes a line of a derivation and its end. A fall by an edge is `fall` with the event, the value in picoseconds and
/// the edge. A fall by a latest constraint is `late` with the event, the value and the number of the constraint. If a
/// put failed, a front of the line was written, and the sink's count of faults rose.
pub fn write_line<K: Sink>(line: FallLine, sink: &mut K) -> Result<(), PutFailed>
    ensures puts { Puts (K.state sink.old) (K.state sink.new) (fall_line_text line) result }
{
    match line.reason {
        Reason::ByEdge(edge) => put_fall(line.event, line.value, edge, sink),
        Reason::ByLatest(constraint) => put_late(line.event, line.value, constraint, sink),
    }
}

// Puts the line of a fall by an edge.
fn put_fall<K: Sink>(
    event: EventId,
    value: i64,
    edge: EdgeName,
    sink: &mut K,
) -> Result<(), PutFailed>
    ensures { Puts (K.state sink.old) (K.state sink.new)
        (fall_line_text (record { event = event; value = value; reason = ByEdge edge })) result }
{
    let mut number = Buffer::new();
    let mut digits = Buffer::new();
    let mut constraint = Buffer::new();
    let mut cause = Buffer::new();
    put_all(
        sink,
        &[
            b"fall ",
            number_text(u64::from(event.0), &mut number).as_bytes(),
            b" ",
            signed_text(value, &mut digits).as_bytes(),
            b" ",
            number_text(u64::from(edge.constraint), &mut constraint).as_bytes(),
            b".",
            number_text(u64::from(edge.cause), &mut cause).as_bytes(),
            side_letter(edge.side),
            b"\n",
        ],
    )
}

// Puts the line of a fall by a latest constraint.
fn put_late<K: Sink>(
    event: EventId,
    value: i64,
    constraint: u32,
    sink: &mut K,
) -> Result<(), PutFailed>
    ensures { Puts (K.state sink.old) (K.state sink.new)
        (fall_line_text (record { event = event; value = value; reason = ByLatest constraint })) result }
{
    let mut number = Buffer::new();
    let mut digits = Buffer::new();
    let mut last = Buffer::new();
    put_all(
        sink,
        &[
            b"late ",
            number_text(u64::from(event.0), &mut number).as_bytes(),
            b" ",
            signed_text(value, &mut digits).as_bytes(),
            b" ",
            number_text(u64::from(constraint), &mut last).as_bytes(),
            b"\n",
        ],
    )
}
