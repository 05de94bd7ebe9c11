//! Writing a line of a proof.

ghost use Rattle.std.specs.Prelude.{◌≡◌, ◌∷◌, map};
ghost use Rattle.std.specs.List.{flat_map};
ghost use Rattle.itv_base.specs.Outside.{Puts};
ghost use Rattle.event_graph.specs.Lines.{lent_line};
ghost use Rattle.event_graph.specs.Proof.{Split};
ghost use Rattle.line_words.specs.Lines.{ended, line_of, spaced};
ghost use Rattle.certificate.specs.Text.{edge_word, proof_line_text, side_letter};

use event_graph::Line;
use itoa::Buffer;
use itv_base::{EdgeName, PutFailed, Side, Sink, number_text, put_all};
use line_words::put_words;

/// The letter of a side, as it is written in the name of an edge.
pub fn side_letter(side: Side) -> &'static [u8]
    ensures letter { result.now ≡ side_letter side }
{
    match side {
        Side::Upper => b"u",
        Side::Lower => b"l",
    }
}

/// Puts a space and an edge. If a put failed, a front of them was put, and the sink's count of faults rose.
pub fn put_edge<K: Sink>(edge: EdgeName, sink: &mut K) -> Result<(), PutFailed>
    ensures puts { Puts (K.state sink.old) (K.state sink.new) (spaced (edge_word edge)) result }
{
    let mut constraint = Buffer::new();
    let mut cause = Buffer::new();
    put_all(
        sink,
        &[
            b" ",
            number_text(u64::from(edge.constraint), &mut constraint).as_bytes(),
            b".",
            number_text(u64::from(edge.cause), &mut cause).as_bytes(),
            side_letter(edge.side),
        ],
    )
}

// Puts a space and an edge, for each edge.
fn put_edges<K: Sink>(edges: &[EdgeName], sink: &mut K) -> Result<(), PutFailed>
    ensures { Puts (K.state sink.old) (K.state sink.new) (flat_map spaced (map edge_word edges.now)) result }
{
    for edge in edges {
        put_edge(*edge, sink)?;
    }
    Ok(())
}

fn put_split<K: Sink>(constraint: u32, sink: &mut K) -> Result<(), PutFailed>
    ensures { Puts (K.state sink.old) (K.state sink.new) (proof_line_text (Split constraint)) result }
{
    let mut digits = Buffer::new();
    put_words(
        b"split",
        &[number_text(u64::from(constraint), &mut digits).as_bytes()],
        sink,
    )
}

// Puts a line of a word and edges.
fn put_edge_line<K: Sink>(word: &[u8], edges: &[EdgeName], sink: &mut K) -> Result<(), PutFailed>
    ensures { Puts (K.state sink.old) (K.state sink.new) (ended (line_of (word.now ∷ map edge_word edges.now))) result }
{
    sink.put(word)?;
    put_edges(edges, sink)?;
    sink.put(b"\n")
}

/// Writes a line of a proof and its line end. If a put failed, a front of it was written, and the sink's count of faults rose.
pub fn write_line<K: Sink>(line: &Line<'_>, sink: &mut K) -> Result<(), PutFailed>
    ensures puts { Puts (K.state sink.old) (K.state sink.new) (proof_line_text (lent_line line.now)) result }
{
    match line {
        Line::Split(constraint) => put_split(*constraint, sink),
        Line::Path(edges) => put_edge_line(b"path", edges, sink),
        Line::Loop(edges) => put_edge_line(b"loop", edges, sink),
    }
}
