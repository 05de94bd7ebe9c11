//! Putting the words of a line of a proof by clauses.

ghost use Rattle.std.specs.Prelude.{◌∷◌, ◌++◌, map};
ghost use Rattle.std.specs.List.{flat_map};
ghost use Rattle.itv_base.specs.Numerals.{number_text, signed_text};
ghost use Rattle.itv_base.specs.Outside.{Puts};
ghost use Rattle.line_words.specs.Lines.{ended, spaced};
ghost use Rattle.certificate.specs.Text.{edge_word, side_letter};
ghost use Rattle.clause_texts.specs.Text.{basis_word, difference_word, step_word};

use certificate::side_letter;
use edge_clauses::{Basis, EventBound, WalkStep};
use event_graph::Edge;
use itoa::Buffer;
use itv_base::{EdgeName, EventId, PutFailed, Side, Sink, number_text, put_all, signed_text};
use line_words::put_spaced;

/// Puts the first word of a line, a space and the number of an event.
pub fn put_named<K: Sink>(name: &[u8], event: EventId, sink: &mut K) -> Result<(), PutFailed>
    ensures { Puts (K.state sink.old) (K.state sink.new) (name.now ++ spaced (number_text event.0)) result }
{
    let mut digits = Buffer::new();
    put_all(
        sink,
        &[
            name,
            b" ",
            number_text(u64::from(event.0), &mut digits).as_bytes(),
        ],
    )
}

/// Puts a space and the value of a bound, in picoseconds.
pub fn put_value<K: Sink>(bound: EventBound, sink: &mut K) -> Result<(), PutFailed>
    ensures { Puts (K.state sink.old) (K.state sink.new) (spaced (signed_text bound.value)) result }
{
    let mut digits = Buffer::new();
    put_spaced(signed_text(bound.value, &mut digits).as_bytes(), sink)
}

/// Puts a space, where a clause comes from, and the end of the line.
pub fn put_basis_end<K: Sink>(basis: Basis, sink: &mut K) -> Result<(), PutFailed>
    ensures { Puts (K.state sink.old) (K.state sink.new) (ended (spaced (basis_word basis))) result }
{
    put_basis(b" ", basis, sink)?;
    sink.put(b"\n")
}

/// Puts each step after a space.
pub fn put_steps<K: Sink>(steps: &[WalkStep], sink: &mut K) -> Result<(), PutFailed>
    ensures { Puts (K.state sink.old) (K.state sink.new) (flat_map spaced (map step_word steps.now)) result }
{
    for step in steps {
        put_step(*step, sink)?;
    }
    Ok(())
}

// Puts a space, the place of a step's edge, and where its clause comes from.
fn put_step<K: Sink>(step: WalkStep, sink: &mut K) -> Result<(), PutFailed>
    ensures { Puts (K.state sink.old) (K.state sink.new) (spaced (step_word step)) result }
{
    put_number(b" ", b"", step.through, sink)?;
    put_basis(b"/", step.basis, sink)
}

// Puts a front, and where a clause comes from.
fn put_basis<K: Sink>(front: &[u8], basis: Basis, sink: &mut K) -> Result<(), PutFailed>
    ensures { Puts (K.state sink.old) (K.state sink.new) (front.now ++ basis_word basis) result }
{
    match basis {
        Basis::ByEdge(edge) => put_edge(front, edge, sink),
        Basis::Either(edge) => put_lettered(front, b"E", edge, sink),
        Basis::ByChoice(constraint) => put_number(front, b"C", constraint, sink),
        Basis::ByKept(clause) => put_number(front, b"K", clause, sink),
    }
}

// Puts a front and the name of an always-edge.
fn put_edge<K: Sink>(front: &[u8], edge: EdgeName, sink: &mut K) -> Result<(), PutFailed>
    ensures { Puts (K.state sink.old) (K.state sink.new) (front.now ++ edge_word edge) result }
{
    put_number(front, b"", edge.constraint, sink)?;
    put_cause(edge.cause, edge.side, sink)
}

// Puts a full stop, the number of a cause and the letter of a side.
fn put_cause<K: Sink>(cause: u32, side: Side, sink: &mut K) -> Result<(), PutFailed>
    ensures { Puts (K.state sink.old) (K.state sink.new) (46 ∷ (number_text cause ++ side_letter side)) result }
{
    let mut digits = Buffer::new();
    put_all(
        sink,
        &[
            b".",
            number_text(u64::from(cause), &mut digits).as_bytes(),
            side_letter(side),
        ],
    )
}

// Puts a front, a letter or none, and a number.
fn put_number<K: Sink>(
    front: &[u8],
    letter: &[u8],
    number: u32,
    sink: &mut K,
) -> Result<(), PutFailed>
    ensures { Puts (K.state sink.old) (K.state sink.new) (front.now ++ (letter.now ++ number_text number)) result }
{
    let mut digits = Buffer::new();
    put_all(
        sink,
        &[
            front,
            letter,
            number_text(u64::from(number), &mut digits).as_bytes(),
        ],
    )
}

/// Puts each edge after a space.
pub fn put_differences<K: Sink>(edges: &[Edge], sink: &mut K) -> Result<(), PutFailed>
    ensures { Puts (K.state sink.old) (K.state sink.new) (flat_map spaced (map difference_word edges.now)) result }
{
    for edge in edges {
        put_difference(*edge, sink)?;
    }
    Ok(())
}

/// Puts a space and an edge.
pub fn put_difference<K: Sink>(edge: Edge, sink: &mut K) -> Result<(), PutFailed>
    ensures { Puts (K.state sink.old) (K.state sink.new) (spaced (difference_word edge)) result }
{
    put_lettered(b" ", b"", edge, sink)
}

// Puts a front, a letter or none, and an edge.
fn put_lettered<K: Sink>(
    front: &[u8],
    letter: &[u8],
    edge: Edge,
    sink: &mut K,
) -> Result<(), PutFailed>
    ensures { Puts (K.state sink.old) (K.state sink.new) (front.now ++ (letter.now ++ difference_word edge)) result }
{
    let mut from = Buffer::new();
    let mut to = Buffer::new();
    let mut weight = Buffer::new();
    put_all(
        sink,
        &[
            front,
            letter,
            number_text(u64::from(edge.from.0), &mut from).as_bytes(),
            b">",
            number_text(u64::from(edge.to.0), &mut to).as_bytes(),
            b":",
            signed_text(edge.weight, &mut weight).as_bytes(),
        ],
    )
}
