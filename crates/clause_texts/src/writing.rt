//! Writing the lines of a proof by clauses.

ghost use Rattle.std.specs.Prelude.{◌++◌, codes, map};
ghost use Rattle.std.specs.List.{flat_map};
ghost use Rattle.itv_base.specs.Outside.{Puts};
ghost use Rattle.line_words.specs.Lines.{spaced};
ghost use Rattle.edge_clauses.specs.Lines.{Assume, Fall, Know, Loop, Rise};
ghost use Rattle.edge_clauses.specs.Proofs.{line_of, lines_of};
ghost use Rattle.clause_texts.specs.Text.{claim_text, clause_line_text, difference_word, proof_text, step_word, view_text};

use crate::put::{put_basis_end, put_difference, put_differences, put_named, put_steps, put_value};
use edge_clauses::{Basis, EventBound, StoredLine, WalkStep};
use event_graph::Edge;
use falling::View;
use itoa::Buffer;
use itv_base::{EventId, PutFailed, Sink, signed_text};
use line_words::{LineBuffer, put_words};

// How many lines are put at once. A line of a proof mostly has 20 to 30 bytes.
const BATCH: usize = 1_024;

/// Writes a proof by clauses: the view, the claim in picoseconds, and each line. A batch of lines is put at once if it fits the buffer; otherwise each of
/// its lines is put whole, and a line that alone does not fit is put piece by piece. What the buffer held before is lost. If a put failed, a front of the
/// proof was written, and the sink's count of faults rose.
pub fn write_proof<K: Sink>(
    view: View,
    claim: i64,
    lines: &[StoredLine],
    buffer: &mut LineBuffer,
    sink: &mut K,
) -> Result<(), PutFailed>
    ensures puts { Puts (K.state sink.old) (K.state sink.new) (proof_text view claim (lines_of lines.now)) result }
{
    put_view(view, sink)?;
    put_claim(claim, sink)?;
    put_lines(lines, buffer, sink)
}

fn put_view<K: Sink>(view: View, sink: &mut K) -> Result<(), PutFailed>
    ensures { Puts (K.state sink.old) (K.state sink.new) (view_text view) result }
{
    match view {
        View::Plain => sink.put(b"view plain\n"),
        View::Negated => sink.put(b"view negated\n"),
    }
}

fn put_claim<K: Sink>(claim: i64, sink: &mut K) -> Result<(), PutFailed>
    ensures { Puts (K.state sink.old) (K.state sink.new) (claim_text claim) result }
{
    let mut digits = Buffer::new();
    put_words(
        b"claim",
        &[signed_text(claim, &mut digits).as_bytes()],
        sink,
    )
}

// Puts each line with its end, a batch of lines at a time.
fn put_lines<K: Sink>(
    lines: &[StoredLine],
    buffer: &mut LineBuffer,
    sink: &mut K,
) -> Result<(), PutFailed>
    ensures { Puts (K.state sink.old) (K.state sink.new) (flat_map clause_line_text (lines_of lines.now)) result }
{
    for batch in lines.chunks(BATCH) {
        put_batch(batch, buffer, sink)?;
    }
    Ok(())
}

// Puts lines with one put if they fit the buffer together; otherwise puts each by itself.
fn put_batch<K: Sink>(
    lines: &[StoredLine],
    buffer: &mut LineBuffer,
    sink: &mut K,
) -> Result<(), PutFailed>
    ensures { Puts (K.state sink.old) (K.state sink.new) (flat_map clause_line_text (lines_of lines.now)) result }
{
    buffer.clear();
    match write_lines(lines, buffer) {
        Ok(()) => buffer.put_into(sink),
        Err(PutFailed) => put_each(lines, buffer, sink),
    }
}

// Writes each line piece by piece.
fn write_lines<K: Sink>(lines: &[StoredLine], sink: &mut K) -> Result<(), PutFailed>
    ensures { Puts (K.state sink.old) (K.state sink.new) (flat_map clause_line_text (lines_of lines.now)) result }
{
    for line in lines {
        write_clause_line(line, sink)?;
    }
    Ok(())
}

// Puts each line by itself.
fn put_each<K: Sink>(
    lines: &[StoredLine],
    buffer: &mut LineBuffer,
    sink: &mut K,
) -> Result<(), PutFailed>
    ensures { Puts (K.state sink.old) (K.state sink.new) (flat_map clause_line_text (lines_of lines.now)) result }
{
    for line in lines {
        put_line(line, buffer, sink)?;
    }
    Ok(())
}

// Puts a line with one put if it fits the buffer; otherwise puts it piece by piece.
fn put_line<K: Sink>(
    line: &StoredLine,
    buffer: &mut LineBuffer,
    sink: &mut K,
) -> Result<(), PutFailed>
    ensures { Puts (K.state sink.old) (K.state sink.new) (clause_line_text (line_of line.now)) result }
{
    buffer.clear();
    match write_clause_line(line, buffer) {
        Ok(()) => buffer.put_into(sink),
        Err(PutFailed) => write_clause_line(line, sink),
    }
}

/// Writes a line of a proof and its line end. If a put failed, a front of it was written, and the sink's count of faults rose.
pub fn write_clause_line<K: Sink>(line: &StoredLine, sink: &mut K) -> Result<(), PutFailed>
    ensures puts { Puts (K.state sink.old) (K.state sink.new) (clause_line_text (line_of line.now)) result }
{
    match line {
        StoredLine::Fall(bound) => put_fall(*bound, sink),
        StoredLine::Rise(bound) => put_rise(*bound, sink),
        StoredLine::Know(edge, basis) => put_know(*edge, *basis, sink),
        StoredLine::Loop(event, steps, clause) => put_loop(*event, steps, clause, sink),
        StoredLine::Assume(edges) => put_assume(edges, sink),
        StoredLine::Close => sink.put(b"close\n"),
    }
}

fn put_fall<K: Sink>(bound: EventBound, sink: &mut K) -> Result<(), PutFailed>
    ensures { Puts (K.state sink.old) (K.state sink.new) (clause_line_text (Fall bound.event bound.value bound.basis)) result }
{
    put_named(b"fall", bound.event, sink)?;
    put_value(bound, sink)?;
    put_basis_end(bound.basis, sink)
}

fn put_rise<K: Sink>(bound: EventBound, sink: &mut K) -> Result<(), PutFailed>
    ensures { Puts (K.state sink.old) (K.state sink.new) (clause_line_text (Rise bound.event bound.value bound.basis)) result }
{
    put_named(b"rise", bound.event, sink)?;
    put_value(bound, sink)?;
    put_basis_end(bound.basis, sink)
}

fn put_know<K: Sink>(edge: Edge, basis: Basis, sink: &mut K) -> Result<(), PutFailed>
    ensures { Puts (K.state sink.old) (K.state sink.new) (clause_line_text (Know edge basis)) result }
{
    sink.put(b"know")?;
    put_difference(edge, sink)?;
    put_basis_end(basis, sink)
}

fn put_loop<K: Sink>(
    event: EventId,
    steps: &[WalkStep],
    clause: &[Edge],
    sink: &mut K,
) -> Result<(), PutFailed>
    ensures { Puts (K.state sink.old) (K.state sink.new) (clause_line_text (Loop event steps.now clause.now)) result }
{
    put_named(b"loop", event, sink)?;
    put_kept(steps, clause, sink)?;
    sink.put(b"\n")
}

// Puts the steps of a loop, the word `keep` and the clause that is kept, each word after a space.
fn put_kept<K: Sink>(steps: &[WalkStep], clause: &[Edge], sink: &mut K) -> Result<(), PutFailed>
    ensures { Puts (K.state sink.old) (K.state sink.new)
        (flat_map spaced (map step_word steps.now) ++ (spaced (codes "keep") ++ flat_map spaced (map difference_word clause.now))) result }
{
    put_steps(steps, sink)?;
    sink.put(b" keep")?;
    put_differences(clause, sink)
}

fn put_assume<K: Sink>(edges: &[Edge], sink: &mut K) -> Result<(), PutFailed>
    ensures { Puts (K.state sink.old) (K.state sink.new) (clause_line_text (Assume edges.now)) result }
{
    sink.put(b"assume")?;
    put_differences(edges, sink)?;
    sink.put(b"\n")
}
