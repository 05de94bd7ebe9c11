//! The rows of a matrix. Each line is gathered before it is put.

ghost use Rattle.std.specs.Prelude.{◌≡◌, ◌<◌, [], length, map, slice_index_or};
ghost use Rattle.std.specs.List.{flat_map};
ghost use Rattle.itv_base.specs.Numerals.{end_text};
ghost use Rattle.itv_base.specs.Outside.{Puts};
ghost use Rattle.line_words.specs.Lines.{spaced};
ghost use Rattle.minplus.specs.Matrix.{IsSquare, entry_of};
ghost use Rattle.job_base.specs.Events.{event_of};
ghost use Rattle.job_matrix.specs.Matrix.{row_text};
ghost use Rattle.job_matrix.specs.Step.{entries_of, numbers_of};

use itoa::Buffer;
use itv_base::{EventId, PutFailed, Sink, end_text};
use line_words::{LineBuffer, put_spaced};
use minplus::Matrix;

// Puts a space and the entry of a pair of events.
fn put_entry<K: Sink>(matrix: &Matrix, from: u32, to: u32, sink: &mut K) -> Result<(), PutFailed>
    requires from { from < length matrix.now }
    requires to { to < length (slice_index_or matrix.now from []) }
    ensures { Puts (K.state sink.old) (K.state sink.new)
        (spaced (end_text (entry_of matrix.now (event_of from) (event_of to)))) result }
{
    let mut digits = Buffer::new();
    let entry = matrix.at(EventId(from), EventId(to));
    put_spaced(end_text(entry, &mut digits).as_bytes(), sink)
}

// Puts a space and an entry for each event.
fn put_entries<K: Sink>(
    matrix: &Matrix,
    from: u32,
    count: u32,
    sink: &mut K,
) -> Result<(), PutFailed>
    requires from { from < length matrix.now }
    requires count { count ≡ length (slice_index_or matrix.now from []) }
    ensures { Puts (K.state sink.old) (K.state sink.new)
        (flat_map spaced (map end_text (numbers_of (slice_index_or matrix.now from [])))) result }
{
    for to in 0..count {
        put_entry(matrix, from, to, sink)?;
    }
    Ok(())
}

// Puts the line of a row, piece by piece.
fn put_row<K: Sink>(matrix: &Matrix, from: u32, count: u32, sink: &mut K) -> Result<(), PutFailed>
    requires from { from < length matrix.now }
    requires count { count ≡ length (slice_index_or matrix.now from []) }
    ensures { Puts (K.state sink.old) (K.state sink.new)
        (row_text (numbers_of (slice_index_or matrix.now from []))) result }
{
    sink.put(b"row")?;
    put_entries(matrix, from, count, sink)?;
    sink.put(b"\n")
}

// Writes the line of a row. It is one put if the line fits the buffer, and otherwise a put for each piece.
fn write_row<K: Sink>(
    matrix: &Matrix,
    from: u32,
    count: u32,
    buffer: &mut LineBuffer,
    sink: &mut K,
) -> Result<(), PutFailed>
    requires from { from < length matrix.now }
    requires count { count ≡ length (slice_index_or matrix.now from []) }
    ensures { Puts (K.state sink.old) (K.state sink.new)
        (row_text (numbers_of (slice_index_or matrix.now from []))) result }
{
    buffer.clear();
    match put_row(matrix, from, count, buffer) {
        Ok(()) => buffer.put_into(sink),
        Err(PutFailed) => put_row(matrix, from, count, sink),
    }
}

/// Writes the rows of a matrix over `count` events.
pub fn put_rows<K: Sink>(
    matrix: &Matrix,
    count: u32,
    buffer: &mut LineBuffer,
    sink: &mut K,
) -> Result<(), PutFailed>
    requires square { IsSquare count matrix.now }
    ensures { Puts (K.state sink.old) (K.state sink.new) (flat_map row_text (entries_of matrix.now)) result }
{
    for from in 0..count {
        write_row(matrix, from, count, buffer, sink)?;
    }
    Ok(())
}
