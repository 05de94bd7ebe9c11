//! Lines of proofs as texts, and scribes.

ghost use Rattle.std.specs.Prelude.{◌≡◌, ◌∷◌, [], OnErr, OnOk};
ghost use Rattle.itv_base.specs.Outside.{grown};
ghost use Rattle.event_graph.specs.Proof.{Split};
ghost use Rattle.certificate.specs.Text.{proof_text};

use crate::out::Out;
use crate::writing::{bytes_of, put_bytes, put_taken};
use certificate::{LineFault, SinkScribe, TreeScribe, read_line, write_line};
use event_graph::{Line, Scribe, ScribeFailed};
use itv_base::{Sink, SinkMem};
use line_words::{LineBuffer, short_in};
use std::alloc::Global;

/// Writes a line of a proof again, or that the text is none.
pub fn line(alloc: Global, row: &str, out: &mut Out) {
    match bytes_of(alloc, row) {
        Some(bytes) => {
            put_again(alloc, &bytes, out);
            drop(bytes);
        }
        None => out.refuse(),
    }
}

fn put_again(alloc: Global, bytes: &[u8], out: &mut Out) {
    match read_line(alloc, bytes) {
        Ok(line) => {
            put_line(alloc, &line.line(), out);
            drop(line);
        }
        Err(LineFault::BadLine) => out.put("bad line"),
        Err(LineFault::NoMemory) => out.refuse(),
    }
}

/// Writes a line of a proof with its line end.
pub fn put_line(alloc: Global, line: &Line<'_>, out: &mut Out) {
    match SinkMem::new(alloc, 10_000) {
        Ok(mut sink) => {
            put_through(line, &mut sink, out);
            drop(sink);
        }
        Err(_) => out.refuse(),
    }
}

fn put_through(line: &Line<'_>, sink: &mut SinkMem, out: &mut Out) {
    match write_line(line, sink) {
        Ok(()) => put_bytes(sink.bytes(), out),
        Err(_) => out.refuse(),
    }
}

/// Writes the lines of the subject by a scribe whose buffer has this room.
pub fn scribe(alloc: Global, subject: &str, row: &str, out: &mut Out) {
    match buffer_of(alloc, row) {
        Some(mut buffer) => {
            scribe_by(alloc, subject, &mut buffer, out);
            drop(buffer);
        }
        None => out.refuse(),
    }
}

fn buffer_of(alloc: Global, row: &str) -> Option<LineBuffer> {
    LineBuffer::new(alloc, short_in(row)?).ok()
}

// Writes lines to a sink by a scribe with this buffer.
fn scribe_by(alloc: Global, lines: &str, buffer: &mut LineBuffer, out: &mut Out) {
    match SinkMem::new(alloc, 200) {
        Ok(mut sink) => {
            let scribe = &mut SinkScribe {
                buffer,
                sink: &mut sink,
            };
            give_all(alloc, lines, scribe, out);
            put_bytes(sink.bytes(), out);
            drop(sink);
        }
        Err(_) => out.refuse(),
    }
}

fn give_all<S: Scribe>(alloc: Global, lines: &str, scribe: &mut S, out: &mut Out) {
    for line in lines.lines() {
        if !is_taken(alloc, line, scribe) {
            out.refuse();
        }
    }
}

/// Gives the line with this text to a scribe. Whether there is such a line, and the scribe takes it.
pub fn is_taken<S: Scribe>(alloc: Global, text: &str, scribe: &mut S) -> bool {
    match read_line(alloc, text.as_bytes()) {
        Ok(line) => {
            let taken = give(&line.line(), scribe);
            drop(line);
            taken.is_ok()
        }
        Err(_) => false,
    }
}

fn give<S: Scribe>(line: &Line<'_>, scribe: &mut S) -> Result<(), ScribeFailed> {
    match *line {
        Line::Split(constraint) => scribe.split(constraint),
        Line::Path(edges) => scribe.cut_path(edges),
        Line::Loop(edges) => scribe.cut_loop(edges),
    }
}

/// Gives lines to a scribe that keeps four lines and five edges. The row `clear` empties the scribe, and `show` writes what it has.
pub fn tree(alloc: Global, rows: &str, out: &mut Out) {
    match TreeScribe::new(alloc, 4, 5) {
        Ok(mut tree) => {
            keep_all(alloc, &mut tree, rows, out);
            drop(tree);
        }
        Err(_) => out.refuse(),
    }
}

fn keep_all(alloc: Global, tree: &mut TreeScribe, rows: &str, out: &mut Out) {
    for row in rows.lines() {
        match row {
            "clear" => tree.clear(),
            "show" => put_tree(alloc, tree, out),
            _ => out.put(if is_taken(alloc, row, tree) {
                "kept\n"
            } else {
                "refused\n"
            }),
        }
    }
}

/// Writes the lines that a scribe has kept, and their number.
pub fn put_tree(alloc: Global, tree: &TreeScribe, out: &mut Out) {
    for k in 0..tree.len() {
        put_line(alloc, &tree.line(k), out);
    }
}

/// Lends a sink of eight bytes to a scribe for each row, a split, and writes what the sink has then.
pub fn lent(alloc: Global, rows: &str, out: &mut Out) {
    match LineBuffer::new(alloc, 100) {
        Ok(mut buffer) => {
            lend_all(alloc, rows, &mut buffer, out);
            drop(buffer);
        }
        Err(_) => out.refuse(),
    }
}

fn lend_all(alloc: Global, rows: &str, buffer: &mut LineBuffer, out: &mut Out) {
    match SinkMem::new(alloc, 8) {
        Ok(mut sink) => {
            for row in rows.lines() {
                lend(row, buffer, &mut sink, out);
            }
            drop(sink);
        }
        Err(_) => out.refuse(),
    }
}

fn lend(row: &str, buffer: &mut LineBuffer, sink: &mut SinkMem, out: &mut Out) {
    match short_in(row) {
        Some(constraint) => {
            put_taken(split_into(constraint, buffer, sink), out);
            put_bytes(sink.bytes(), out);
        }
        None => out.refuse(),
    }
}

// The scribe's contract alone says what the sink has after a search with the scribe.
fn split_into<K: Sink>(
    constraint: u32,
    buffer: &mut LineBuffer,
    sink: &mut K,
) -> Result<(), ScribeFailed>
    ensures { OnOk result (K.state sink.new ≡ grown (K.state sink.old) (proof_text (Split constraint ∷ []))) }
{
    let mut scribe = SinkScribe { buffer, sink };
    split_once(&mut scribe, constraint)
}

fn split_once<S: Scribe>(scribe: &mut S, constraint: u32) -> Result<(), ScribeFailed>
    ensures grew { OnOk result (S.Grew scribe.old (Split constraint ∷ []) scribe.new) }
    ensures cut { OnErr result (S.WasCut scribe.old (Split constraint ∷ []) scribe.new) }
{
    scribe.split(constraint)
}
