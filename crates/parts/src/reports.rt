//! Reports that are read and written again.

use crate::out::Out;
use crate::writing::{bytes_of, put_bytes};
use itv_base::SinkMem;
use line_words::LineBuffer;
use slack_report::{Item, Items, LINE_ROOM, ReportFault, read_report, write_item};
use std::alloc::Global;

/// Reads a report, and writes its lines with their numbers, or the line of its fault. The subject is the text of the report. The row says what is
/// read: `again ROOM` the text, written by a buffer with this room; `puts ROOM` the same by sinks whose second put fails; `line N TEXT` the text
/// with another line in place of line N; `front N` its first N bytes; `more TEXT` the text with this text after it; `text TEXT` this text alone.
pub fn report(alloc: Global, subject: &str, row: &str, out: &mut Out) {
    let (what, rest) = row.split_once(' ').unwrap_or(("again", ""));
    match what {
        "again" => again(alloc, subject.as_bytes(), rest, false, out),
        "puts" => again(alloc, subject.as_bytes(), rest, true, out),
        _ => changed(alloc, subject, what, rest, out),
    }
}

// Reads a text once more, with this room.
fn again(alloc: Global, bytes: &[u8], room: &str, is_failing: bool, out: &mut Out) {
    match room.parse::<u32>() {
        Ok(room) => put_report(alloc, bytes, room, is_failing, out),
        Err(_) => out.refuse(),
    }
}

// Reads a text that was changed.
fn changed(alloc: Global, subject: &str, what: &str, rest: &str, out: &mut Out) {
    match change_of(alloc, subject, what, rest) {
        Some(bytes) => {
            put_report(alloc, &bytes, LINE_ROOM, false, out);
            drop(bytes);
        }
        None => out.refuse(),
    }
}

fn change_of(alloc: Global, subject: &str, what: &str, rest: &str) -> Option<Vec<u8>> {
    match what {
        "line" => with_line(alloc, subject, rest),
        "front" => front_of(alloc, subject, rest),
        "more" => with_more(alloc, subject, rest),
        _ => bytes_of(alloc, rest),
    }
}

// A text with another line in place of the line with a number, counted from 1.
fn with_line(alloc: Global, text: &str, row: &str) -> Option<Vec<u8>> {
    let (number, line) = row.split_once(' ')?;
    let number = number.parse::<usize>().ok()?;
    let mut whole = Vec::new(alloc);
    for (k, old) in text.lines().enumerate() {
        let is_other = k == number.saturating_sub(1);
        push_line(&mut whole, if is_other { line } else { old })?;
    }
    Some(whole)
}

fn push_line(whole: &mut Vec<u8>, line: &str) -> Option<()> {
    whole.extend_from_slice(line.as_bytes()).ok()?;
    whole.push(b'\n').ok()
}

// So many first bytes of a text.
fn front_of(alloc: Global, text: &str, count: &str) -> Option<Vec<u8>> {
    let front = text.as_bytes().get(..count.parse::<usize>().ok()?)?;
    Vec::from_slice(alloc, front).ok()
}

// A text with another after it.
fn with_more(alloc: Global, text: &str, more: &str) -> Option<Vec<u8>> {
    let mut whole = Vec::from_slice(alloc, text.as_bytes()).ok()?;
    whole.extend_from_slice(&bytes_of(alloc, more)?).ok()?;
    Some(whole)
}

// Reads a report, and writes its lines.
fn put_report(alloc: Global, bytes: &[u8], room: u32, is_failing: bool, out: &mut Out) {
    match read_report(alloc, bytes) {
        Ok(report) => {
            put_items(alloc, report.items(), room, is_failing, out);
            drop(report);
        }
        Err(ReportFault::Line(line)) => {
            out.put("refused at line ");
            out.put_count(line);
        }
        Err(ReportFault::NoMemory) => out.refuse(),
    }
}

// Writes lines with their numbers.
fn put_items(alloc: Global, items: &Items, room: u32, is_failing: bool, out: &mut Out) {
    for k in 0..items.len() {
        let (item, line) = items.get(k);
        out.put_count(line);
        out.put(" ");
        put_item(alloc, &item, room, is_failing, out);
    }
}

// Writes a line, or that a put of it failed.
fn put_item(alloc: Global, item: &Item<'_>, room: u32, is_failing: bool, out: &mut Out) {
    match LineBuffer::new(alloc, room) {
        Ok(mut buffer) => {
            put_by(alloc, item, &mut buffer, is_failing, out);
            drop(buffer);
        }
        Err(_) => out.refuse(),
    }
}

// The same by a buffer.
fn put_by(
    alloc: Global,
    item: &Item<'_>,
    buffer: &mut LineBuffer,
    is_failing: bool,
    out: &mut Out,
) {
    match SinkMem::new(alloc, 2000) {
        Ok(mut sink) => {
            if is_failing {
                sink.fail_call(1);
            }
            put_through(item, buffer, &mut sink, out);
            drop(sink);
        }
        Err(_) => out.refuse(),
    }
}

fn put_through(item: &Item<'_>, buffer: &mut LineBuffer, sink: &mut SinkMem, out: &mut Out) {
    match write_item(item, buffer, sink) {
        Ok(()) => put_bytes(sink.bytes(), out),
        Err(_) => out.put("has several puts\n"),
    }
}
