//! Wires and labels.

use crate::out::Out;
use crate::writing::{put_bytes, put_range};
use itv_base::SinkMem;
use label_grammar::{
    Kind, Label2, LabelFault, Span, WireText, read_label, read_label2, read_wire, write_label,
};
use std::alloc::Global;

/// Writes the two marks and the label of a wire, or that it is a comment or malformed.
pub fn wire(row: &str, out: &mut Out) {
    match read_wire(row) {
        WireText::Comment => out.put("comment"),
        WireText::Malformed => out.put("malformed"),
        WireText::Timing {
            from_part,
            from_mark,
            to_part,
            to_mark,
            label,
        } => {
            put_mark("from ", from_part, from_mark, out);
            put_mark(", to ", to_part, to_mark, out);
            out.put(", label ");
            out.put(label);
        }
    }
}

// Writes the part and the mark of an end of a wire.
fn put_mark(front: &str, part: &str, mark: u8, out: &mut Out) {
    out.put(front);
    out.put(part);
    out.put(" ");
    out.put_character(mark as char);
}

/// Writes the fault of a label of version 1, or that there is none.
pub fn plain(row: &str, out: &mut Out) {
    out.put(match read_label(row) {
        Ok(_) => "a label",
        Err(fault) => fault_name(fault),
    });
}

/// Writes the fault of a label of version 2, or its kind, its shift, its tag, its span and its note.
pub fn graded(row: &str, out: &mut Out) {
    match read_label2(row) {
        Ok(label) => put_label(&label, out),
        Err(fault) => out.put(fault_name(fault)),
    }
}

/// The name of a fault of a label.
pub fn fault_name(fault: LabelFault) -> &'static str {
    match fault {
        LabelFault::BadLabel => "bad label",
        LabelFault::TooWide => "too wide",
        LabelFault::EmptyRange => "empty range",
    }
}

fn put_label(label: &Label2<'_>, out: &mut Out) {
    out.put(match label.kind {
        Kind::Lin => "lin +",
        Kind::Late => "late +",
        Kind::Early => "early +",
        Kind::Req => "req +",
        Kind::Ask => "ask +",
    });
    out.put_count(u64::from(label.shift));
    out.put(" tag ");
    put_text(label.tag, out);
    out.put(" span ");
    put_span(&label.span, out);
    out.put(" note ");
    put_text(label.note, out);
}

fn put_span(span: &Option<Span<'_>>, out: &mut Out) {
    match span {
        None => out.put("-"),
        Some(Span::Named(name)) => {
            out.put("$");
            out.put(name);
        }
        Some(Span::Fixed(range)) => put_range(*range, out),
    }
}

// Writes a text in quotes, or a hyphen if there is none.
fn put_text(text: Option<&str>, out: &mut Out) {
    match text {
        Some(text) => {
            out.put("'");
            out.put(text);
            out.put("'");
        }
        None => out.put("-"),
    }
}

/// Writes a label to a sink with this room, for a row as in `12 @lin [0,250]`: what the sink has then, and whether the label is whole.
pub fn written(alloc: Global, row: &str, out: &mut Out) {
    match row.split_once(' ') {
        Some((room, text)) => write_within(alloc, room, text, out),
        None => out.refuse(),
    }
}

fn write_within(alloc: Global, room: &str, text: &str, out: &mut Out) {
    match sink_of(alloc, room) {
        Some(mut sink) => {
            put_written(text, &mut sink, out);
            drop(sink);
        }
        None => out.refuse(),
    }
}

fn sink_of(alloc: Global, room: &str) -> Option<SinkMem> {
    SinkMem::new(alloc, room.parse::<u32>().ok()?).ok()
}

fn put_written(text: &str, sink: &mut SinkMem, out: &mut Out) {
    match read_label(text) {
        Ok(label) => {
            let is_whole = write_label(&label, sink).is_ok();
            put_bytes(sink.bytes(), out);
            out.put(if is_whole { ", whole" } else { ", cut" });
        }
        Err(_) => out.refuse(),
    }
}
