//! Files of edits.

use crate::out::Out;
use crate::writing::{bytes_of, put_range};
use design_reading::open_design;
use drawn_networks::DrawnNetwork;
use drawn_numbers::DrawnNumber;
use itv_base::ShelfMem;
use range_edits::{EditsFault, RangeEdit, Subject, read_edits};
use std::alloc::Global;

/// Writes the edits of a file, or its fault. The row has a number and a text: the file has this text so many times. Each line of the subject is a
/// file of the design: its name, a space and its text. The design is the file `d`.
pub fn edits(alloc: Global, subject: &str, row: &str, out: &mut Out) {
    match drawn_of(alloc, subject) {
        Some(drawn) => {
            put_edits_of(alloc, &drawn, row, out);
            drop(drawn);
        }
        None => out.refuse(),
    }
}

// Writes the edits of the file of a row.
fn put_edits_of(alloc: Global, drawn: &DrawnNetwork, row: &str, out: &mut Out) {
    match repeated(alloc, row) {
        Some(bytes) => {
            put_read(alloc, drawn, &bytes, out);
            drop(bytes);
        }
        None => out.refuse(),
    }
}

// Writes the edits that bytes have for a drawn network, or the fault of the bytes.
fn put_read(alloc: Global, drawn: &DrawnNetwork, bytes: &[u8], out: &mut Out) {
    match read_edits(alloc, drawn, bytes) {
        Ok(edits) => {
            put_edits(edits.as_slice(), out);
            drop(edits);
        }
        Err(EditsFault::Range(line, fault)) => {
            out.put("line ");
            out.put_count(line);
            out.put(": ");
            out.put_shown(&fault);
        }
        Err(fault) => out.put_shown(&fault),
    }
}

/// The drawn network of a subject.
pub fn drawn_of(alloc: Global, subject: &str) -> Option<DrawnNetwork> {
    match ShelfMem::new(alloc) {
        Ok(mut shelf) => {
            let drawn = draw(alloc, subject, &mut shelf);
            drop(shelf);
            drawn
        }
        Err(_) => None,
    }
}

// Puts the files of a subject on a shelf, and draws the design.
fn draw(alloc: Global, subject: &str, shelf: &mut ShelfMem) -> Option<DrawnNetwork> {
    for line in subject.lines() {
        let (name, text) = line.split_once(' ')?;
        shelf.add(alloc, name, text.as_bytes()).ok()?;
    }
    open_design(alloc, "d", shelf).ok()
}

// The bytes of a file, as in `2 set 0.0 [0,1]\n`.
fn repeated(alloc: Global, row: &str) -> Option<Vec<u8>> {
    let (count, text) = row.split_once(' ')?;
    let text = bytes_of(alloc, text)?;
    let mut bytes = Vec::new(alloc);
    for _ in 0..count.parse::<u32>().ok()? {
        bytes.extend_from_slice(&text).ok()?;
    }
    Some(bytes)
}

fn put_edits(edits: &[RangeEdit], out: &mut Out) {
    out.put("edits");
    for edit in edits {
        put_subject(&edit.subject, out);
        out.put(" ");
        put_range(edit.range, out);
    }
}

fn put_subject(subject: &Subject, out: &mut Out) {
    match subject {
        Subject::Cause(name) => {
            put_numbered(" ", u64::from(name.constraint), out);
            put_numbered(".", u64::from(name.cause), out);
        }
        Subject::Number(DrawnNumber::Edge { part, edge }) => {
            out.put(" ");
            out.put(part.as_text());
            put_numbered(" edge ", u64::from(*edge), out);
        }
        Subject::Number(DrawnNumber::Net(net)) => put_numbered(" net ", u64::from(*net), out),
        Subject::Number(DrawnNumber::Wire(wire)) => put_numbered(" wire ", u64::from(*wire), out),
    }
}

fn put_numbered(front: &str, number: u64, out: &mut Out) {
    out.put(front);
    out.put_count(number);
}
