//! The parts of a netlist, and the files of their sheets.

use crate::hint::Hint;
use crate::lanes::{begin_at_node, drawing_of, last_place, name_of, put_marks_of};
use crate::source::{Source, bytes_of};
use itv_base::Shelf;
use json_tree::{list_at, text_at};
use netlist::{Netlist, read_netlist};
use serde_json::Value;
use std::alloc::Global;
use wavejson::Diagram;

/// The tree of a file, if it can be read and is JSON.
pub fn tree_of<H: Shelf>(alloc: Global, name: &str, shelf: &mut H) -> Option<Value> {
    let bytes = bytes_of(alloc, name, shelf)?;
    Value::from_slice(alloc, &bytes).ok()
}

/// The netlist of a file, if it is one.
pub fn netlist_of<H: Shelf>(alloc: Global, name: &str, shelf: &mut H) -> Option<Netlist> {
    let bytes = bytes_of(alloc, name, shelf)?;
    netlist_in(alloc, &bytes)
}

/// The netlist in the bytes of a file, if they are one.
pub fn netlist_in(alloc: Global, bytes: &[u8]) -> Option<Netlist> {
    let tree = Value::from_slice(alloc, bytes).ok()?;
    read_netlist(alloc, &tree).ok()
}

/// Puts that a netlist has no part of a name, and which parts it has.
pub fn put_no_part(hint: &mut Hint, netlist: &Netlist, name: &str) {
    hint.put("there is no part ");
    hint.put_quoted(name);
    hint.put("; ");
    let parts = netlist.parts().as_slice();
    let count = parts.len() as u64;
    hint.put_what(count, "part", "parts");
    for (k, part) in parts.iter().enumerate() {
        hint.put_name(k as u64, count, part.name.as_text());
    }
}

/// Puts which marks a lane has that is named in place of a mark of its part, or nothing if the part has no such lane.
pub fn put_lane_for_mark<H: Shelf>(
    hint: &mut Hint,
    tree: &Value,
    part: &str,
    lane: &str,
    shelf: &mut H,
) {
    if let Some(sheet) = sheet_name(tree, part) {
        put_lane_of(hint, sheet, lane, shelf);
    }
}

/// Begins a line about a mark of the sheet of a name, or about no place if the mark is not found.
pub fn begin_at_mark<H: Shelf>(hint: &mut Hint, sheet: &str, mark: u8, shelf: &mut H) {
    if let Some(bytes) = bytes_of(hint.alloc(), sheet, shelf) {
        let source = Source {
            name: sheet,
            bytes: &bytes,
        };
        begin_at_mark_in(hint, source, mark);
        drop(bytes);
    } else {
        hint.begin();
    }
}

// The same for the sheet of a file.
fn begin_at_mark_in(hint: &mut Hint, source: Source<'_>, mark: u8) {
    if let Some((lane, place)) = mark_in(hint.alloc(), source.bytes, mark) {
        begin_at_node(hint, source, lane, place);
    } else {
        hint.begin();
    }
}

// The lane of a mark, and its place there, in the drawing that these bytes are.
fn mark_in(alloc: Global, bytes: &[u8], mark: u8) -> Option<(u64, usize)> {
    let tree = Value::from_slice(alloc, bytes).ok()?;
    let diagram = drawing_of(alloc, &tree)?;
    last_place(&diagram, mark)
}

// Puts the marks of a lane of the sheet of a name.
fn put_lane_of<H: Shelf>(hint: &mut Hint, sheet: &str, lane: &str, shelf: &mut H) {
    if let Some(tree) = tree_of(hint.alloc(), sheet, shelf) {
        put_lane_in(hint, &tree, lane);
        drop(tree);
    }
}

// Puts the marks of the lane of a name in the drawing of a tree, if there is one.
fn put_lane_in(hint: &mut Hint, tree: &Value, name: &str) {
    if let Some(diagram) = drawing_of(hint.alloc(), tree) {
        put_lane_marks(hint, &diagram, name);
        drop(diagram);
    }
}

// The name of the sheet of a part in the tree of a netlist.
fn sheet_name<'v>(tree: &'v Value, part: &str) -> Option<&'v str> {
    for element in list_at(tree, "parts")? {
        if text_at(element, "name") == Some(part) {
            return text_at(element, "sheet");
        }
    }
    None
}

// Puts the marks of the lane of a name, if there is one.
fn put_lane_marks(hint: &mut Hint, diagram: &Diagram, name: &str) {
    for k in 0..diagram.lanes().len() {
        let lane = diagram.lanes().get(k);
        if name_of(lane) == name && !name.is_empty() {
            hint.put(": ");
            hint.put_short(name);
            hint.put(" is a lane, and ");
            put_marks_of(hint, lane);
            return;
        }
    }
}
