//! The lanes and the marks of a drawing.

use crate::hint::Hint;
use crate::source::Source;
use itv_base::is_mark;
use json_places::Step;
use serde_json::Value;
use std::alloc::Global;
use wavejson::{Diagram, LaneText, read_diagram};

/// The drawing of a tree, if it is one.
pub fn drawing_of(alloc: Global, tree: &Value) -> Option<Diagram> {
    read_diagram(alloc, tree).ok()
}

/// Lane k of a drawing, if it is there.
pub fn lane_at(diagram: &Diagram, k: u64) -> Option<&LaneText> {
    if k < diagram.lanes().len() {
        Some(diagram.lanes().get(k))
    } else {
        None
    }
}

/// The name of a lane, or an empty text.
pub fn name_of(lane: &LaneText) -> &str {
    match &lane.name {
        Some(name) => name.as_text(),
        None => "",
    }
}

/// The `node` of a lane, or an empty text.
pub fn node_of(lane: &LaneText) -> &str {
    match &lane.node {
        Some(node) => node.as_text(),
        None => "",
    }
}

/// Begins a line about a place in the node of a lane.
pub fn begin_at_node(hint: &mut Hint, source: Source<'_>, lane: u64, place: usize) {
    let way = [Step::Key("signal"), Step::Object(lane), Step::Key("node")];
    source.begin_at_character(hint, &way, place as u64);
}

/// The last lane with a mark, and the last place of the mark on it, if a lane has it.
pub fn last_place(diagram: &Diagram, mark: u8) -> Option<(u64, usize)> {
    let mut last = None;
    for lane in 0..diagram.lanes().len() {
        for (place, byte) in node_of(diagram.lanes().get(lane)).bytes().enumerate() {
            if byte == mark {
                last = Some((lane, place));
            }
        }
    }
    last
}

/// Puts lane k, as `lane 2 'DQ'`, or `lane 2` if it has no name.
pub fn put_lane(hint: &mut Hint, diagram: &Diagram, k: u64) {
    let name = match lane_at(diagram, k) {
        Some(lane) => name_of(lane),
        None => "",
    };
    hint.put("lane ");
    hint.put_number(k);
    if !name.is_empty() {
        hint.put(" ");
        hint.put_quoted(name);
    }
}

/// Puts which marks a lane has.
pub fn put_marks_of(hint: &mut Hint, lane: &LaneText) {
    let count = count_marks(lane);
    hint.put_what(count, "mark", "marks");
    put_marks(hint, lane, 0, count);
}

/// Puts which marks a drawing has, lane by lane.
pub fn put_all_marks(hint: &mut Hint, diagram: &Diagram) {
    let count = count_all_marks(diagram);
    hint.put_what(count, "mark", "marks");
    let mut k = 0;
    for lane in 0..diagram.lanes().len() {
        k = put_marks(hint, diagram.lanes().get(lane), k, count);
    }
}

fn count_all_marks(diagram: &Diagram) -> u64 {
    let mut count = 0u64;
    for lane in 0..diagram.lanes().len() {
        count = count.saturating_add(count_marks(diagram.lanes().get(lane)));
    }
    count
}

fn count_marks(lane: &LaneText) -> u64 {
    let mut count = 0u64;
    for byte in node_of(lane).bytes() {
        if is_mark(byte) {
            count = count.saturating_add(1);
        }
    }
    count
}

// Puts the marks of a lane in a list of so many marks, from mark k of the list on. The number of the mark after them.
fn put_marks(hint: &mut Hint, lane: &LaneText, k: u64, count: u64) -> u64 {
    let mut next = k;
    for byte in node_of(lane).bytes() {
        if is_mark(byte) {
            hint.put_marked(next, count, byte);
            next = next.saturating_add(1);
        }
    }
    next
}
