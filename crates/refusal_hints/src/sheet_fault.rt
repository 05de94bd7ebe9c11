//! Why a drawing is not a sheet.

use crate::edge::Edge;
use crate::grades_fault::{put_grade_missing, put_parameter_missing};
use crate::hint::Hint;
use crate::lanes::{
    begin_at_node, drawing_of, lane_at, last_place, name_of, node_of, put_all_marks, put_lane,
};
use crate::source::Source;
use itv_base::NoMemory;
use json_places::Step;
use netlist::Netlist;
use serde_json::Value;
use sheet::SheetFault;
use wavejson::Diagram;

/// A sheet that is refused: its file and the tree of it, and the netlist that names it, if one does.
#[derive(Clone, Copy)]
pub struct RefusedSheet<'a> {
    pub source: Source<'a>,
    pub tree: &'a Value,
    pub netlist: Option<&'a Netlist>,
}

impl RefusedSheet<'_> {
    // In a sheet alone labels are of version 1.
    fn version(&self) -> u32 {
        match self.netlist {
            Some(netlist) => netlist.version(),
            None => 1,
        }
    }
}

/// Why a sheet is refused.
pub fn put_sheet_fault(hint: &mut Hint, sheet: RefusedSheet<'_>, fault: SheetFault) {
    match fault {
        SheetFault::BadNode(_) | SheetFault::DoubleMark(_) | SheetFault::DoublePin(_) => {
            put_drawing_fault(hint, sheet, fault)
        }
        SheetFault::NoGrade => put_grade_missing(hint, sheet),
        SheetFault::BadEdge(n)
        | SheetFault::Label(n, _)
        | SheetFault::NoMark(n, _)
        | SheetFault::TooManyCauses(n)
        | SheetFault::NoParam(n) => put_edge_fault(hint, sheet, n, fault),
        SheetFault::NoMemory => hint.cut(),
    }
}

// Why a lane of the drawing is refused.
fn put_drawing_fault(hint: &mut Hint, sheet: RefusedSheet<'_>, fault: SheetFault) {
    if let Some(diagram) = drawing_of(hint.alloc(), sheet.tree) {
        put_lane_fault(hint, sheet.source, &diagram, fault);
        drop(diagram);
    }
}

// Why a lane is refused.
fn put_lane_fault(hint: &mut Hint, source: Source<'_>, diagram: &Diagram, fault: SheetFault) {
    match fault {
        SheetFault::BadNode(lane) => put_node_refused(hint, source, diagram, lane),
        SheetFault::DoubleMark(mark) => put_mark_refused(hint, source, diagram, mark),
        SheetFault::DoublePin(lane) => put_pin_refused(hint, source, diagram, lane),
        _ => {}
    }
}

fn put_node_refused(hint: &mut Hint, source: Source<'_>, diagram: &Diagram, lane: u64) {
    let node = match lane_at(diagram, lane) {
        Some(lane) => node_of(lane),
        None => "",
    };
    let place = node
        .chars()
        .position(|c| !is_node_character(c))
        .unwrap_or(0);
    begin_at_node(hint, source, lane, place);
    hint.put("the node of ");
    put_lane(hint, diagram, lane);
    hint.put(" has '");
    hint.put_character(node.chars().nth(place).unwrap_or('?'));
    hint.put("': a mark is one visible character of ASCII; . or a space is a place without a mark");
}

fn is_node_character(c: char) -> bool {
    c == ' ' || c.is_ascii_graphic()
}

fn put_mark_refused(hint: &mut Hint, source: Source<'_>, diagram: &Diagram, mark: u8) {
    let (lane, place) = last_place(diagram, mark).unwrap_or((0, 0));
    begin_at_node(hint, source, lane, place);
    hint.put("the mark ");
    hint.put_mark(mark);
    hint.put(" is used twice, on ");
    put_lanes_with(hint, diagram, mark);
    hint.put(": rename one");
}

// Puts the lanes that have a mark.
fn put_lanes_with(hint: &mut Hint, diagram: &Diagram, mark: u8) {
    let count = count_lanes_with(diagram, mark);
    let mut k = 0u64;
    for lane in 0..diagram.lanes().len() {
        if has_mark(diagram, lane, mark) {
            put_lane_name(hint, diagram, lane, k, count);
            k = k.saturating_add(1);
        }
    }
}

fn count_lanes_with(diagram: &Diagram, mark: u8) -> u64 {
    let mut count = 0u64;
    for lane in 0..diagram.lanes().len() {
        if has_mark(diagram, lane, mark) {
            count = count.saturating_add(1);
        }
    }
    count
}

fn has_mark(diagram: &Diagram, lane: u64, mark: u8) -> bool {
    match lane_at(diagram, lane) {
        Some(lane) => node_of(lane).bytes().any(|b| b == mark),
        None => false,
    }
}

// Puts a lane as name k of so many.
fn put_lane_name(hint: &mut Hint, diagram: &Diagram, lane: u64, k: u64, count: u64) {
    let mut name = Hint::new(hint.alloc());
    put_lane(&mut name, diagram, lane);
    match name.end() {
        Ok(name) => {
            hint.put_name(k, count, name.as_str());
            drop(name);
        }
        Err(NoMemory) => hint.cut(),
    }
}

fn put_pin_refused(hint: &mut Hint, source: Source<'_>, diagram: &Diagram, lane: u64) {
    let name = match lane_at(diagram, lane) {
        Some(lane) => name_of(lane),
        None => "",
    };
    source.begin_at_value(
        hint,
        &[Step::Key("signal"), Step::Object(lane), Step::Key("name")],
    );
    hint.put("lane ");
    hint.put_number(lane);
    hint.put(" has the name ");
    hint.put_quoted(name);
    hint.put(" of an earlier lane, and both have marks: rename one");
}

// Why an edge is refused.
fn put_edge_fault(hint: &mut Hint, sheet: RefusedSheet<'_>, n: u64, fault: SheetFault) {
    let edge = Edge::of(sheet.source, sheet.tree, "edge", n);
    match fault {
        SheetFault::BadEdge(_) => edge.put_wrong(
            hint,
            "an edge starts with two marks and an arrow between them, such as a->b",
        ),
        SheetFault::Label(_, fault) => edge.put_label_refused(hint, 1, sheet.version(), fault),
        SheetFault::NoMark(_, mark) => put_no_mark(hint, sheet.tree, edge, mark),
        SheetFault::NoParam(_) => put_parameter_missing(hint, sheet, edge),
        SheetFault::TooManyCauses(_) => edge.put_wrong(hint, TOO_MANY_CAUSES),
        _ => {}
    }
}

/// What is said of a cause too many.
pub const TOO_MANY_CAUSES: &str =
    "this would be the 65th cause of one rule: let some causes go to a mark of their own, and that mark to this one";

// An edge names a mark that is not there.
fn put_no_mark(hint: &mut Hint, tree: &Value, edge: Edge<'_>, mark: u8) {
    edge.begin_at(hint, mark_place(edge.text, mark));
    hint.put("no lane has the mark ");
    hint.put_mark(mark);
    hint.put(" in its node; ");
    put_marks_in(hint, tree);
}

// The place of a mark that is one of the two ends of an arrow, which are its first and its last character.
fn mark_place(text: &str, mark: u8) -> u64 {
    if text.bytes().next() == Some(mark) {
        return 0;
    }
    let (arrow, _) = text.split_once(' ').unwrap_or((text, ""));
    arrow.chars().count().saturating_sub(1) as u64
}

// Puts which marks the drawing of a tree has, if it is one.
fn put_marks_in(hint: &mut Hint, tree: &Value) {
    match drawing_of(hint.alloc(), tree) {
        Some(diagram) => {
            put_all_marks(hint, &diagram);
            drop(diagram);
        }
        None => hint.put_what(0, "mark", "marks"),
    }
}
