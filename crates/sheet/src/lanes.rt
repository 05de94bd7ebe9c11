//! The marks on the lanes of a drawing.

ghost use Rattle.std.specs.Prelude.{◌≡◌, ◌+◌, ◌<◌, ◌≤◌, All, length, position, nat_eq, IfOk, OnOk};
ghost use Rattle.std.specs.List.{list_all, list_any};
ghost use Rattle.itv_base.specs.Characters.{is_mark};
ghost use Rattle.sheet.specs.Fault.{is_memory};
ghost use Rattle.itv_base.specs.Reading.{AgreesWith};
ghost use Rattle.sheet.specs.Lanes.{is_node_byte, node_of, has_bad_node, drawn_kind, lane_marks};
ghost use Rattle.sheet.specs.Sheet.{read_marks};
ghost use Rattle.sheet.specs.Step.{AreMarks, with_marks, spans_of};

use crate::fault::SheetFault;
use crate::mark::{MAX_MARKS, Mark, Marks};
use std::alloc::Global;
use wave_string::{MarkKind, kind_at};
use wavejson::{LaneText, Lanes};

/// Which marks of a sheet stand on a lane: `count` marks from number `first` on.
#[derive(Clone, Copy)]
pub struct LaneSpan {
    pub first: u32,
    pub count: u32,
}

/// The marks of a drawing, and which of them stand on each lane.
#[derive(Drop)]
pub struct LaneMarks {
    pub marks: Marks,
    pub spans: Vec<LaneSpan>,
}

/// The marks of all lanes, or the first fault of a node. No character is a mark twice, so at most `MAX_MARKS` marks are read.
pub fn read_marks(alloc: Global, lanes: &Lanes) -> Result<LaneMarks, SheetFault>
    ensures answer { AgreesWith is_memory (λ read. read.marks) result (read_marks lanes.now) }
    ensures few { IfOk result (λ read. length read.marks ≤ MAX_MARKS) }
    ensures spans { IfOk result (λ read. read.spans.items ≡ spans_of lanes.now) }
    ensures within { IfOk result (λ read. All (λ s. s.first + s.count ≤ MAX_MARKS) read.spans.items) }
{
    if let Some(lane) = bad_node(lanes) {
        return Err(SheetFault::BadNode(lane));
    }
    let mut marks = Marks::new(alloc);
    let mut spans = Vec::new(alloc);
    for k in 0..lanes.len() {
        let first = marks.len();
        push_marks(&mut marks, k, lanes.get(k))?;
        spans.push(LaneSpan {
            first: first as u32,
            count: (marks.len() - first) as u32,
        })?;
    }
    Ok(LaneMarks { marks, spans })
}

// The first lane whose node has a character that may not stand there.
fn bad_node(lanes: &Lanes) -> Option<u64>
    ensures { result ≡ position has_bad_node lanes.now }
{
    for k in 0..lanes.len() {
        if has_bad_node(lanes.get(k)) {
            return Some(k);
        }
    }
    None
}

fn has_bad_node(lane: &LaneText) -> bool
    ensures { result ≡ has_bad_node lane.now }
{
    !is_node(node_of(lane))
}

fn is_node(text: &[u8]) -> bool
    ensures { result ≡ list_all is_node_byte text.now }
{
    text.iter().all(|b| is_node_byte(*b))
}

fn is_node_byte(b: u8) -> bool
    ensures { result ≡ is_node_byte b }
{
    b == b' ' || b.is_ascii_graphic()
}

fn is_mark(b: u8) -> bool
    ensures { result ≡ is_mark b }
{
    b.is_ascii_graphic() && b != b'.'
}

fn node_of(lane: &LaneText) -> &[u8]
    ensures { result.now ≡ node_of lane.now }
{
    match &lane.node {
        Some(node) => node.as_text().as_bytes(),
        None => &[],
    }
}

// Puts the marks of a lane at the end, or gives the fault of the first mark that repeats an earlier mark.
fn push_marks(marks: &mut Marks, number: u64, lane: &LaneText) -> Result<(), SheetFault>
    ensures answer { AgreesWith is_memory (λ _. marks.new) result (with_marks marks.old (lane_marks (number, lane.now))) }
    ensures distinct { OnOk result (AreMarks marks.old → AreMarks marks.new) }
{
    let node = node_of(lane);
    for (place, name) in node.iter().enumerate() {
        if !is_mark(*name) {
            continue;
        }
        // Found here, before the next kind is computed: a hostile node has many marks, and finding a kind walks over the wave.
        if has_mark(marks.as_slice(), *name) {
            return Err(SheetFault::DoubleMark(*name));
        }
        let place = place as u64;
        marks.push(Mark {
            lane: number,
            place,
            name: *name,
            kind: drawn_kind(lane, place),
        })?;
    }
    Ok(())
}

fn has_mark(marks: &[Mark], name: u8) -> bool
    ensures { result ≡ list_any (λ mark. nat_eq name mark.name) marks.now }
{
    marks.iter().any(|mark| name == mark.name)
}

// What the wave of a lane draws at a place.
fn drawn_kind(lane: &LaneText, place: u64) -> MarkKind
    ensures { result ≡ drawn_kind lane.now.wave place }
{
    match &lane.wave {
        Some(wave) => kind_at(wave.as_text(), place),
        None => MarkKind::Bare,
    }
}
