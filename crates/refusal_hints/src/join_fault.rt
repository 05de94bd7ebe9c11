//! Why a netlist and its sheets make no design.

use crate::edge::Edge;
use crate::hint::Hint;
use crate::part::put_no_part;
use crate::sheet_fault::TOO_MANY_CAUSES;
use crate::source::Source;
use compose::{JoinFault, SheetKey};
use design_plan::Plan;
use itv_base::NoMemory;
use json_places::Step;
use label_grammar::{WireText, read_wire};
use netlist::{Part, PinText};
use sheet::{Mark, Pin, Sheet};
use wave_string::MarkKind;

/// Why the netlist of a file and the sheets of its plan make no design.
pub fn put_join_fault(hint: &mut Hint, source: Source<'_>, plan: &Plan, fault: JoinFault) {
    match fault {
        JoinFault::NoPart(net, pin) => put_part_fault(hint, source, plan, net, pin),
        JoinFault::NoPin(net, pin) => put_pin_fault(hint, source, plan, net, pin),
        JoinFault::MarkCounts(net, pin, _, _) => put_counts_fault(hint, source, plan, net, pin),
        JoinFault::KindsDiffer(net, pin, mark) => {
            put_kinds_fault(hint, source, plan, net, pin, mark)
        }
        JoinFault::WireNoPart(n) => put_wire_part_fault(hint, plan, wire_at(source, plan, n)),
        JoinFault::WireNoMark(n) => put_wire_mark_fault(hint, plan, wire_at(source, plan, n)),
        JoinFault::TooManyCauses(n) => wire_at(source, plan, n).put_wrong(hint, TOO_MANY_CAUSES),
        JoinFault::NoMemory => hint.cut(),
    }
}

// ---- pins

// A pin as a net names it.
fn pin_at(plan: &Plan, net: u64, pin: u64) -> Option<&PinText> {
    let net = plan.netlist().nets().as_slice().get(net as usize)?;
    net.pins().as_slice().get(pin as usize)
}

// A pin of a net is of a part that is not there.
fn put_part_fault(hint: &mut Hint, source: Source<'_>, plan: &Plan, net: u64, pin: u64) {
    if let Some(text) = pin_at(plan, net, pin) {
        begin_at_pin(hint, source, net, pin);
        put_pin(hint, net, text);
        put_no_part(hint, plan.netlist(), text.part.as_text());
    }
}

// A pin of a net is not a lane with a mark.
fn put_pin_fault(hint: &mut Hint, source: Source<'_>, plan: &Plan, net: u64, pin: u64) {
    if let Some(text) = pin_at(plan, net, pin) {
        begin_at_pin(hint, source, net, pin);
        put_pin(hint, net, text);
        put_no_lane(hint, plan, text);
    }
}

// Begins a line about a pin of a net.
fn begin_at_pin(hint: &mut Hint, source: Source<'_>, net: u64, pin: u64) {
    source.begin_at_value(
        hint,
        &[
            Step::Key("nets"),
            Step::Item(net),
            Step::Key("pins"),
            Step::Item(pin),
        ],
    );
}

// A pin of a net, before what is said of it.
fn put_pin(hint: &mut Hint, net: u64, text: &PinText) {
    put_net(hint, net);
    hint.put(", pin ");
    put_lane(hint, text);
    hint.put(": ");
}

fn put_net(hint: &mut Hint, net: u64) {
    hint.put("net ");
    hint.put_number(net);
}

// The lane of a part.
fn put_lane(hint: &mut Hint, text: &PinText) {
    hint.put(text.part.as_text());
    hint.put(".");
    hint.put_short(text.lane.as_text());
}

// The part of a name.
fn part_named<'a>(plan: &'a Plan, name: &str) -> Option<&'a Part> {
    let parts = plan.netlist().parts().as_slice();
    parts.iter().find(|part| part.name.as_text() == name)
}

// The sheet of the part of a name.
fn sheet_named<'a>(hint: &mut Hint, plan: &'a Plan, name: &str) -> Option<&'a Sheet> {
    let part = part_named(plan, name)?;
    match SheetKey::of(hint.alloc(), part) {
        Ok(key) => {
            let sheet = plan.sheets().get(&key);
            drop(key);
            sheet
        }
        Err(NoMemory) => {
            hint.cut();
            None
        }
    }
}

// A part has no lane of a name with a mark.
fn put_no_lane(hint: &mut Hint, plan: &Plan, text: &PinText) {
    let part = text.part.as_text();
    hint.put("part ");
    hint.put(part);
    hint.put(" has no lane ");
    hint.put_quoted(text.lane.as_text());
    hint.put(" with a mark; ");
    let pins = match sheet_named(hint, plan, part) {
        Some(sheet) => sheet.pins().as_slice(),
        None => &[],
    };
    put_pins(hint, pins);
}

fn put_pins(hint: &mut Hint, pins: &[Pin]) {
    let count = pins.len() as u64;
    hint.put_what(count, "lane with a mark", "lanes with marks");
    for (k, pin) in pins.iter().enumerate() {
        hint.put_name(k as u64, count, pin.name.as_text());
    }
}

// The marks of a lane: those of a sheet whose lane has this number.
#[derive(Clone, Copy)]
struct LaneMarks<'a> {
    marks: &'a [Mark],
    lane: u64,
}

impl LaneMarks<'_> {
    fn count(self) -> u64 {
        let mut count = 0u64;
        for mark in self.marks {
            if mark.lane == self.lane {
                count = count.saturating_add(1);
            }
        }
        count
    }

    // Mark k of the lane, counted from 0.
    fn at(self, k: u64) -> Option<Mark> {
        let mut number = 0u64;
        for mark in self.marks {
            if mark.lane == self.lane {
                if number == k {
                    return Some(*mark);
                }
                number = number.saturating_add(1);
            }
        }
        None
    }
}

// The marks of a pin, in the order in which they are drawn.
fn marks_of<'a>(hint: &mut Hint, plan: &'a Plan, text: &PinText) -> LaneMarks<'a> {
    match sheet_named(hint, plan, text.part.as_text()) {
        Some(sheet) => LaneMarks {
            marks: sheet.marks().as_slice(),
            lane: lane_named(sheet, text.lane.as_text()),
        },
        None => LaneMarks {
            marks: &[],
            lane: 0,
        },
    }
}

// The number of the lane of a name, or one that no lane has.
fn lane_named(sheet: &Sheet, name: &str) -> u64 {
    for pin in sheet.pins().as_slice() {
        if pin.name.as_text() == name {
            return pin.lane;
        }
    }
    u64::MAX
}

// Two pins of a net have different numbers of marks.
fn put_counts_fault(hint: &mut Hint, source: Source<'_>, plan: &Plan, net: u64, pin: u64) {
    if let (Some(driver), Some(other)) = (pin_at(plan, net, 0), pin_at(plan, net, pin)) {
        begin_at_pin(hint, source, net, pin);
        put_net(hint, net);
        hint.put(": ");
        put_with_marks(hint, plan, driver);
        hint.put(", and ");
        put_with_marks(hint, plan, other);
        hint.put(": give both lanes the same events");
    }
}

// A pin with its marks, as `RAM.DQ has 2 marks, v and w`.
fn put_with_marks(hint: &mut Hint, plan: &Plan, text: &PinText) {
    put_lane(hint, text);
    let marks = marks_of(hint, plan, text);
    let count = marks.count();
    hint.put(" has ");
    hint.put_number(count);
    hint.put(if count == 1 { " mark, " } else { " marks, " });
    for k in 0..count {
        if let Some(mark) = marks.at(k) {
            hint.put_marked(k, count, mark.name);
        }
    }
}

// Of two marks that a net joins one is a rise and the other a fall.
fn put_kinds_fault(
    hint: &mut Hint,
    source: Source<'_>,
    plan: &Plan,
    net: u64,
    pin: u64,
    mark: u32,
) {
    if let (Some(driver), Some(other)) = (pin_at(plan, net, 0), pin_at(plan, net, pin)) {
        begin_at_pin(hint, source, net, pin);
        put_net(hint, net);
        hint.put(": ");
        put_turning(hint, plan, driver, mark);
        hint.put(", and ");
        put_turning(hint, plan, other, mark);
        hint.put(": correct one of the waves");
    }
}

// Which way a mark of a pin turns, as `CPU.CLK c rises`.
fn put_turning(hint: &mut Hint, plan: &Plan, text: &PinText, mark: u32) {
    if let Some(mark) = marks_of(hint, plan, text).at(u64::from(mark)) {
        put_lane(hint, text);
        hint.put(" ");
        hint.put_mark(mark.name);
        hint.put(match mark.kind {
            MarkKind::Rise => " rises",
            MarkKind::Fall => " falls",
            _ => " changes",
        });
    }
}

// ---- edges of the netlist

// An edge of the netlist.
fn wire_at<'a>(source: Source<'a>, plan: &'a Plan, n: u64) -> Edge<'a> {
    let text = match plan.netlist().edges().as_slice().get(n as usize) {
        Some(text) => text.as_text(),
        None => "",
    };
    Edge {
        source,
        key: "edges",
        number: n,
        text,
    }
}

// An edge of the netlist names a part that is not there.
fn put_wire_part_fault(hint: &mut Hint, plan: &Plan, edge: Edge<'_>) {
    let WireText::Timing {
        from_part,
        to_part,
        ..
    } = read_wire(edge.text)
    else {
        return;
    };
    let part = match part_named(plan, from_part) {
        Some(_) => {
            edge.begin_at(hint, second_word(edge.text));
            to_part
        }
        None => {
            edge.begin_at(hint, 0);
            from_part
        }
    };
    put_no_part(hint, plan.netlist(), part);
}

// Where the second word of a text begins.
fn second_word(text: &str) -> u64 {
    match text.split_once(' ') {
        Some((first, _)) => (first.chars().count() as u64).saturating_add(1),
        None => 0,
    }
}

// An edge of the netlist names a mark that is not there.
fn put_wire_mark_fault(hint: &mut Hint, plan: &Plan, edge: Edge<'_>) {
    let WireText::Timing {
        from_part,
        from_mark,
        to_part,
        to_mark,
        ..
    } = read_wire(edge.text)
    else {
        return;
    };
    if lacks_mark(hint, plan, from_part, from_mark) {
        edge.begin_at(hint, 0);
        put_lacking(hint, plan, from_part, from_mark);
    } else {
        edge.begin_at(hint, second_word(edge.text));
        put_lacking(hint, plan, to_part, to_mark);
    }
}

// Whether a part has no mark of a name.
fn lacks_mark(hint: &mut Hint, plan: &Plan, part: &str, mark: u8) -> bool {
    match sheet_named(hint, plan, part) {
        Some(sheet) => {
            let marks = sheet.marks().as_slice();
            !marks.iter().any(|found| found.name == mark)
        }
        None => false,
    }
}

// Puts that a part has no mark of a name, and which marks it has.
fn put_lacking(hint: &mut Hint, plan: &Plan, part: &str, mark: u8) {
    hint.put("part ");
    hint.put(part);
    hint.put(" has no mark ");
    hint.put_mark(mark);
    hint.put("; ");
    if let Some(sheet) = sheet_named(hint, plan, part) {
        put_marks(hint, sheet.marks().as_slice());
    }
}

fn put_marks(hint: &mut Hint, marks: &[Mark]) {
    let count = marks.len() as u64;
    hint.put_what(count, "mark", "marks");
    for (k, mark) in marks.iter().enumerate() {
        hint.put_marked(k as u64, count, mark.name);
    }
}
