//! The rules and rows of wires, between the numbers of their marks.

ghost use Rattle.std.specs.Prelude.{◌≡◌, ◌==◌, ◌*◌, ◌<◌, ◌≤◌, IfOk, IfSome, length, map, position, take};
ghost use Rattle.itv_base.specs.Reading.{AgreesWith};
ghost use Rattle.compose.specs.Fault.{is_memory};
ghost use Rattle.compose.specs.Numbers.{mark_count, number_of};
ghost use Rattle.compose.specs.Step.{rules_and_rows};
ghost use Rattle.compose.specs.Wires.{ends_of, mark_named, wire_label, wire_links};
ghost use Rattle.label_grammar.specs.Label.{label_view};

use crate::fault::JoinFault;
use crate::mark::DesignMark;
use crate::nets::marks_at;
use crate::terminal::part_named;
use itv_base::{MAX_PARTS, Text};
use label_grammar::Label;
use netlist::{Part, Wire};
use origin::Origin;
use sheet::{Link, MAX_MARKS, Mark, Places, Rules, Sheet, SheetRows, push_link, push_row};
use std::alloc::Global;

/// The rules and the rows of wires, between the numbers of their marks.
#[derive(Drop)]
pub struct NumberedWires {
    pub rules: Rules,
    pub rows: SheetRows,
}

/// The two marks that a wire joins.
#[derive(Clone, Copy)]
pub struct WireEnds {
    pub from: DesignMark,
    pub to: DesignMark,
}

/// The rules and the rows of wires, or the first fault of a wire. A comment among the wires adds nothing.
pub fn read_wires(
    alloc: Global,
    parts: &[Part],
    sheets: &[&Sheet],
    wires: &[Option<Wire>],
) -> Result<NumberedWires, JoinFault>
    requires parts { length parts.now ≡ length sheets.now }
    requires few { length parts.now ≤ MAX_PARTS }
    ensures { AgreesWith is_memory (λ read. read) result
        (rules_and_rows (wire_links parts.now (map (λ s. s.now) sheets.now) wires.now)) }
{
    let mut rules = Vec::new(alloc);
    let mut places = Places::new(alloc);
    let mut rows = SheetRows::new(alloc);
    for (n, wire) in wires.iter().enumerate() {
        let Some(wire) = wire else {
            continue;
        };
        let n = n as u64;
        let ends = ends_of(parts, sheets, n, wire)?;
        let label: Label<'_> = label_of(wire);
        let link = Link {
            from: number_of(sheets, ends.from),
            to: number_of(sheets, ends.to),
            origin: Origin::Wire(n),
            label,
        };
        push_link(alloc, &mut rules, &mut places, n, &link)?;
        push_row(&mut rows, &link)?;
    }
    Ok(NumberedWires {
        rules: Rules::from(rules),
        rows,
    })
}

// The two marks that wire n joins, or its fault.
fn ends_of(parts: &[Part], sheets: &[&Sheet], n: u64, wire: &Wire) -> Result<WireEnds, JoinFault>
    requires parts { length parts.now ≡ length sheets.now }
    requires few { length parts.now ≤ MAX_PARTS }
    ensures found { AgreesWith is_memory (λ ends. ends) result
        (ends_of parts.now (map (λ s. s.now) sheets.now) n wire.now) }
    ensures from { IfOk result (λ ends. (ends.from.part < length sheets.now) × (ends.from.mark < MAX_MARKS)) }
    ensures to { IfOk result (λ ends. (ends.to.part < length sheets.now) × (ends.to.mark < MAX_MARKS)) }
{
    let from_part = part_named(parts, &wire.from_part).ok_or(JoinFault::WireNoPart(n))?;
    let to_part = part_named(parts, &wire.to_part).ok_or(JoinFault::WireNoPart(n))?;
    let from = mark_named(sheets, from_part, wire.from_mark).ok_or(JoinFault::WireNoMark(n))?;
    let to = mark_named(sheets, to_part, wire.to_mark).ok_or(JoinFault::WireNoMark(n))?;
    Ok(WireEnds { from, to })
}

// The mark of a part with a name.
fn mark_named(sheets: &[&Sheet], part: usize, name: u8) -> Option<DesignMark>
    requires part { part < length sheets.now }
    requires few { length sheets.now ≤ MAX_PARTS }
    ensures found { result ≡ mark_named (map (λ s. s.now) sheets.now) part name }
    ensures within { IfSome result (λ m. (m.part < length sheets.now) × (m.mark < MAX_MARKS)) }
{
    let part = part as u32;
    let mark = number_on(marks_at(sheets, part), name)?;
    Some(DesignMark {
        part,
        mark: mark as u32,
    })
}

fn number_on(marks: &[Mark], name: u8) -> Option<usize>
    ensures within { IfSome result (λ k. k < length marks.now) }
    ensures found { result ≡ position (λ mark. mark.name == name) marks.now }
{
    marks.iter().position(|mark| mark.name == name)
}

// What the label of a wire says, without its note.
fn label_of(wire: &Wire) -> Label<'_>
    ensures { label_view result ≡ wire_label wire.now }
{
    Label {
        kind: wire.kind,
        shift: wire.shift,
        tag: wire.tag.as_ref().map(Text::as_text),
        range: wire.range,
        note: None,
    }
}

// The number of a mark of a design.
fn number_of(sheets: &[&Sheet], mark: DesignMark) -> u32
    requires few { length sheets.now ≤ MAX_PARTS }
    requires part { mark.part < length sheets.now }
    requires mark { mark.mark < MAX_MARKS }
    ensures { result ≡ number_of (map (λ s. s.now) sheets.now) mark }
{
    marks_before(sheets, mark.part) + mark.mark
}

// How many marks the parts before number `part` have.
fn marks_before(sheets: &[&Sheet], part: u32) -> u32
    requires few { part ≤ MAX_PARTS }
    requires part { part ≤ length sheets.now }
    ensures count { result ≡ mark_count (take part (map (λ s. s.now) sheets.now)) }
    ensures within { result ≤ MAX_MARKS * part }
{
    let mut marks = 0;
    for before in 0..part {
        marks += marks_at(sheets, before).len() as u32;
    }
    marks
}
