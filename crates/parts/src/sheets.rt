//! Marks, pins, rules and rows of sheets.

use crate::drawings::diagram_of;
use crate::labels::fault_name;
use crate::out::Out;
use crate::waves::put_kind;
use crate::writing::put_range;
use itv_base::{RowKind, RuleKind};
use sheet::{Mark, Pin, Rule, Sheet, SheetFault, SheetRow, read_sheet};
use std::alloc::Global;
use wavejson::Diagram;

/// Writes the marks of a sheet on one line, and then a line for each pin, rule and row. Or writes the fault of the sheet.
pub fn sheet(alloc: Global, row: &str, out: &mut Out) {
    match diagram_of(alloc, row) {
        Some(Ok(diagram)) => {
            put_drawn(alloc, &diagram, out);
            drop(diagram);
        }
        _ => out.refuse(),
    }
}

// Writes the sheet of a diagram, or its fault.
fn put_drawn(alloc: Global, diagram: &Diagram, out: &mut Out) {
    match read_sheet(alloc, diagram) {
        Ok(sheet) => {
            put_sheet(&sheet, out);
            drop(sheet);
        }
        Err(fault) => put_fault(fault, out),
    }
}

fn put_fault(fault: SheetFault, out: &mut Out) {
    match fault {
        SheetFault::Label(edge, fault) => {
            out.put("the label of edge ");
            out.put_count(edge);
            out.put(": ");
            out.put(fault_name(fault));
        }
        _ => out.put_shown(&fault),
    }
}

fn put_sheet(sheet: &Sheet, out: &mut Out) {
    out.put("marks");
    for mark in sheet.marks().as_slice() {
        put_mark(mark, out);
    }
    for pin in sheet.pins().as_slice() {
        put_pin(pin, out);
    }
    for rule in sheet.rules().as_slice() {
        put_rule(rule, out);
    }
    for row in sheet.rows().as_slice() {
        put_row(row, out);
    }
}

fn put_mark(mark: &Mark, out: &mut Out) {
    out.put(" ");
    out.put_character(mark.name as char);
    out.put("@");
    out.put_count(mark.lane);
    out.put(".");
    out.put_count(mark.place);
    out.put(" ");
    put_kind(mark.kind, out);
}

fn put_pin(pin: &Pin, out: &mut Out) {
    out.put("\n");
    out.put(pin.name.as_text());
    out.put("@");
    out.put_count(pin.lane);
    out.put(" ");
    out.put_count(u64::from(pin.first));
    out.put("+");
    out.put_count(u64::from(pin.count));
}

fn put_rule(rule: &Rule, out: &mut Out) {
    out.put(match rule.kind() {
        RuleKind::Lin => "\nlin ",
        RuleKind::Late => "\nlate ",
        RuleKind::Early => "\nearly ",
    });
    out.put_count(u64::from(rule.target()));
    out.put(" <-");
    for cause in rule.causes().as_slice() {
        out.put(" ");
        out.put_count(u64::from(cause.mark));
        out.put("+");
        out.put_count(u64::from(cause.shift));
        put_range(cause.range, out);
    }
}

fn put_row(row: &SheetRow, out: &mut Out) {
    out.put("\n");
    out.put_count(u64::from(row.from));
    out.put("+");
    out.put_count(u64::from(row.shift));
    out.put(" -> ");
    out.put_count(u64::from(row.to));
    if let RowKind::Req(range) = row.kind {
        put_range(range, out);
    }
}
