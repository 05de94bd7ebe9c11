//! Rules and rows that are in no cycle.

ghost use Rattle.std.specs.Prelude.{◌≡◌, ◌++◌, IfOk, OnOk};
ghost use Rattle.unroll.specs.Cycles.{rule_exists};
ghost use Rattle.lint.specs.Lists.{each_from};
ghost use Rattle.lint.specs.Never.{never_places, never_rows, never_rules, row_never, rule_never, sheet_never};

use crate::asked::part_count;
use crate::rule::{keeps_order, spot_of};
use crate::warning::DrawnPlace;
use compose::Design;
use itv_base::NoMemory;
use sheet::{Rule, Sheet, SheetRow};
use std::alloc::Global;

/// The places of the rules and rows that are in no cycle: first those of the sheets, part by part, and then those of the netlist. The answer is
/// `NoMemory` if memory runs out.
pub fn never_places(alloc: Global, design: &Design<'_>) -> Result<Vec<DrawnPlace>, NoMemory>
    ensures places { IfOk result (λ places. places.items ≡ never_places design.now) }
{
    let mut places = Vec::new(alloc);
    push_all(&mut places, design)?;
    Ok(places)
}

// Puts all places at the end.
fn push_all(places: &mut Vec<DrawnPlace>, design: &Design<'_>) -> Result<(), NoMemory>
    ensures pushed { OnOk result (places.new.items ≡ places.old.items ++ never_places design.now) }
{
    // If a shift of a rule reaches before the first cycle from the last cycle, it does so from each cycle.
    let last = design.cycles() - 1;
    push_sheets(places, last, design)?;
    push_rules(places, last, 0, design.wire_rules().as_slice())?;
    push_rows(places, last, 0, design.wire_rows().as_slice())
}

// Puts the places on the sheets at the end.
fn push_sheets(places: &mut Vec<DrawnPlace>, last: u32, design: &Design<'_>) -> Result<(), NoMemory>
    ensures pushed { OnOk result (places.new.items ≡ places.old.items ++ each_from (sheet_never last) 0 design.now.sheets) }
{
    for part in 0..part_count(design) {
        push_sheet(places, last, part, design.sheet_of(part))?;
    }
    Ok(())
}

// Puts the places on the sheet of a part at the end.
fn push_sheet(
    places: &mut Vec<DrawnPlace>,
    last: u32,
    part: u32,
    sheet: &Sheet,
) -> Result<(), NoMemory>
    ensures pushed { OnOk result (places.new.items ≡ places.old.items ++ sheet_never last part sheet.now) }
{
    push_rules(places, last, part, sheet.rules().as_slice())?;
    push_rows(places, last, part, sheet.rows().as_slice())
}

// Puts the places of some rules at the end.
fn push_rules(
    places: &mut Vec<DrawnPlace>,
    last: u32,
    part: u32,
    rules: &[Rule],
) -> Result<(), NoMemory>
    ensures pushed { OnOk result (places.new.items ≡ places.old.items ++ never_rules last part rules.now) }
{
    for rule in rules {
        push_rule(places, last, part, rule)?;
    }
    Ok(())
}

// Puts the place of a rule at the end, if the rule is in no cycle.
fn push_rule(
    places: &mut Vec<DrawnPlace>,
    last: u32,
    part: u32,
    rule: &Rule,
) -> Result<(), NoMemory>
    ensures pushed { OnOk result (places.new.items ≡ places.old.items ++ rule_never last part rule.now) }
{
    if !(exists_in(last, rule) || keeps_order(rule)) {
        if let Some(spot) = spot_of(part, rule) {
            places.push(spot)?;
        }
    }
    Ok(())
}

// Whether a rule is in a cycle: no shift of its causes reaches before cycle 0.
fn exists_in(cycle: u32, rule: &Rule) -> bool
    ensures { result ≡ rule_exists cycle rule.now }
{
    rule.causes()
        .as_slice()
        .iter()
        .all(|cause| cause.shift <= cycle)
}

// Puts the places of some rows at the end.
fn push_rows(
    places: &mut Vec<DrawnPlace>,
    last: u32,
    part: u32,
    rows: &[SheetRow],
) -> Result<(), NoMemory>
    ensures pushed { OnOk result (places.new.items ≡ places.old.items ++ never_rows last part rows.now) }
{
    for row in rows {
        push_row(places, last, part, row)?;
    }
    Ok(())
}

// Puts the place of a row at the end, if the row is in no cycle.
fn push_row(
    places: &mut Vec<DrawnPlace>,
    last: u32,
    part: u32,
    row: &SheetRow,
) -> Result<(), NoMemory>
    ensures pushed { OnOk result (places.new.items ≡ places.old.items ++ row_never last part row.now) }
{
    if row.shift <= last {
        return Ok(());
    }
    let origin = row.origin;
    Ok(places.push(DrawnPlace { part, origin })?)
}
