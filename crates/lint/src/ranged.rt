//! The ranges of a design.

ghost use Rattle.std.specs.Prelude.{◌≡◌, ◌++◌, IfOk, OnOk};
ghost use Rattle.std.specs.List.{flat_map};
ghost use Rattle.lint.specs.Kinds.{tiny_at};
ghost use Rattle.lint.specs.Lists.{each_from, spot};
ghost use Rattle.lint.specs.Units.{kind_ranged, net_ranged, ranged_by, ranges_of, row_ranged, rows_ranged, rule_ranged, rules_ranged, sheet_ranged, source_ranged};

use crate::about::About;
use crate::asked::part_count;
use crate::warning::{DrawnPlace, Warning};
use crate::warning_word::WarningWord;
use compose::Design;
use design_plan::Plan;
use itv_base::{NoMemory, Range, RowKind};
use netlist::Nets;
use origin::Origin;
use sheet::{Rule, RuleCause, Sheet, SheetRow};
use std::alloc::Global;

/// A range in picoseconds, and the warning that it gives if an end of it is tiny.
#[derive(Clone, Copy)]
pub struct Ranged {
    pub warning: Warning,
    pub range: Range,
}

/// The ranges of a design: of the sheets, then of the nets, then of the wires, and of rules before requirements.
pub fn ranges_of(alloc: Global, plan: &Plan, design: &Design<'_>) -> Result<Vec<Ranged>, NoMemory>
    ensures ranges { IfOk result (λ ranges. ranges.items ≡ ranges_of plan.now design.now) }
{
    let mut ranges = Vec::new(alloc);
    push_sheets(&mut ranges, design)?;
    push_nets(&mut ranges, plan.netlist().nets())?;
    push_rules(&mut ranges, 0, design.wire_rules().as_slice())?;
    push_rows(&mut ranges, 0, design.wire_rows().as_slice())?;
    Ok(ranges)
}

// Puts the ranges of the sheets at the end.
fn push_sheets(ranges: &mut Vec<Ranged>, design: &Design<'_>) -> Result<(), NoMemory>
    ensures pushed { OnOk result (ranges.new.items ≡ ranges.old.items ++ each_from sheet_ranged 0 design.now.sheets) }
{
    for part in 0..part_count(design) {
        push_sheet(ranges, part, design.sheet_of(part))?;
    }
    Ok(())
}

// Puts the ranges of the sheet of a part at the end.
fn push_sheet(ranges: &mut Vec<Ranged>, part: u32, sheet: &Sheet) -> Result<(), NoMemory>
    ensures pushed { OnOk result (ranges.new.items ≡ ranges.old.items ++ sheet_ranged part sheet.now) }
{
    push_rules(ranges, part, sheet.rules().as_slice())?;
    push_rows(ranges, part, sheet.rows().as_slice())
}

// Puts the ranges of some rules at the end.
fn push_rules(ranges: &mut Vec<Ranged>, part: u32, rules: &[Rule]) -> Result<(), NoMemory>
    ensures pushed { OnOk result (ranges.new.items ≡ ranges.old.items ++ rules_ranged part rules.now) }
{
    for rule in rules {
        push_rule(ranges, part, rule)?;
    }
    Ok(())
}

// Puts the ranges of the causes of a rule at the end.
fn push_rule(ranges: &mut Vec<Ranged>, part: u32, rule: &Rule) -> Result<(), NoMemory>
    ensures pushed { OnOk result (ranges.new.items ≡ ranges.old.items ++ rule_ranged part rule.now) }
{
    push_causes(ranges, part, rule.causes().as_slice())
}

fn push_causes(ranges: &mut Vec<Ranged>, part: u32, causes: &[RuleCause]) -> Result<(), NoMemory>
    ensures pushed { OnOk result (ranges.new.items ≡ ranges.old.items ++ flat_map (source_ranged part) causes.now) }
{
    for cause in causes {
        push_cause(ranges, part, cause)?;
    }
    Ok(())
}

// Puts the range of a cause at the end, unless the order of a lane draws the cause.
fn push_cause(ranges: &mut Vec<Ranged>, part: u32, cause: &RuleCause) -> Result<(), NoMemory>
    ensures pushed { OnOk result (ranges.new.items ≡ ranges.old.items ++ source_ranged part cause.now) }
{
    if cause.origin.is_lane() {
        return Ok(());
    }
    push_range(ranges, unit_at(part, cause.origin), cause.range)
}

// Puts a range at the end, with the warning that it gives.
fn push_range(ranges: &mut Vec<Ranged>, warning: Warning, range: Range) -> Result<(), NoMemory>
    ensures pushed { OnOk result (ranges.new.items ≡ ranges.old.items ++ ranged_by warning range) }
{
    ranges.push(Ranged { warning, range })?;
    Ok(())
}

// The warning of what draws a range on the sheet of a part.
fn unit_at(part: u32, origin: Origin) -> Warning
    ensures { result ≡ tiny_at (spot part origin) }
{
    Warning::at(WarningWord::Unit, DrawnPlace { part, origin })
}

// Puts the ranges of the requirements among some rows at the end.
fn push_rows(ranges: &mut Vec<Ranged>, part: u32, rows: &[SheetRow]) -> Result<(), NoMemory>
    ensures pushed { OnOk result (ranges.new.items ≡ ranges.old.items ++ rows_ranged part rows.now) }
{
    for row in rows {
        push_row(ranges, part, row)?;
    }
    Ok(())
}

// Puts the range of a row at the end, if the row is a requirement.
fn push_row(ranges: &mut Vec<Ranged>, part: u32, row: &SheetRow) -> Result<(), NoMemory>
    ensures pushed { OnOk result (ranges.new.items ≡ ranges.old.items ++ row_ranged part row.now) }
{
    push_kind(ranges, unit_at(part, row.origin), row.kind)
}

// Puts the range of a requirement at the end.
fn push_kind(ranges: &mut Vec<Ranged>, warning: Warning, kind: RowKind) -> Result<(), NoMemory>
    ensures pushed { OnOk result (ranges.new.items ≡ ranges.old.items ++ kind_ranged warning kind) }
{
    match kind {
        RowKind::Req(range) => push_range(ranges, warning, range),
        RowKind::Ask => Ok(()),
    }
}

// Puts the delays of the nets at the end.
fn push_nets(ranges: &mut Vec<Ranged>, nets: &Nets) -> Result<(), NoMemory>
    ensures pushed { OnOk result (ranges.new.items ≡ ranges.old.items ++ each_from net_ranged 0 nets.now) }
{
    for n in 0..nets.len() {
        let word = WarningWord::Unit;
        let about = About::Net(n);
        push_range(ranges, Warning { word, about }, nets.get(n).delay())?;
    }
    Ok(())
}
