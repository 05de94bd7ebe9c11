//! Two linear rules from different marks that hold one mark from above.

ghost use Rattle.std.specs.Prelude.{◌≡◌, ◌++◌, [], OnOk};
ghost use Rattle.std.specs.List.{flat_map};
ghost use Rattle.std.specs.Option.{option_copied};
ghost use Rattle.lint.specs.Leads.{leads_of};
ghost use Rattle.lint.specs.Lists.{each_behind, each_from, netlist_part};
ghost use Rattle.lint.specs.Rules.{both_in, both_warnings, is_wire_cap, same_mark, sheet_both};
ghost use Rattle.lint.specs.Step.{AreFirstTwo, both_at, cap_both, lead_met, sheet_caps};

use crate::caps::{sheet_caps, wire_caps};
use crate::first_two::{FirstTwo, first_met, note_lead};
use crate::lead::{Lead, is_at, is_wire};
use crate::rule::is_linear;
use crate::skew::draws_skew;
use crate::warning::{DrawnPlace, Warning};
use crate::warning_word::WarningWord;
use compose::Design;
use design_plan::Plan;
use itv_base::{NoMemory, Texts};
use std::alloc::Global;

/// Puts the warnings of two rules for one mark at the end: first within each sheet, then within the netlist, and then between a sheet and the netlist.
/// The leads are those of the design.
pub fn push_both(
    alloc: Global,
    warnings: &mut Vec<Warning>,
    leads: &[Lead],
    plan: &Plan,
    design: &Design<'_>,
) -> Result<(), NoMemory>
    requires leads { leads.now ≡ leads_of design.now }
    ensures pushed { OnOk result (warnings.new.items ≡ warnings.old.items ++ both_warnings plan.now design.now) }
{
    let mut tables = FirstTwo::new(alloc);
    let pushed = push_all(alloc, warnings, &mut tables, leads, plan, design);
    drop(tables);
    pushed
}

// Puts the warnings at the end, with tables of no leads.
fn push_all(
    alloc: Global,
    warnings: &mut Vec<Warning>,
    tables: &mut FirstTwo,
    leads: &[Lead],
    plan: &Plan,
    design: &Design<'_>,
) -> Result<(), NoMemory>
    requires leads { leads.now ≡ leads_of design.now }
    requires none { AreFirstTwo tables.old [] }
    ensures pushed { OnOk result (warnings.new.items ≡ warnings.old.items ++ both_warnings plan.now design.now) }
{
    push_sheets(alloc, warnings, tables, design)?;
    push_netlist(alloc, warnings, plan, design)?;
    push_across(warnings, tables, plan.netlist().edges(), leads)
}

// Puts the warnings within each sheet at the end, and notes the caps of the sheets in tables of no leads.
fn push_sheets(
    alloc: Global,
    warnings: &mut Vec<Warning>,
    tables: &mut FirstTwo,
    design: &Design<'_>,
) -> Result<(), NoMemory>
    requires none { AreFirstTwo tables.old [] }
    ensures pushed { OnOk result (warnings.new.items ≡ warnings.old.items ++ each_from sheet_both 0 design.now.sheets) }
    ensures noted { OnOk result (AreFirstTwo tables.new (each_from sheet_caps 0 design.now.sheets)) }
{
    let caps = sheet_caps(alloc, design)?;
    push_caps(warnings, tables, &caps)
}

// Puts the warnings within the netlist at the end.
fn push_netlist(
    alloc: Global,
    warnings: &mut Vec<Warning>,
    plan: &Plan,
    design: &Design<'_>,
) -> Result<(), NoMemory>
    ensures pushed { OnOk result (warnings.new.items ≡ warnings.old.items ++ both_in netlist_part plan.now.netlist.edges design.now.rules) }
{
    let caps = wire_caps(alloc, plan, design)?;
    let mut tables = FirstTwo::new(alloc);
    let pushed = push_caps(warnings, &mut tables, &caps);
    drop(tables);
    pushed
}

// Puts the warnings of some caps at the end, and notes the caps in tables of no leads.
fn push_caps(
    warnings: &mut Vec<Warning>,
    tables: &mut FirstTwo,
    caps: &[Lead],
) -> Result<(), NoMemory>
    requires none { AreFirstTwo tables.old [] }
    ensures pushed { OnOk result (warnings.new.items ≡ warnings.old.items ++ each_behind cap_both [] caps.now) }
    ensures noted { OnOk result (AreFirstTwo tables.new caps.now) }
{
    for cap in caps {
        let place = DrawnPlace {
            part: cap.to.part,
            origin: cap.origin,
        };
        push_two(warnings, first_met(tables, cap), place)?;
        note_lead(tables, cap)?;
    }
    Ok(())
}

// Puts the warning of a cap and of a place that meets it at the end, if there is a cap.
fn push_two(
    warnings: &mut Vec<Warning>,
    cap: Option<&Lead>,
    place: DrawnPlace,
) -> Result<(), NoMemory>
    ensures pushed { OnOk result (warnings.new.items ≡ warnings.old.items ++ both_at place (option_copied cap.entry)) }
{
    if let Some(cap) = cap {
        let first = DrawnPlace {
            part: cap.to.part,
            origin: cap.origin,
        };
        warnings.push(Warning::of_two(WarningWord::Both, first, place))?;
    }
    Ok(())
}

// Puts the warnings of wires into marks that rules of their sheets cap too at the end. The tables have the caps of the sheets, and the wires have these texts.
fn push_across(
    warnings: &mut Vec<Warning>,
    tables: &FirstTwo,
    texts: &Texts,
    leads: &[Lead],
) -> Result<(), NoMemory>
    ensures pushed { OnOk result (warnings.new.items ≡ warnings.old.items ++ flat_map (lead_met tables.now texts.now) leads.now) }
{
    for lead in leads {
        push_lead(warnings, tables, texts, lead)?;
    }
    Ok(())
}

// Puts the warning of a lead at the end, if the lead has one.
fn push_lead(
    warnings: &mut Vec<Warning>,
    tables: &FirstTwo,
    texts: &Texts,
    lead: &Lead,
) -> Result<(), NoMemory>
    ensures pushed { OnOk result (warnings.new.items ≡ warnings.old.items ++ lead_met tables.now texts.now lead.now) }
{
    if !is_wire_cap(texts, lead) {
        return Ok(());
    }
    let place = DrawnPlace {
        part: 0,
        origin: lead.origin,
    };
    push_two(warnings, first_met(tables, lead), place)
}

// Whether a lead is a wire to another mark that is linear, has a high end, and is no skew.
fn is_wire_cap(texts: &Texts, lead: &Lead) -> bool
    ensures { result ≡ is_wire_cap texts.now lead.now }
{
    is_wire(lead.origin)
        && !is_at(lead.from, lead.to)
        && is_linear(lead.kind)
        && lead.range.high().is_some()
        && !draws_skew(texts, lead.origin)
}

/// Whether two marks of one sheet are one mark. A mark that is not known may be any.
pub fn same_mark(a: Option<u32>, b: Option<u32>) -> bool
    ensures { result ≡ same_mark a b }
{
    match (a, b) {
        (Some(a), Some(b)) => a == b,
        _ => true,
    }
}
