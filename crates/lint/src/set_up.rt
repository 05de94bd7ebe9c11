//! Receivers whose set-up is drawn as a rule, between two marks that are driven.

use crate::about::About;
use crate::asked::sheet_at;
use crate::firsts::{FirstLeads, has_first, note_first};
use crate::held::{is_low_alone, rule_below};
use crate::lead::{Lead, is_edge};
use crate::rule::{drawn_by, is_linear, keeps_order};
use crate::warning::Warning;
use crate::warning_word::WarningWord;
use compose::{Design, DesignMark};
use itv_base::NoMemory;
use sheet::{Rule, RuleCause, Sheet};
use std::alloc::Global;

/// Puts a warning at the end for each mark that follows a driver by a pin or by an edge of the netlist, and that a linear rule of its own sheet holds from below
/// alone, after another mark with a driver of its own: both marks come from outside, so the rule may be a requirement. A mark that has a warning of a rule that
/// holds it from below already has no second one. The leads are those of the design. The answer is `NoMemory` if memory runs out.
pub fn push_set_up(
    alloc: Global,
    warnings: &mut Vec<Warning>,
    leads: &[Lead],
    design: &Design<'_>,
) -> Result<(), NoMemory> {
    let driven = driven_marks(alloc, leads)?;
    let pushed = push_leads(warnings, &driven, leads, design);
    drop(driven);
    pushed
}

// The first lead into each mark that is driven from outside its sheet.
fn driven_marks(alloc: Global, leads: &[Lead]) -> Result<FirstLeads, NoMemory> {
    let mut driven = FirstLeads::new(alloc);
    note_driven(&mut driven, leads)?;
    Ok(driven)
}

fn note_driven(driven: &mut FirstLeads, leads: &[Lead]) -> Result<(), NoMemory> {
    for lead in leads {
        note_first(driven, !is_edge(lead.origin), lead)?;
    }
    Ok(())
}

// Puts the warnings of some leads at the end.
fn push_leads(
    warnings: &mut Vec<Warning>,
    driven: &FirstLeads,
    leads: &[Lead],
    design: &Design<'_>,
) -> Result<(), NoMemory> {
    for lead in leads {
        if is_edge(lead.origin) {
            continue;
        }
        if let Some(sheet) = sheet_at(design, lead.to.part) {
            push_on(warnings, driven, lead, sheet)?;
        }
    }
    Ok(())
}

// Puts the warning of a lead into a mark of a sheet at the end, if there is one.
fn push_on(
    warnings: &mut Vec<Warning>,
    driven: &FirstLeads,
    lead: &Lead,
    sheet: &Sheet,
) -> Result<(), NoMemory> {
    if rule_below(sheet, lead.to.mark).is_some() {
        return Ok(());
    }
    let rules = sheet.rules().as_slice();
    let Some(rule) = rules.iter().find(|rule| is_set_up(driven, lead.to, rule)) else {
        return Ok(());
    };
    let Some(edge) = drawn_by(rule) else {
        return Ok(());
    };
    let mark = lead.to;
    let by = lead.origin;
    let word = WarningWord::Held;
    let about = About::Driven { mark, by, edge };
    warnings.push(Warning { word, about })?;
    Ok(())
}

// Whether a linear rule of the sheet of a mark holds the mark from below alone, after another mark that is driven.
fn is_set_up(driven: &FirstLeads, mark: DesignMark, rule: &Rule) -> bool {
    rule.target() == mark.mark
        && is_linear(rule.kind())
        && !keeps_order(rule)
        && has_driven_cause(driven, mark, rule.causes().as_slice())
}

fn has_driven_cause(driven: &FirstLeads, mark: DesignMark, causes: &[RuleCause]) -> bool {
    causes.iter().any(|cause| {
        is_low_alone(cause) && cause.mark != mark.mark && is_driven(driven, mark.part, cause.mark)
    })
}

fn is_driven(driven: &FirstLeads, part: u32, mark: u32) -> bool {
    has_first(driven, DesignMark { part, mark })
}
