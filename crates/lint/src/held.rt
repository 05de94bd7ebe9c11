//! Marks that follow a driver, and on which their own sheet has a requirement that is drawn as a rule.

ghost use Rattle.std.specs.Prelude.{◌≡◌, ◌==◌, ◌++◌, OnOk, find};
ghost use Rattle.std.specs.List.{flat_map, list_any};
ghost use Rattle.std.specs.Option.{option_copied};
ghost use Rattle.sheet.specs.declared.rule.RuleCause.{RuleCause as Cause};
ghost use Rattle.lint.specs.Driven.{held_by, held_on, holds_below, is_beside, is_low_alone, lead_held, measures_from, on_one_lane, rule_below};

use crate::about::About;
use crate::asked::sheet_at;
use crate::lead::{Lead, is_edge};
use crate::rule::{drawn_by, is_linear, keeps_order};
use crate::warning::Warning;
use crate::warning_word::WarningWord;
use compose::Design;
use itv_base::NoMemory;
use sheet::{Mark, Rule, RuleCause, Sheet};

/// Puts the warnings of marks that some leads of joins or wires go into at the end.
pub fn push_held(
    warnings: &mut Vec<Warning>,
    leads: &[Lead],
    design: &Design<'_>,
) -> Result<(), NoMemory>
    ensures pushed { OnOk result (warnings.new.items ≡ warnings.old.items ++ flat_map (lead_held design.now.sheets) leads.now) }
{
    for lead in leads {
        push_lead(warnings, lead, design)?;
    }
    Ok(())
}

// Puts the warning of a lead at the end, if the lead has one.
fn push_lead(warnings: &mut Vec<Warning>, lead: &Lead, design: &Design<'_>) -> Result<(), NoMemory>
    ensures pushed { OnOk result (warnings.new.items ≡ warnings.old.items ++ lead_held design.now.sheets lead.now) }
{
    if is_edge(lead.origin) {
        return Ok(());
    }
    push_on(warnings, lead, sheet_at(design, lead.to.part))
}

// Puts the warning of a lead into a mark of a sheet at the end, if there is one.
fn push_on(warnings: &mut Vec<Warning>, lead: &Lead, sheet: Option<&Sheet>) -> Result<(), NoMemory>
    ensures pushed { OnOk result (warnings.new.items ≡ warnings.old.items ++ held_on lead.now (option_copied sheet.entry)) }
{
    match sheet {
        Some(sheet) => push_by(warnings, lead, rule_below(sheet, lead.to.mark)),
        None => Ok(()),
    }
}

// Puts the warning of a lead and a rule at the end, if there is such a rule.
fn push_by(warnings: &mut Vec<Warning>, lead: &Lead, rule: Option<&Rule>) -> Result<(), NoMemory>
    ensures pushed { OnOk result (warnings.new.items ≡ warnings.old.items ++ held_by lead.now (option_copied rule.entry)) }
{
    let Some(rule) = rule else {
        return Ok(());
    };
    let Some(edge) = drawn_by(rule) else {
        return Ok(());
    };
    let mark = lead.to;
    let by = lead.origin;
    let word = WarningWord::Held;
    let about = About::Driven { mark, by, edge };
    warnings.push(Warning { word, about })?;
    Ok(())
}

/// The first rule of a sheet that bounds a mark from below alone, where the rule looks like a requirement.
pub fn rule_below(sheet: &Sheet, mark: u32) -> Option<&Rule>
    ensures { option_copied result ≡ rule_below sheet.now mark }
{
    let rules = sheet.rules().as_slice();
    let measured = is_measured_from(mark, rules);
    first_below(measured, sheet.marks().as_slice(), mark, rules)
}

// Whether edges of a sheet measure from a mark.
fn is_measured_from(mark: u32, rules: &[Rule]) -> bool
    ensures { result ≡ list_any (measures_from mark) rules.now }
{
    rules.iter().any(|rule| measures_from(mark, rule))
}

fn measures_from(mark: u32, rule: &Rule) -> bool
    ensures { result ≡ measures_from mark rule.now }
{
    !keeps_order(rule) && has_cause_at(mark, rule.causes().as_slice())
}

fn has_cause_at(mark: u32, causes: &[RuleCause]) -> bool
    ensures { result ≡ list_any (λ (cause : Cause). cause.mark == mark) causes.now }
{
    causes.iter().any(|cause| cause.mark == mark)
}

fn first_below<'a>(measured: bool, marks: &[Mark], mark: u32, rules: &'a [Rule]) -> Option<&'a Rule>
    ensures { option_copied result ≡ find (holds_below measured marks.now mark) rules.now }
{
    rules
        .iter()
        .find(|rule| holds_below(measured, marks, mark, rule))
}

fn holds_below(measured: bool, marks: &[Mark], mark: u32, rule: &Rule) -> bool
    ensures { result ≡ holds_below measured marks.now mark rule.now }
{
    rule.target() == mark
        && !keeps_order(rule)
        && is_linear(rule.kind())
        && is_any_low_alone(rule.causes().as_slice())
        && (measured || is_any_beside(marks, mark, rule.causes().as_slice()))
}

fn is_any_low_alone(causes: &[RuleCause]) -> bool
    ensures { result ≡ list_any is_low_alone causes.now }
{
    causes.iter().any(|cause| is_low_alone(cause))
}

/// Whether a cause of a rule bounds its target from below alone.
pub fn is_low_alone(cause: &RuleCause) -> bool
    ensures { result ≡ is_low_alone cause.now }
{
    cause.range.low().is_some() && cause.range.high().is_none()
}

fn is_any_beside(marks: &[Mark], mark: u32, causes: &[RuleCause]) -> bool
    ensures { result ≡ list_any (is_beside marks.now mark) causes.now }
{
    causes.iter().any(|cause| is_beside(marks, mark, cause))
}

// Whether a cause stands on the lane of a mark.
fn is_beside(marks: &[Mark], mark: u32, cause: &RuleCause) -> bool
    ensures { result ≡ is_beside marks.now mark cause.now }
{
    on_one_lane(marks.get(mark as usize), marks.get(cause.mark as usize))
}

fn on_one_lane(a: Option<&Mark>, b: Option<&Mark>) -> bool
    ensures { result ≡ on_one_lane (option_copied a.entry) (option_copied b.entry) }
{
    match (a, b) {
        (Some(a), Some(b)) => a.lane == b.lane,
        _ => false,
    }
}
