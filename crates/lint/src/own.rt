//! Marks that follow a driver, and that an edge of their own sheet holds from above, after another mark.

ghost use Rattle.std.specs.Prelude.{◌≡◌, ◌++◌, OnOk, find};
ghost use Rattle.std.specs.List.{flat_map, list_any};
ghost use Rattle.std.specs.Option.{option_copied};
ghost use Rattle.lint.specs.Driven.{holds, is_high_from_other, own_warnings};
ghost use Rattle.lint.specs.Leads.{join_leads};
ghost use Rattle.lint.specs.Step.{own_on, own_with};

use crate::about::About;
use crate::asked::sheet_at;
use crate::lead::Lead;
use crate::rule::{drawn_by, is_high};
use crate::warning::Warning;
use crate::warning_word::WarningWord;
use compose::Design;
use itv_base::NoMemory;
use sheet::{Rule, RuleCause, Sheet};

/// Puts the warnings of marks with a driver and an edge of their own at the end. The joins are those of the design.
pub fn push_own(
    warnings: &mut Vec<Warning>,
    joins: &[Lead],
    design: &Design<'_>,
) -> Result<(), NoMemory>
    requires joins { joins.now ≡ flat_map join_leads design.now.joins }
    ensures pushed { OnOk result (warnings.new.items ≡ warnings.old.items ++ own_warnings design.now) }
{
    for join in joins {
        push_on(warnings, join, sheet_at(design, join.to.part))?;
    }
    Ok(())
}

// Puts the warning of a join into a mark of a sheet at the end, if there is one.
fn push_on(warnings: &mut Vec<Warning>, join: &Lead, sheet: Option<&Sheet>) -> Result<(), NoMemory>
    ensures pushed { OnOk result (warnings.new.items ≡ warnings.old.items ++ own_on join.now (option_copied sheet.entry)) }
{
    match sheet {
        Some(sheet) => push_by(
            warnings,
            join,
            first_holding(join.to.mark, sheet.rules().as_slice()),
        ),
        None => Ok(()),
    }
}

// Puts the warning of a join and a rule at the end, if there is such a rule.
fn push_by(warnings: &mut Vec<Warning>, join: &Lead, rule: Option<&Rule>) -> Result<(), NoMemory>
    ensures pushed { OnOk result (warnings.new.items ≡ warnings.old.items ++ own_with join.now (option_copied rule.entry)) }
{
    let Some(rule) = rule else {
        return Ok(());
    };
    let Some(edge) = drawn_by(rule) else {
        return Ok(());
    };
    let mark = join.to;
    let by = join.origin;
    let word = WarningWord::Own;
    let about = About::Driven { mark, by, edge };
    warnings.push(Warning { word, about })?;
    Ok(())
}

// The first of some rules that holds a mark from above, after another mark.
fn first_holding(mark: u32, rules: &[Rule]) -> Option<&Rule>
    ensures { option_copied result ≡ find (holds mark) rules.now }
{
    rules.iter().find(|rule| holds(mark, rule))
}

fn holds(mark: u32, rule: &Rule) -> bool
    ensures { result ≡ holds mark rule.now }
{
    rule.target() == mark && has_high_from_other(mark, rule)
}

fn has_high_from_other(mark: u32, rule: &Rule) -> bool
    ensures { result ≡ list_any (is_high_from_other mark) rule.now.causes }
{
    rule.causes()
        .as_slice()
        .iter()
        .any(|cause| is_high_from_other(mark, cause))
}

fn is_high_from_other(mark: u32, cause: &RuleCause) -> bool
    ensures { result ≡ is_high_from_other mark cause.now }
{
    is_high(cause) && cause.mark != mark
}
