//! All warnings of a design.

ghost use Rattle.std.specs.Prelude.{◌≡◌, ◌++◌, IfOk, Ok, OnOk};
ghost use Rattle.std.specs.List.{flat_map};
ghost use Rattle.compose.specs.Compose.{composed_on};
ghost use Rattle.design_plan.specs.Plan.{sheets_on};
ghost use Rattle.lint.specs.Driven.{join_warnings};
ghost use Rattle.lint.specs.Leads.{join_leads, leads_of};
ghost use Rattle.lint.specs.Periods.{is_join_into, period_warnings};
ghost use Rattle.lint.specs.Step.{AreFirst};
ghost use Rattle.lint.specs.Texts.{text_warnings};
ghost use Rattle.lint.specs.Warnings.{rule_warnings, warnings_of};

use crate::asked::push_asked;
use crate::both::push_both;
use crate::clock::first_joins;
use crate::drivers::push_drivers;
use crate::firsts::FirstLeads;
use crate::followers::push_followers;
use crate::held::push_held;
use crate::keys::push_keys;
use crate::lead::Lead;
use crate::leads::{joins_of, leads_of};
use crate::own::push_own;
use crate::periods::push_rivals;
use crate::single::push_single;
use crate::texts::{TextCheck, push_checked};
use crate::units::push_units;
use crate::warning::Warning;
use compose::Design;
use design_plan::Plan;
use itv_base::NoMemory;
use std::alloc::Global;

/// The warnings of a design and of the plan that it was composed of, in their order.
pub fn warnings_of(
    alloc: Global,
    plan: &Plan,
    design: &Design<'_>,
) -> Result<Vec<Warning>, NoMemory>
    requires design { composed_on plan.now.netlist (sheets_on plan.now.sheets plan.now.netlist.parts) ≡ Ok design.now }
    ensures warnings { IfOk result (λ warnings. warnings.items ≡ warnings_of plan.now design.now) }
{
    let mut warnings = Vec::new(alloc);
    push_all(alloc, &mut warnings, plan, design)?;
    Ok(warnings)
}

// Puts all warnings at the end.
fn push_all(
    alloc: Global,
    warnings: &mut Vec<Warning>,
    plan: &Plan,
    design: &Design<'_>,
) -> Result<(), NoMemory>
    ensures pushed { OnOk result (warnings.new.items ≡ warnings.old.items ++ warnings_of plan.now design.now) }
{
    push_asked(warnings, design)?;
    push_texts(warnings, plan, design)?;
    let leads = leads_of(alloc, design)?;
    push_leads(alloc, warnings, &leads, plan, design)
}

// Puts the warnings after those of texts at the end. The leads are those of the design.
fn push_leads(
    alloc: Global,
    warnings: &mut Vec<Warning>,
    leads: &[Lead],
    plan: &Plan,
    design: &Design<'_>,
) -> Result<(), NoMemory>
    requires leads { leads.now ≡ leads_of design.now }
    ensures pushed { OnOk result (warnings.new.items ≡ warnings.old.items ++ (rule_warnings plan.now design.now ++ join_warnings design.now)) }
{
    push_rules(alloc, warnings, leads, plan, design)?;
    push_joins(alloc, warnings, leads, design)
}

// Puts the warnings of the texts of edges, and of keys, at the end.
fn push_texts(warnings: &mut Vec<Warning>, plan: &Plan, design: &Design<'_>) -> Result<(), NoMemory>
    ensures pushed { OnOk result (warnings.new.items ≡ warnings.old.items ++ text_warnings plan.now design.now) }
{
    push_checked(warnings, TextCheck::Comment, plan, design)?;
    push_checked(warnings, TextCheck::Word, plan, design)?;
    push_checked(warnings, TextCheck::Note, plan, design)?;
    push_keys(warnings, plan, design)
}

// Puts the warnings of ranges, rules and rows at the end. The leads are those of the design.
fn push_rules(
    alloc: Global,
    warnings: &mut Vec<Warning>,
    leads: &[Lead],
    plan: &Plan,
    design: &Design<'_>,
) -> Result<(), NoMemory>
    requires leads { leads.now ≡ leads_of design.now }
    ensures pushed { OnOk result (warnings.new.items ≡ warnings.old.items ++ rule_warnings plan.now design.now) }
{
    push_units(alloc, warnings, plan, design)?;
    push_both(alloc, warnings, leads, plan, design)?;
    push_single(warnings, design)?;
    push_periods(alloc, warnings, leads, design)
}

// Puts the warnings of periods at the end. The leads are those of the design.
fn push_periods(
    alloc: Global,
    warnings: &mut Vec<Warning>,
    leads: &[Lead],
    design: &Design<'_>,
) -> Result<(), NoMemory>
    requires leads { leads.now ≡ leads_of design.now }
    ensures pushed { OnOk result (warnings.new.items ≡ warnings.old.items ++ period_warnings design.now) }
{
    let joins = first_joins(alloc, leads)?;
    let pushed = push_timed(alloc, warnings, &joins, leads, design);
    drop(joins);
    pushed
}

// Puts the warnings of periods at the end. The table has the first joins into marks.
fn push_timed(
    alloc: Global,
    warnings: &mut Vec<Warning>,
    joins: &FirstLeads,
    leads: &[Lead],
    design: &Design<'_>,
) -> Result<(), NoMemory>
    requires leads { leads.now ≡ leads_of design.now }
    requires joins { AreFirst is_join_into joins.now leads.now }
    ensures pushed { OnOk result (warnings.new.items ≡ warnings.old.items ++ period_warnings design.now) }
{
    push_rivals(alloc, warnings, joins, leads)?;
    push_followers(alloc, warnings, joins, leads, design)
}

// Puts the warnings of marks that follow drivers at the end. The leads are those of the design.
fn push_joins(
    alloc: Global,
    warnings: &mut Vec<Warning>,
    leads: &[Lead],
    design: &Design<'_>,
) -> Result<(), NoMemory>
    requires leads { leads.now ≡ leads_of design.now }
    ensures pushed { OnOk result (warnings.new.items ≡ warnings.old.items ++ join_warnings design.now) }
{
    let joins = joins_of(alloc, design)?;
    push_driven(alloc, warnings, leads, &joins, design)
}

// Puts the warnings of marks that follow drivers at the end. The leads and the joins are those of the design.
fn push_driven(
    alloc: Global,
    warnings: &mut Vec<Warning>,
    leads: &[Lead],
    joins: &[Lead],
    design: &Design<'_>,
) -> Result<(), NoMemory>
    requires leads { leads.now ≡ leads_of design.now }
    requires joins { joins.now ≡ flat_map join_leads design.now.joins }
    ensures pushed { OnOk result (warnings.new.items ≡ warnings.old.items ++ join_warnings design.now) }
{
    push_drivers(alloc, warnings, joins, design)?;
    push_own(warnings, joins, design)?;
    push_held(warnings, leads, design)
}
