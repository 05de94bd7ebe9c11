//! One cycle of a design with all its rules and rows.

ghost use Rattle.std.specs.Prelude.{◌≡◌, ◌<◌, ◌≤◌, All, IfOk};
ghost use Rattle.itv_base.specs.declared.limits.TheConstants.{MAX_EVENTS, MAX_SHIFT};
ghost use Rattle.compose.specs.Numbers.{mark_count};
ghost use Rattle.unroll.specs.Cycle.{rows_of, rules_of};
ghost use Rattle.unroll.specs.Step.Between.{IsRowBetween, IsRuleBetween};

use crate::asked::rows_of;
use crate::counts::Counts;
use crate::numbered_design::NumberedDesign;
use crate::rules::rules_of;
use compose::Design;
use itv_base::NoMemory;
use sheet::{Rule, SheetRow};
use std::alloc::Global;

/// How many marks a design has.
pub fn mark_count(design: &Design<'_>) -> u128
    ensures count { result ≡ mark_count design.now.sheets }
{
    Counts::of(design).marks
}

/// All rules of a design that runs for more cycles than a rule may look back, between the numbers of its marks.
pub fn all_rules(alloc: Global, design: &Design<'_>) -> Result<Vec<Rule>, NoMemory>
    requires marks { mark_count design.now.sheets ≤ MAX_EVENTS }
    requires cycles { MAX_SHIFT < design.now.cycles }
    ensures rules { IfOk result (λ rules. rules.items ≡ rules_of design.now) }
    ensures between { IfOk result (λ rules. All (IsRuleBetween (mark_count design.now.sheets)) rules.items) }
{
    // The call also gives the invariant: rules look back by few cycles.
    let _cycles = design.cycles();
    let numbered = NumberedDesign::new(alloc, design)?;
    let rules = rules_of(alloc, &numbered)?;
    drop(numbered);
    Ok(rules)
}

/// All rows of a design that runs for more cycles than a row may look back, between the numbers of its marks.
pub fn all_rows(alloc: Global, design: &Design<'_>) -> Result<Vec<SheetRow>, NoMemory>
    requires marks { mark_count design.now.sheets ≤ MAX_EVENTS }
    requires cycles { MAX_SHIFT < design.now.cycles }
    ensures rows { IfOk result (λ rows. rows.items ≡ rows_of design.now) }
    ensures between { IfOk result (λ rows. All (IsRowBetween (mark_count design.now.sheets)) rows.items) }
{
    let _cycles = design.cycles();
    let numbered = NumberedDesign::new(alloc, design)?;
    let rows = rows_of(alloc, &numbered)?;
    drop(numbered);
    Ok(rows)
}
