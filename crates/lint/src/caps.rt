//! Rules that cap marks, as leads.

ghost use Rattle.std.specs.Prelude.{◌≡◌, ◌++◌, ◌∷◌, [], IfOk, OnOk};
ghost use Rattle.lint.specs.Lists.{each_from, netlist_part};
ghost use Rattle.lint.specs.Step.{cap_lead, caps_in, rule_caps, sheet_caps};

use crate::asked::part_count;
use crate::lead::Lead;
use crate::rule::first_cause;
use crate::skew::is_cap;
use compose::{Design, DesignMark};
use design_plan::Plan;
use itv_base::{NoMemory, Texts};
use origin::Origin;
use sheet::{Rule, RuleCause};
use std::alloc::Global;

/// The caps of the sheets of a design.
pub fn sheet_caps(alloc: Global, design: &Design<'_>) -> Result<Vec<Lead>, NoMemory>
    ensures caps { IfOk result (λ caps. caps.items ≡ each_from sheet_caps 0 design.now.sheets) }
{
    let mut caps = Vec::new(alloc);
    push_sheets(&mut caps, design)?;
    Ok(caps)
}

/// The caps of the netlist, whose marks are numbered alone.
pub fn wire_caps(alloc: Global, plan: &Plan, design: &Design<'_>) -> Result<Vec<Lead>, NoMemory>
    ensures caps { IfOk result (λ caps. caps.items ≡ caps_in netlist_part plan.now.netlist.edges design.now.rules) }
{
    let mut caps = Vec::new(alloc);
    push_rules(
        &mut caps,
        0,
        plan.netlist().edges(),
        design.wire_rules().as_slice(),
    )?;
    Ok(caps)
}

// Puts the caps of the sheets at the end.
fn push_sheets(caps: &mut Vec<Lead>, design: &Design<'_>) -> Result<(), NoMemory>
    ensures pushed { OnOk result (caps.new.items ≡ caps.old.items ++ each_from sheet_caps 0 design.now.sheets) }
{
    for part in 0..part_count(design) {
        let sheet = design.sheet_of(part);
        push_rules(caps, part, sheet.edges(), sheet.rules().as_slice())?;
    }
    Ok(())
}

// Puts the caps among some rules, whose edges have these texts, at the end.
fn push_rules(
    caps: &mut Vec<Lead>,
    part: u32,
    texts: &Texts,
    rules: &[Rule],
) -> Result<(), NoMemory>
    ensures pushed { OnOk result (caps.new.items ≡ caps.old.items ++ caps_in part texts.now rules.now) }
{
    for rule in rules {
        push_rule(caps, part, texts, rule)?;
    }
    Ok(())
}

// Puts a rule at the end, if it is a cap.
fn push_rule(caps: &mut Vec<Lead>, part: u32, texts: &Texts, rule: &Rule) -> Result<(), NoMemory>
    ensures pushed { OnOk result (caps.new.items ≡ caps.old.items ++ rule_caps part texts.now rule.now) }
{
    if is_cap(texts, rule) {
        if let Some(cause) = first_cause(rule) {
            push_lead(caps, part, rule, cause)?;
        }
    }
    Ok(())
}

// Puts the lead of a cause of a rule on the sheet of a part at the end.
fn push_lead(caps: &mut Vec<Lead>, part: u32, rule: &Rule, cause: RuleCause) -> Result<(), NoMemory>
    ensures pushed { OnOk result (caps.new.items ≡ caps.old.items ++ cap_lead part rule.now cause ∷ []) }
{
    let from = DesignMark {
        part,
        mark: cause.mark,
    };
    let to = DesignMark {
        part,
        mark: rule.target(),
    };
    let origin: Origin = cause.origin;
    caps.push(Lead {
        from,
        to,
        kind: rule.kind(),
        shift: cause.shift,
        range: cause.range,
        origin,
    })?;
    Ok(())
}
