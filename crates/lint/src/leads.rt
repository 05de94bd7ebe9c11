//! All leads of a design.

ghost use Rattle.std.specs.Prelude.{◌≡◌, ◌++◌, IfOk, OnOk};
ghost use Rattle.std.specs.List.{flat_map};
ghost use Rattle.compose.specs.Joins.{pin_joins};
ghost use Rattle.lint.specs.Leads.{cause_leads, join_leads, leads_of, rule_leads, sheet_leads};
ghost use Rattle.lint.specs.Lists.{each_from};
ghost use Rattle.lint.specs.Step.{IsPinOf};

use crate::asked::part_count;
use crate::home::Home;
use crate::lead::Lead;
use crate::pins::join_of;
use compose::{Design, DesignMark, Join, PinJoins};
use itv_base::{NoMemory, RuleKind};
use origin::Origin;
use sheet::{Rule, RuleCause};
use std::alloc::Global;

/// The leads of a design: of the sheets, then of the nets, then of the wires.
pub fn leads_of(alloc: Global, design: &Design<'_>) -> Result<Vec<Lead>, NoMemory>
    ensures leads { IfOk result (λ leads. leads.items ≡ leads_of design.now) }
{
    let mut leads = Vec::new(alloc);
    push_sheets(&mut leads, design)?;
    push_joins(&mut leads, design)?;
    push_rules(
        &mut leads,
        Home::Netlist,
        design.wire_rules().as_slice(),
        design,
    )?;
    Ok(leads)
}

// Puts the leads of the sheets at the end.
fn push_sheets(leads: &mut Vec<Lead>, design: &Design<'_>) -> Result<(), NoMemory>
    ensures pushed { OnOk result (leads.new.items ≡ leads.old.items ++ each_from (sheet_leads design.now.sheets) 0 design.now.sheets) }
{
    for part in 0..part_count(design) {
        push_rules(
            leads,
            Home::Sheet(part),
            design.sheet_of(part).rules().as_slice(),
            design,
        )?;
    }
    Ok(())
}

// Puts the leads of some rules at the end.
fn push_rules(
    leads: &mut Vec<Lead>,
    home: Home,
    rules: &[Rule],
    design: &Design<'_>,
) -> Result<(), NoMemory>
    ensures pushed { OnOk result (leads.new.items ≡ leads.old.items ++ flat_map (rule_leads design.now.sheets home) rules.now) }
{
    for rule in rules {
        push_rule(leads, home, rule, design)?;
    }
    Ok(())
}

// Puts the leads of a rule at the end.
fn push_rule(
    leads: &mut Vec<Lead>,
    home: Home,
    rule: &Rule,
    design: &Design<'_>,
) -> Result<(), NoMemory>
    ensures pushed { OnOk result (leads.new.items ≡ leads.old.items ++ rule_leads design.now.sheets home rule.now) }
{
    let to = home.mark(rule.target(), design);
    push_causes(
        leads,
        home,
        rule.kind(),
        to,
        rule.causes().as_slice(),
        design,
    )
}

// Puts the leads of the causes of a rule of a kind into a mark at the end.
fn push_causes(
    leads: &mut Vec<Lead>,
    home: Home,
    kind: RuleKind,
    to: DesignMark,
    causes: &[RuleCause],
    design: &Design<'_>,
) -> Result<(), NoMemory>
    ensures pushed { OnOk result (leads.new.items ≡ leads.old.items ++ flat_map (cause_leads design.now.sheets home kind to) causes.now) }
{
    for cause in causes {
        push_cause(leads, home, kind, to, cause, design)?;
    }
    Ok(())
}

// Puts the lead of a cause at the end, unless the order of a lane draws the cause.
fn push_cause(
    leads: &mut Vec<Lead>,
    home: Home,
    kind: RuleKind,
    to: DesignMark,
    cause: &RuleCause,
    design: &Design<'_>,
) -> Result<(), NoMemory>
    ensures pushed { OnOk result (leads.new.items ≡ leads.old.items ++ cause_leads design.now.sheets home kind to cause.now) }
{
    if cause.origin.is_lane() {
        return Ok(());
    }
    let from = home.mark(cause.mark, design);
    let origin: Origin = cause.origin;
    leads.push(Lead {
        from,
        to,
        kind,
        shift: cause.shift,
        range: cause.range,
        origin,
    })?;
    Ok(())
}

/// The leads of the joins of the nets.
pub fn joins_of(alloc: Global, design: &Design<'_>) -> Result<Vec<Lead>, NoMemory>
    ensures joins { IfOk result (λ joins. joins.items ≡ flat_map join_leads design.now.joins) }
{
    let mut joins = Vec::new(alloc);
    push_joins(&mut joins, design)?;
    Ok(joins)
}

// Puts the leads of the joins of the nets at the end.
fn push_joins(leads: &mut Vec<Lead>, design: &Design<'_>) -> Result<(), NoMemory>
    ensures pushed { OnOk result (leads.new.items ≡ leads.old.items ++ flat_map join_leads design.now.joins) }
{
    // The joins go between marks of the design.
    let _cycles = design.cycles();
    for pin in design.joins().pins() {
        push_pin(leads, pin, design)?;
    }
    Ok(())
}

// Puts the leads of the joins of a pin at the end.
fn push_pin(leads: &mut Vec<Lead>, pin: &PinJoins, design: &Design<'_>) -> Result<(), NoMemory>
    requires pin { IsPinOf design.now pin.now }
    ensures pushed { OnOk result (leads.new.items ≡ leads.old.items ++ flat_map join_leads (pin_joins pin.now)) }
{
    for k in 0..pin.marks {
        push_join(leads, &join_of(pin, k, design))?;
    }
    Ok(())
}

// Puts the lead of a join at the end.
fn push_join(leads: &mut Vec<Lead>, join: &Join) -> Result<(), NoMemory>
    ensures pushed { OnOk result (leads.new.items ≡ leads.old.items ++ join_leads join.now) }
{
    let origin: Origin = join.origin;
    leads.push(Lead {
        from: join.from,
        to: join.to,
        kind: RuleKind::Lin,
        shift: 0,
        range: join.delay,
        origin,
    })?;
    Ok(())
}
