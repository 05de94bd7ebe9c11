//! The rules of one cycle of a design, by the numbers of its marks.

ghost use Rattle.std.specs.Prelude.{◌≡◌, ◌≤◌, ◌<◌, ◌++◌, ◌∷◌, [], All, IfOk, OnOk, map};
ghost use Rattle.itv_base.specs.declared.limits.TheConstants.{MAX_EVENTS};
ghost use Rattle.compose.specs.Design.{IsJoinOf};
ghost use Rattle.compose.specs.Joins.{joins_of_pins, pin_joins};
ghost use Rattle.compose.specs.Numbers.{join_rule};
ghost use Rattle.unroll.specs.Cycle.{part_rules, rule_behind, rules_of, source_behind};
ghost use Rattle.unroll.specs.Step.Between.{IsRuleBetween};
ghost use Rattle.unroll.specs.Step.Kept.{kept_rules};

use crate::network::rule_exists;
use crate::numbered_design::NumberedDesign;
use compose::{Join, PinJoins};
use itv_base::{NoMemory, RuleKind};
use origin::Origin;
use sheet::{Rule, RuleCause, RuleCauses};
use std::alloc::Global;

/// The rules of a design that exist in some cycle: the rules of the parts, then of the nets, then of the wires.
pub fn rules_of(alloc: Global, design: &NumberedDesign<'_>) -> Result<Vec<Rule>, NoMemory>
    ensures { IfOk result (λ rules. rules.items ≡ kept_rules design.now.cycles (rules_of design.now)) }
{
    let mut rules = Vec::new(alloc);
    keep_parts(alloc, &mut rules, design)?;
    keep_joins(alloc, &mut rules, design, design.design().joins().pins())?;
    keep_wires(alloc, &mut rules, design)?;
    Ok(rules)
}

// Puts a rule at the end, if it exists in some cycle.
fn keep(rules: &mut Vec<Rule>, cycles: u32, rule: Rule) -> Result<(), NoMemory>
    requires { 1 ≤ cycles }
    ensures { OnOk result (rules.new.items ≡ rules.old.items ++ kept_rules cycles (rule ∷ [])) }
{
    if rule_exists(cycles - 1, &rule) {
        rules.push(rule)?;
    }
    Ok(())
}

// ---- parts

// Puts the rules of the parts at the end.
fn keep_parts(
    alloc: Global,
    rules: &mut Vec<Rule>,
    design: &NumberedDesign<'_>,
) -> Result<(), NoMemory>
    ensures { OnOk result (rules.new.items
        ≡ rules.old.items ++ kept_rules design.now.cycles (part_rules 0 design.now.sheets)) }
{
    let parts = design.design().parts().len() as u32;
    let cycles = design.design().cycles();
    for part in 0..parts {
        let first = design.first_of(part);
        let sheet = design.design().sheet_of(part);
        keep_rules(alloc, rules, cycles, first, sheet.rules().as_slice())?;
    }
    Ok(())
}

// Puts the rules of a sheet at the end, if they exist in some cycle. The first mark of the sheet has the number `first`.
fn keep_rules(
    alloc: Global,
    rules: &mut Vec<Rule>,
    cycles: u32,
    first: u32,
    more: &[Rule],
) -> Result<(), NoMemory>
    requires cycles { 1 ≤ cycles }
    requires between { All (IsRuleBetween MAX_EVENTS) more.now }
    requires first { first ≤ MAX_EVENTS }
    ensures { OnOk result (rules.new.items
        ≡ rules.old.items ++ kept_rules cycles (map (rule_behind first) more.now)) }
{
    for rule in more {
        keep_rule(alloc, rules, cycles, first, rule)?;
    }
    Ok(())
}

// Puts one rule of a sheet at the end. If it exists in no cycle, no memory is taken for it. The first mark of the sheet has the
// number `first`.
fn keep_rule(
    alloc: Global,
    rules: &mut Vec<Rule>,
    cycles: u32,
    first: u32,
    rule: &Rule,
) -> Result<(), NoMemory>
    requires cycles { 1 ≤ cycles }
    requires between { IsRuleBetween MAX_EVENTS rule.now }
    requires first { first ≤ MAX_EVENTS }
    ensures { OnOk result (rules.new.items
        ≡ rules.old.items ++ kept_rules cycles (rule_behind first rule.now ∷ [])) }
{
    if rule_exists(cycles - 1, rule) {
        rules.push(rule_behind(alloc, first, rule)?)?;
    }
    Ok(())
}

fn rule_behind(alloc: Global, first: u32, rule: &Rule) -> Result<Rule, NoMemory>
    requires between { IsRuleBetween MAX_EVENTS rule.now }
    requires first { first ≤ MAX_EVENTS }
    ensures { IfOk result (λ moved. moved ≡ rule_behind first rule.now) }
{
    let causes = sources_behind(alloc, first, rule.causes().as_slice())?;
    Ok(Rule::new(rule.kind(), first + rule.target(), causes))
}

fn sources_behind(alloc: Global, first: u32, sources: &[RuleCause]) -> Result<RuleCauses, NoMemory>
    requires marks { All (λ (source : RuleCause). source.mark < MAX_EVENTS) sources.now }
    requires first { first ≤ MAX_EVENTS }
    ensures { IfOk result (λ causes. causes ≡ map (source_behind first) sources.now) }
{
    let mut causes = RuleCauses::new(alloc);
    for source in sources {
        let origin: Origin = source.origin;
        causes.push(RuleCause {
            mark: first + source.mark,
            origin,
            ..*source
        })?;
    }
    Ok(causes)
}

// ---- nets

// Puts the rules of the joins of pins at the end.
fn keep_joins(
    alloc: Global,
    rules: &mut Vec<Rule>,
    design: &NumberedDesign<'_>,
    pins: &[PinJoins],
) -> Result<(), NoMemory>
    requires { All (IsJoinOf design.now.sheets) (joins_of_pins pins.now) }
    ensures { OnOk result (rules.new.items ≡ rules.old.items
        ++ kept_rules design.now.cycles (map (join_rule design.now.sheets) (joins_of_pins pins.now))) }
{
    for pin in pins {
        keep_pin(alloc, rules, design, pin)?;
    }
    Ok(())
}

// Puts the rules of the joins of a pin at the end.
fn keep_pin(
    alloc: Global,
    rules: &mut Vec<Rule>,
    design: &NumberedDesign<'_>,
    pin: &PinJoins,
) -> Result<(), NoMemory>
    requires { All (IsJoinOf design.now.sheets) (pin_joins pin.now) }
    ensures { OnOk result (rules.new.items ≡ rules.old.items
        ++ kept_rules design.now.cycles (map (join_rule design.now.sheets) (pin_joins pin.now))) }
{
    let cycles = design.design().cycles();
    for k in 0..pin.marks {
        keep(rules, cycles, join_rule(alloc, design, &pin.join(k))?)?;
    }
    Ok(())
}

fn join_rule(alloc: Global, design: &NumberedDesign<'_>, join: &Join) -> Result<Rule, NoMemory>
    requires { IsJoinOf design.now.sheets join.now }
    ensures { IfOk result (λ rule. rule ≡ join_rule design.now.sheets join.now) }
{
    let mut causes = RuleCauses::new(alloc);
    causes.push(RuleCause {
        mark: design.number_of(join.from),
        shift: 0,
        range: join.delay,
        origin: join.origin,
    })?;
    Ok(Rule::new(RuleKind::Lin, design.number_of(join.to), causes))
}

// ---- wires

// Puts the rules of the wires at the end. They are between the marks of the design already.
fn keep_wires(
    alloc: Global,
    rules: &mut Vec<Rule>,
    design: &NumberedDesign<'_>,
) -> Result<(), NoMemory>
    ensures { OnOk result (rules.new.items ≡ rules.old.items ++ kept_rules design.now.cycles design.now.rules) }
{
    let cycles = design.design().cycles();
    let wires = design.design().wire_rules().as_slice();
    keep_rules(alloc, rules, cycles, 0, wires)
}
