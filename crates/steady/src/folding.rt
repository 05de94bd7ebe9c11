//! One cycle with all rules of a design.

ghost use Rattle.std.specs.Prelude.{◌≡◌, ◌<◌, ◌≤◌, ◌-ℤ◌, ◌*◌, ℕ, All, IfOk, IfSome, IsTrue, length, map, slice_index_or, Option, pos};
ghost use Rattle.itv_base.specs.declared.limits.TheConstants.{MAX_CONSTRAINTS, MAX_EVENTS};
ghost use Rattle.sheet.specs.declared.rule.RuleCause.{RuleCause as CauseView};
ghost use Rattle.unroll.specs.Step.Between.{IsRuleBetween};
ghost use Rattle.longer_runs.specs.Folding.{rule_folded, source_folded};
ghost use Rattle.longer_runs.specs.Periods.{IsInStep, end_before, period_at, periods, range_folded};
ghost use Rattle.steady.specs.Steady.{folded_rules};

use event_graph::Network;
use itv_base::{MAX_CONSTRAINTS, NoMemory, Range};
use origin::Origin;
use sheet::{Rule, RuleCause, RuleCauses};
use std::alloc::Global;
use unroll::network_of;

/// One cycle with all rules: a cause of an earlier cycle is the mark of this cycle, so many periods before. The answer is `None` if a moved end of a range is
/// beyond the limit, or there are more rules than a network may have constraints.
pub fn folded_network(
    alloc: Global,
    marks: u32,
    rules: &[Rule],
    each: &[i64],
) -> Result<Option<Network>, NoMemory>
    requires between { All (IsRuleBetween marks) rules.now }
    requires marks { marks ≤ MAX_EVENTS }
    ensures net { IfOk result (λ net. IfSome net (λ net. net ≡ folded_rules each.now marks rules.now)) }
{
    if rules.len() > MAX_CONSTRAINTS as usize {
        return Ok(None);
    }
    match folded_rules(alloc, rules, each)? {
        None => Ok(None),
        Some(folded) => {
            let net = drawn_once(alloc, marks, rules, each, &folded)?;
            Ok(Some(net))
        }
    }
}

// The network that folded rules draw over one cycle.
fn drawn_once(
    alloc: Global,
    marks: u32,
    rules: &[Rule],
    each: &[i64],
    folded: &[Rule],
) -> Result<Network, NoMemory>
    requires between { All (IsRuleBetween marks) rules.now }
    requires marks { marks ≤ MAX_EVENTS }
    requires few { length rules.now ≤ MAX_CONSTRAINTS }
    requires folded { folded.now ≡ map (rule_folded each.now) rules.now }
    ensures net { IfOk result (λ net. net ≡ folded_rules each.now marks rules.now) }
{
    network_of(alloc, marks, 1, folded)
}

// The rules with their causes in the cycle of their targets, or `None` if an end is moved too far.
fn folded_rules(alloc: Global, rules: &[Rule], each: &[i64]) -> Result<Option<Vec<Rule>>, NoMemory>
    ensures { IfOk result (λ folded. IfSome folded (λ folded. folded.items ≡ map (rule_folded each.now) rules.now)) }
{
    let mut folded = Vec::new(alloc);
    for rule in rules {
        match folded_rule(alloc, rule, each)? {
            None => return Ok(None),
            Some(next) => folded.push(next)?,
        }
    }
    Ok(Some(folded))
}

fn folded_rule(alloc: Global, rule: &Rule, each: &[i64]) -> Result<Option<Rule>, NoMemory>
    ensures { IfOk result (λ folded. IfSome folded (λ folded. folded ≡ rule_folded each.now rule.now)) }
{
    let period = period_at(each, rule.target());
    match folded_causes(alloc, rule.causes().as_slice(), &period)? {
        None => Ok(None),
        Some(causes) => Ok(Some(Rule::new(rule.kind(), rule.target(), causes))),
    }
}

fn folded_causes(
    alloc: Global,
    sources: &[RuleCause],
    period: &i64,
) -> Result<Option<RuleCauses>, NoMemory>
    ensures { IfOk result (λ causes. IfSome causes (λ causes. causes ≡ map (source_folded period.now) sources.now)) }
{
    let mut causes = RuleCauses::new(alloc);
    for source in sources {
        match folded_source(source, period) {
            None => return Ok(None),
            Some(next) => causes.push(next)?,
        }
    }
    Ok(Some(causes))
}

// A cause of the same cycle in place of one some cycles before.
fn folded_source(source: &RuleCause, period: &i64) -> Option<RuleCause>
    ensures { IfSome result (λ folded. folded ≡ source_folded period.now source.now) }
{
    let origin: Origin = source.origin;
    let range = folded_range(source, period)?;
    Some(RuleCause {
        mark: source.mark,
        shift: 0,
        range,
        origin,
    })
}

// The range of a cause of an earlier cycle, from the mark of the same cycle instead.
fn folded_range(source: &RuleCause, period: &i64) -> Option<Range>
    ensures { IfSome result (λ range. range ≡ range_folded period.now source.now) }
{
    let by = periods(period, source.shift)?;
    let low = end_before(&by, source.range.low())?;
    let high = end_before(&by, source.range.high())?;
    Range::new(low, high).ok()
}

// An end of a range, so many picoseconds lower. The answer is `None` if the difference does not fit.
fn end_before(by: &i64, end: Option<i64>) -> Option<Option<i64>>
    ensures { IfSome result (λ moved. moved ≡ end_before by.now end) }
{
    match end {
        None => Some(None),
        Some(value) => match value.checked_sub(*by) {
            None => None,
            Some(moved) => Some(Some(moved)),
        },
    }
}

/// So many periods, or `None` if the product does not fit.
pub fn periods(period: &i64, count: u32) -> Option<i64>
    ensures periods { IfSome result (λ total. total ≡ periods period.now count) }
{
    let mut total: i64 = 0;
    for done in 0..count {
        total = total.checked_add(*period)?;
    }
    Some(total)
}

/// The period of a mark, and 0 if there is no such mark.
pub fn period_at(each: &[i64], mark: u32) -> i64
    ensures period { result ≡ period_at each.now mark }
{
    match each.get(mark as usize) {
        None => 0,
        Some(period) => *period,
    }
}

/// Whether the marks that each rule joins have one period.
pub fn are_in_step(rules: &[Rule], each: &[i64]) -> bool
    ensures in_step { IsTrue result → All (IsInStep each.now) rules.now }
{
    rules.iter().all(|rule| is_in_step(rule, each))
}

fn is_in_step(rule: &Rule, each: &[i64]) -> bool
    ensures { IsTrue result → IsInStep each.now rule.now }
{
    let period = period_at(each, rule.target());
    rule.causes()
        .as_slice()
        .iter()
        .all(|source| has_period(source, each, &period))
}

fn has_period(source: &RuleCause, each: &[i64], period: &i64) -> bool
    ensures { IsTrue result → period_at each.now source.now.mark ≡ period.now }
{
    period_at(each, source.mark) == *period
}
