//! The order on the lanes of a drawing.

ghost use Rattle.std.specs.Prelude.{◌≡◌, ◌+◌, ◌≤◌, ◌++◌, All, OnOk, IfOk};
ghost use Rattle.sheet.specs.Lanes.{follows_rule, order_of, lane_order, order_rules};
ghost use Rattle.sheet.specs.Step.{spans_of, numbered_by};

use crate::lanes::LaneSpan;
use crate::mark::MAX_MARKS;
use crate::rule::{Rule, RuleCause, RuleCauses};
use itv_base::{NoMemory, Range, RuleKind};
use origin::Origin;
use std::alloc::Global;
use wavejson::{LaneText, Lanes};

/// Puts the rules of the lanes that are in order at the end. A lane is in order if it has a name and a wave.
pub fn push_lane_orders(
    alloc: Global,
    rules: &mut Vec<Rule>,
    lanes: &Lanes,
    spans: &[LaneSpan],
) -> Result<(), NoMemory>
    requires spans { spans.now ≡ spans_of lanes.now }
    requires within { All (λ s. s.first + s.count ≤ MAX_MARKS) spans.now }
    ensures { OnOk result (rules.new.items ≡ rules.old.items ++ order_rules lanes.now) }
{
    for (k, span) in spans.iter().enumerate() {
        let number = k as u64;
        push_lane_order(alloc, rules, number, lanes.get(number), *span)?;
    }
    Ok(())
}

// Puts the rules of the lane with this number at the end, if the lane is in order.
fn push_lane_order(
    alloc: Global,
    rules: &mut Vec<Rule>,
    number: u64,
    lane: &LaneText,
    span: LaneSpan,
) -> Result<(), NoMemory>
    requires { span.first + span.count ≤ MAX_MARKS }
    ensures { OnOk result (rules.new.items ≡ rules.old.items ++ lane_order (numbered_by number lane.now span)) }
{
    if lane.name.is_some() && lane.wave.is_some() {
        push_order(alloc, rules, Origin::Lane(number), span)?;
    }
    Ok(())
}

// Each mark and the next, and then the last mark and the first mark of the next cycle.
fn push_order(
    alloc: Global,
    rules: &mut Vec<Rule>,
    origin: Origin,
    span: LaneSpan,
) -> Result<(), NoMemory>
    requires { span.first + span.count ≤ MAX_MARKS }
    ensures { OnOk result (rules.new.items ≡ rules.old.items ++ order_of origin span.first span.count) }
{
    if span.count == 0 {
        return Ok(());
    }
    let last = span.first + span.count - 1;
    for k in span.first..last {
        rules.push(follows(alloc, origin, k, k + 1, 0)?)?;
    }
    rules.push(follows(alloc, origin, last, span.first, 1)?)?;
    Ok(())
}

// The target comes no earlier than a mark this many cycles before it.
fn follows(alloc: Global, origin: Origin, from: u32, to: u32, shift: u32) -> Result<Rule, NoMemory>
    ensures { IfOk result (λ rule. rule ≡ follows_rule origin from to shift) }
{
    let mut causes = RuleCauses::new(alloc);
    causes.push(RuleCause {
        mark: from,
        shift,
        range: Range::new(Some(0), None).unwrap(),
        origin,
    })?;
    Ok(Rule::new(RuleKind::Lin, to, causes))
}
