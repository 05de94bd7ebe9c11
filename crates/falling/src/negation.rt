//! The network that negated times satisfy.

ghost use Rattle.std.specs.Prelude.{◌≡◌, ◌<◌, ◌++◌, ◌∷◌, [], IfOk, OnOk, length, slice_get, Some};
ghost use Rattle.event_graph.specs.Network.{Constraint, IsNet};
ghost use Rattle.falling.specs.Kinds.{negated, negated_cause, negated_constraint, negated_ends, negated_kind};
ghost use Rattle.falling.specs.Step.Kinds.{AreNegatedCauses};

use event_graph::{Cause, Network, PushFault, negated_end};
use itv_base::{NoMemory, Range, RuleKind};
use std::alloc::Global;

/// The negation of a network: each range has the negated numbers, and latest and earliest change places.
pub fn negation_of(alloc: Global, net: &Network) -> Result<Network, NoMemory>
    ensures { IfOk result (λ negation. negation ≡ negated net.now) }
{
    let mut negation = Network::new(alloc, net.events())?;
    for number in 0..net.len() {
        match push_negated(alloc, net, number, &mut negation) {
            Ok(()) => {}
            Err(_) => return Err(NoMemory),
        }
    }
    Ok(negation)
}

// Adds the negation of the constraint of a number, after the negations of the constraints before it.
fn push_negated(
    alloc: Global,
    net: &Network,
    number: u32,
    negation: &mut Network,
) -> Result<(), PushFault>
    requires net { IsNet net.now }
    requires number { number < length net.now.constraints }
    requires events { negation.old.events ≡ net.now.events }
    ensures events { negation.new.events ≡ negation.old.events }
    ensures added { OnOk result ((k : Constraint) → slice_get net.now.constraints number ≡ Some k
        → negation.new.constraints ≡ negation.old.constraints ++ negated_constraint k ∷ []) }
{
    let causes = negated_causes(alloc, net, number)?;
    let target = net.target(number);
    let kind = negated_kind(net.kind(number));
    negation.push(alloc, kind, target, &causes)
}

// The kind of the constraint that negated times meet.
fn negated_kind(kind: RuleKind) -> RuleKind
    ensures { result ≡ negated_kind kind }
{
    match kind {
        RuleKind::Lin => RuleKind::Lin,
        RuleKind::Late => RuleKind::Early,
        RuleKind::Early => RuleKind::Late,
    }
}

// The causes of a constraint with the negated ranges.
fn negated_causes(alloc: Global, net: &Network, number: u32) -> Result<Vec<Cause>, NoMemory>
    requires net { IsNet net.now }
    requires number { number < length net.now.constraints }
    ensures { IfOk result (λ causes. AreNegatedCauses net.now number causes.items) }
{
    let count = net.cause_count(number);
    let mut causes = Vec::new(alloc);
    for cause in 0..count.max(1) {
        causes.push(negated(net.cause(number, cause)))?;
    }
    Ok(causes)
}

/// The cause with the negated range.
pub fn negated(cause: Cause) -> Cause
    ensures { result ≡ negated_cause cause }
{
    Cause {
        event: cause.event,
        range: negated_range(cause.range),
    }
}

// The range of the negated numbers.
fn negated_range(range: Range) -> Range
    ensures { result ≡ negated_ends range }
{
    match Range::new(negated_end(range.high()), negated_end(range.low())) {
        Ok(range) => range,
        Err(_) => unreachable!(),
    }
}
