//! The constraints of rules, cycle by cycle.

ghost use Rattle.std.specs.Prelude.{◌≡◌, ◌≤◌, ◌<◌, ◌+◌, ◌*◌, ◌++◌, ◌∷◌, [], true, nat_le, All, IfOk, OnOk, length, map};
ghost use Rattle.std.specs.List.{filter_map, list_all};
ghost use Rattle.std.specs.Option.{option_to_list};
ghost use Rattle.event_graph.specs.Network.{IsConstraint};
ghost use Rattle.unroll.specs.Cycles.{cause_in, constraint_in, constraints_of, event_in, rule_exists};
ghost use Rattle.unroll.specs.Step.Between.{IsRuleBetween};

use event_graph::{Cause, Network, PushFault};
use itv_base::{EventId, MAX_CONSTRAINTS, MAX_EVENTS, NoMemory, RuleKind};
use sheet::{Rule, RuleCause};
use std::alloc::Global;

/// The network of rules in so many cycles, with so many marks in each.
pub fn network_of(
    alloc: Global,
    marks: u32,
    cycles: u32,
    rules: &[Rule],
) -> Result<Network, NoMemory>
    requires between { All (IsRuleBetween marks) rules.now }
    requires events { cycles * marks ≤ MAX_EVENTS }
    requires room { length (constraints_of marks rules.now cycles) ≤ MAX_CONSTRAINTS }
    ensures { IfOk result (λ net. net
        ≡ record { events = cycles * marks; constraints = constraints_of marks rules.now cycles }) }
{
    let mut network = Network::new(alloc, cycles * marks)?;
    for cycle in 0..cycles {
        push_cycle(alloc, &mut network, marks, cycle, rules)?;
    }
    Ok(network)
}

// Puts the constraints of rules in a cycle at the end.
fn push_cycle(
    alloc: Global,
    network: &mut Network,
    marks: u32,
    cycle: u32,
    rules: &[Rule],
) -> Result<(), NoMemory>
    requires between { All (IsRuleBetween marks) rules.now }
    requires events { network.old.events ≤ MAX_EVENTS }
    requires cycle { (cycle + 1) * marks ≤ network.old.events }
    requires room { length network.old.constraints
        + length (filter_map (constraint_in marks cycle) rules.now) ≤ MAX_CONSTRAINTS }
    ensures { OnOk result (network.new ≡ record network.old {
      constraints = network.old.constraints ++ filter_map (constraint_in marks cycle) rules.now;
    }) }
{
    for rule in rules {
        push_rule(alloc, network, marks, cycle, rule)?;
    }
    Ok(())
}

// Puts the constraint of a rule in a cycle at the end, if it exists there.
fn push_rule(
    alloc: Global,
    network: &mut Network,
    marks: u32,
    cycle: u32,
    rule: &Rule,
) -> Result<(), NoMemory>
    requires between { IsRuleBetween marks rule.now }
    requires events { network.old.events ≤ MAX_EVENTS }
    requires cycle { (cycle + 1) * marks ≤ network.old.events }
    requires room { length network.old.constraints
        + length (option_to_list (constraint_in marks cycle rule.now)) ≤ MAX_CONSTRAINTS }
    ensures { OnOk result (network.new ≡ record network.old {
      constraints = network.old.constraints ++ option_to_list (constraint_in marks cycle rule.now);
    }) }
{
    if !rule_exists(cycle, rule) {
        return Ok(());
    }
    let causes = causes_in(alloc, marks, cycle, rule.causes().as_slice())?;
    let target = event_in(marks, cycle, rule.target());
    push(alloc, network, rule.kind(), target, &causes)
}

// Puts a constraint at the end of a network. The network has room for it.
fn push(
    alloc: Global,
    network: &mut Network,
    kind: RuleKind,
    target: EventId,
    causes: &[Cause],
) -> Result<(), NoMemory>
    requires constraint { IsConstraint network.old.events
        (record { kind = kind; target = target; causes = causes.now }) }
    requires room { length network.old.constraints < MAX_CONSTRAINTS }
    ensures { OnOk result (network.new ≡ record network.old {
      constraints = network.old.constraints ++ record { kind = kind; target = target; causes = causes.now } ∷ [];
    }) }
{
    match network.push(alloc, kind, target, causes) {
        Ok(()) => Ok(()),
        Err(PushFault::NoMemory) => Err(NoMemory),
        Err(PushFault::Full(_)) => unreachable!(),
    }
}

/// Whether every cause of a rule is in some cycle, if the target is in this one.
pub fn rule_exists(cycle: u32, rule: &Rule) -> bool
    ensures { result ≡ rule_exists cycle rule.now }
{
    all_exist(cycle, rule.causes().as_slice())
}

fn all_exist(cycle: u32, sources: &[RuleCause]) -> bool
    ensures { result ≡ list_all (λ source. nat_le source.shift cycle) sources.now }
{
    sources.iter().all(|source| source.shift <= cycle)
}

fn causes_in(
    alloc: Global,
    marks: u32,
    cycle: u32,
    sources: &[RuleCause],
) -> Result<Vec<Cause>, NoMemory>
    requires marks { All (λ (source : RuleCause). source.mark < marks) sources.now }
    requires exist { list_all (λ source. nat_le source.shift cycle) sources.now ≡ true }
    requires events { (cycle + 1) * marks ≤ MAX_EVENTS }
    ensures causes { IfOk result (λ causes. causes.items ≡ map (cause_in marks cycle) sources.now) }
    ensures within { IfOk result (λ causes.
        All (λ (c : Cause). c.event.0 < (cycle + 1) * marks) causes.items) }
{
    let mut causes = Vec::new(alloc);
    for source in sources {
        causes.push(cause_in(marks, cycle, source))?;
    }
    Ok(causes)
}

// A cause of a rule as a cause of its constraint, if the target is in this cycle.
fn cause_in(marks: u32, cycle: u32, source: &RuleCause) -> Cause
    requires mark { source.now.mark < marks }
    requires exists { source.now.shift ≤ cycle }
    requires events { (cycle + 1) * marks ≤ MAX_EVENTS }
    ensures cause { result ≡ cause_in marks cycle source.now }
    ensures within { result.event.0 < (cycle + 1) * marks }
{
    Cause {
        event: event_in(marks, cycle - source.shift, source.mark),
        range: source.range,
    }
}

/// The event of a mark in a cycle, if each cycle has this many marks.
pub fn event_in(marks: u32, cycle: u32, mark: u32) -> EventId
    requires mark { mark < marks }
    requires events { (cycle + 1) * marks ≤ MAX_EVENTS }
    ensures event { result ≡ event_in marks cycle mark }
    ensures within { result.0 < (cycle + 1) * marks }
{
    EventId(cycle * marks + mark)
}
