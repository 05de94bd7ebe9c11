//! How far constraints are from an event, counted in edges.

ghost use Rattle.std.specs.Prelude.{◌≡◌, ◌<◌, ◌≤◌, ◌⊎◌, IfOk, IfSome, IsTrue, MatchOption, OnOk, All, Some, [], ◌∷◌, length};
ghost use Rattle.event_graph.specs.Times.{IsTime};
ghost use Rattle.branch.specs.Splits.{AreSplits};
ghost use Rattle.branch.specs.Step.Breaking.{AreBetween, IsFirstBrokenSplit, MeetsSome};
ghost use Rattle.branch.specs.Step.Looking.{CanLookFor, IsTargetFound, IsWanted};

use crate::splittable::Splittable;
use event_graph::{ByEvent, Decisions, Network};
use itv_base::{EdgeName, EventId, NoMemory, Side};
use std::alloc::Global;
use std::marker::Model;

/// Picks the constraint to split: breadth-first backwards from the target event, over always-edges and the edges of the choices, to
/// the first event that a wanted constraint enters by its choice side. A latest constraint enters its target, and an earliest one
/// enters each cause. Contracts see the constraints with two or more causes, and say that the constraint picked is a wanted one.
/// Only *which* constraint is picked depends on this search; that the answer is right does not.
#[derive(Drop)]
pub struct Distances {
    // The constraints with two or more causes, given by their numbers.
    rules: Vec<Splittable>,
    // For each event the places in `rules` of the constraints that enter it.
    entering: ByEvent<usize>,
    // For each event the starts of the always-edges that enter it.
    sources: ByEvent<EventId>,
    // Whether an event was reached.
    reached: Vec<bool>,
    // The events that were reached, in the order of the search.
    queue: Vec<EventId>,
}

impl Model for Distances {
    ghost use Rattle.std.specs.Prelude.{List};
    ghost use Rattle.branch.specs.Splits.{SplittableView};

    ghost Value = { List SplittableView };

    ghost view = { λ d. d.rules.items };
}

/// Which constraints are wanted.
#[derive(Clone, Copy)]
pub enum SearchTarget<'a> {
    /// The constraints that these times break. The times meet all always-edges.
    Broken(&'a [i64]),
    /// The constraints without a choice.
    Open,
}

impl Distances {
    /// Makes room for a network. Takes all memory that is ever needed.
    pub fn new(alloc: Global, net: &Network) -> Result<Distances, NoMemory>
        ensures { IfOk result (AreSplits net.now) }
    {
        let events = net.events();
        let reached = Vec::from_elem(alloc, false, events as usize)?;
        let queue = Vec::from_elem(alloc, EventId(0), events as usize)?;
        let mut rules = Vec::with_capacity(alloc, net.splittable_count() as usize)?;
        let mut sources = ByEvent::new(alloc, events)?;
        let mut entering = ByEvent::new(alloc, events)?;
        fill(alloc, net, &mut rules, &mut sources, &mut entering)?;
        Ok(Distances {
            rules,
            entering,
            sources,
            reached,
            queue,
        })
    }

    /// The first constraint whose choice edges the times all break, given by its number, or `None`. If the times meet all always-edges,
    /// it is the first constraint that they break.
    pub fn first_broken(&self, times: &[i64]) -> Option<u32>
        requires between { AreBetween (length times.now) self.now }
        requires times { All IsTime times.now }
        ensures { MatchOption result (All (MeetsSome times.now) self.now) (IsFirstBrokenSplit times.now self.now) }
    {
        for rule in &self.rules {
            if rule.is_broken(times) {
                return Some(rule.number());
            }
        }
        None
    }

    /// Among the wanted constraints without a choice, the number of the one nearest to an event. Ties go to the least number. The
    /// answer is `None` if the search reaches none of them.
    pub fn nearest(
        &mut self,
        wanted: SearchTarget<'_>,
        cases: &Decisions,
        to: EventId,
    ) -> Option<u32>
        requires { CanLookFor wanted self.old }
        ensures same { self.new ≡ self.old }
        ensures found { IfSome result (IsTargetFound wanted.entry self.old cases.now.chosen) }
    {
        if self.rules.is_empty() {
            return None;
        }
        self.reached.fill(false);
        let graph = Graph {
            rules: &self.rules,
            entering: &self.entering,
            sources: &self.sources,
            cases,
            wanted,
        };
        first_wanted(graph, &mut self.reached, &mut self.queue, to)
    }
}

// Adds the constraints with two or more causes, and what enters each event.
fn fill(
    alloc: Global,
    net: &Network,
    rules: &mut Vec<Splittable>,
    sources: &mut ByEvent<EventId>,
    entering: &mut ByEvent<usize>,
) -> Result<(), NoMemory>
    requires none { rules.old.items ≡ [] }
    ensures splits { OnOk result (AreSplits net.now rules.new.items) }
{
    // Without constraints to split, no search goes backwards, and no starts are needed.
    let is_searched = net.splittable_count() > 0;
    for number in 0..net.len() {
        if is_searched {
            add_sources(net, number, sources)?;
        }
        if net.cause_count(number) > 1 {
            let rule = Splittable::new(alloc, net, number)?;
            add_entering(&rule, rules.len(), entering)?;
            rules.push(rule)?;
        }
    }
    Ok(())
}

// Adds the starts of the always-edges of a constraint.
fn add_sources(
    net: &Network,
    constraint: u32,
    sources: &mut ByEvent<EventId>,
) -> Result<(), NoMemory>
    requires { constraint < length net.now.constraints }
{
    // A linear constraint names no cause, and has its from-event as cause 0.
    for cause in 0..net.cause_count(constraint).max(1) {
        for side in [Side::Lower, Side::Upper] {
            add_source(
                net,
                EdgeName {
                    constraint,
                    cause,
                    side,
                },
                sources,
            )?;
        }
    }
    Ok(())
}

// Adds the start of an edge, if it is an always-edge.
fn add_source(
    net: &Network,
    name: EdgeName,
    sources: &mut ByEvent<EventId>,
) -> Result<(), NoMemory> {
    if net.is_always(name)
        && let Some(edge) = net.edge(name)
        && let Some(list) = sources.get(edge.to)
        && !list.contains(&edge.from)
    {
        sources.push(edge.to, edge.from)?;
    }
    Ok(())
}

// Adds the place of a constraint to the events that it enters.
fn add_entering(
    rule: &Splittable,
    place: usize,
    entering: &mut ByEvent<usize>,
) -> Result<(), NoMemory> {
    for edge in rule.edges() {
        if let Some(list) = entering.get(edge.to)
            && list.last() != Some(&place)
        {
            entering.push(edge.to, place)?;
        }
    }
    Ok(())
}

// What the search goes over: the constraints, what enters each event, the choices, and which constraints are wanted.
#[derive(Clone, Copy)]
struct Graph<'a> {
    rules: &'a [Splittable],
    entering: &'a ByEvent<usize>,
    sources: &'a ByEvent<EventId>,
    cases: &'a Decisions,
    wanted: SearchTarget<'a>,
}

// How far the search has come: how many events are reached, and the least number of a wanted constraint, if one was found.
#[derive(Clone, Copy)]
struct Reach {
    count: usize,
    least: Option<u32>,
}

// The first wanted constraint met going backwards from an event, breadth first; ties go to the least number.
fn first_wanted(
    graph: Graph<'_>,
    reached: &mut [bool],
    queue: &mut [EventId],
    to: EventId,
) -> Option<u32>
    requires { CanLookFor graph.wanted graph.rules.now }
    ensures { IfSome result (IsTargetFound graph.entry.wanted graph.entry.rules.now graph.entry.cases.now.chosen) }
{
    let mut reach = Reach {
        count: put(reached, queue, 0, to),
        least: None,
    };
    let mut head = 0;
    while head < reach.count {
        // The events of one distance.
        let end = reach.count;
        for place in head..end {
            let event = queue[place];
            reach = visit(graph, reached, queue, reach, event);
        }
        if reach.least.is_some() {
            return reach.least;
        }
        head = end;
    }
    None
}

// Looks at the constraints that enter an event. Unless a wanted one was found, also reaches the starts of the always-edges that
// enter it.
fn visit(
    graph: Graph<'_>,
    reached: &mut [bool],
    queue: &mut [EventId],
    so_far: Reach,
    event: EventId,
) -> Reach
    requires wanted { CanLookFor graph.wanted graph.rules.now }
    requires least { IfSome so_far.least (IsTargetFound graph.wanted graph.rules.now graph.cases.now.chosen) }
    requires count { so_far.count ≤ length queue.old }
    ensures least { IfSome result.least (IsTargetFound graph.entry.wanted graph.entry.rules.now graph.entry.cases.now.chosen) }
    ensures count { result.count ≤ length queue.new }
{
    let mut reach = so_far;
    if let Some(places) = graph.entering.get(event) {
        for rule in places {
            reach = look_at(graph, reached, queue, reach, *rule, event);
        }
    }
    if reach.least.is_none()
        && let Some(sources) = graph.sources.get(event)
    {
        for source in sources {
            reach.count = put(reached, queue, reach.count, *source);
        }
    }
    reach
}

// Looks at a constraint that enters an event. If it has a choice, reaches the start of its choice edge; else it is found if it is
// wanted.
fn look_at(
    graph: Graph<'_>,
    reached: &mut [bool],
    queue: &mut [EventId],
    so_far: Reach,
    rule: usize,
    event: EventId,
) -> Reach
    requires wanted { CanLookFor graph.wanted graph.rules.now }
    requires least { IfSome so_far.least (IsTargetFound graph.wanted graph.rules.now graph.cases.now.chosen) }
    requires count { so_far.count ≤ length queue.old }
    ensures least { IfSome result.least (IsTargetFound graph.entry.wanted graph.entry.rules.now graph.entry.cases.now.chosen) }
    ensures count { result.count ≤ length queue.new }
{
    let Some(rule) = graph.rules.get(rule) else {
        return so_far;
    };
    match graph.cases.cause_of(rule.number()) {
        Some(cause) => match rule.source(cause, event) {
            Some(source) => Reach {
                count: put(reached, queue, so_far.count, source),
                ..so_far
            },
            None => so_far,
        },
        None if is_wanted(graph.wanted, rule) => Reach {
            least: lesser(so_far.least, rule.number()),
            ..so_far
        },
        None => so_far,
    }
}

// Whether a constraint without a choice is wanted.
fn is_wanted(wanted: SearchTarget<'_>, rule: &Splittable) -> bool
    requires { CanLookFor wanted (rule.now ∷ []) }
    ensures { IsTrue result → IsWanted wanted.entry (rule.now ∷ []) rule.now.number }
{
    match wanted {
        SearchTarget::Broken(times) => rule.is_broken(times),
        SearchTarget::Open => true,
    }
}

// The lesser of two numbers; the first may be missing.
fn lesser(so_far: Option<u32>, number: u32) -> Option<u32>
    ensures { (result ≡ so_far) ⊎ (result ≡ Some number) }
{
    match so_far {
        Some(least) if least < number => so_far,
        _ => Some(number),
    }
}

// Puts an event after those that were reached, unless it is there already. Returns how many there are.
fn put(reached: &mut [bool], queue: &mut [EventId], count: usize, event: EventId) -> usize
    requires { count ≤ length queue.old }
    ensures { result ≤ length queue.new }
{
    let place = event.0 as usize;
    if place < reached.len() && !reached[place] && count < queue.len() {
        reached[place] = true;
        queue[count] = event;
        return count + 1;
    }
    count
}
