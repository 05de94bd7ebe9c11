//! Which events of a network are bounded, and on which sides.

ghost use Rattle.std.specs.Prelude.{◌<◌, length};

use drawn_networks::DrawnNetwork;
use event_graph::{Edge, Network};
use itv_base::{EdgeName, EventId, NoMemory, Side};
use origin::Origin;
use std::alloc::Global;

/// What bounds an event on one side.
#[derive(Clone, Copy, PartialEq, Eq)]
pub enum Holder {
    /// A rule, or a net.
    Rule,
    /// The order of a lane alone.
    Order,
    /// No constraint does.
    Nothing,
}

/// What bounds an event from above, by how late it may be, and from below.
#[derive(Clone, Copy)]
pub struct Held {
    pub above: Holder,
    pub below: Holder,
}

impl Held {
    /// What bounds the event on a side.
    pub fn on(self, side: Side) -> Holder {
        match side {
            Side::Upper => self.above,
            Side::Lower => self.below,
        }
    }

    fn with(self, side: Side, holder: Holder) -> Held {
        match side {
            Side::Upper => Held {
                above: stronger(self.above, holder),
                ..self
            },
            Side::Lower => Held {
                below: stronger(self.below, holder),
                ..self
            },
        }
    }
}

fn stronger(first: Holder, other: Holder) -> Holder {
    match (first, other) {
        (Holder::Rule, _) | (_, Holder::Rule) => Holder::Rule,
        (Holder::Order, _) | (_, Holder::Order) => Holder::Order,
        (Holder::Nothing, Holder::Nothing) => Holder::Nothing,
    }
}

/// What bounds each event of a network by a constraint with another event. An event is bounded from above where it is a target that comes no later than
/// some cause and a high end, or a cause after which a target comes no earlier than a low end; and from below in the same way. It may be bounded by an
/// event that nothing bounds.
pub fn holders_of(alloc: Global, drawn: &DrawnNetwork) -> Result<Vec<Held>, NoMemory> {
    let net = drawn.network();
    let mut held = Vec::new(alloc);
    for _ in 0..net.events() {
        held.push(Held {
            above: Holder::Nothing,
            below: Holder::Nothing,
        })?;
    }
    for constraint in 0..net.len() {
        hold_by(drawn, constraint, held.as_mut_slice());
    }
    Ok(held)
}

// Adds what a constraint of the network bounds.
fn hold_by(drawn: &DrawnNetwork, constraint: u32, held: &mut [Held])
    requires there { constraint < length drawn.now.net.constraints }
{
    hold_on(drawn, constraint, Side::Upper, held);
    hold_on(drawn, constraint, Side::Lower, held);
}

// The same for the ends of its causes on one side. A linear constraint names no cause, and has its from-event as cause 0.
fn hold_on(drawn: &DrawnNetwork, constraint: u32, side: Side, held: &mut [Held])
    requires there { constraint < length drawn.now.net.constraints }
{
    let net = drawn.network();
    let is_whole = has_all(net, constraint, side);
    for cause in 0..net.cause_count(constraint).max(1) {
        let name = EdgeName {
            constraint,
            cause,
            side,
        };
        hold_by_end(drawn, name, is_whole, held);
    }
}

// Whether each cause of a constraint has an end on a side.
fn has_all(net: &Network, constraint: u32, side: Side) -> bool
    requires there { constraint < length net.now.constraints }
{
    for cause in 0..net.cause_count(constraint).max(1) {
        let name = EdgeName {
            constraint,
            cause,
            side,
        };
        if net.edge(name).is_none() {
            return false;
        }
    }
    true
}

// Adds what an end of a cause bounds. Where times may take another cause, it bounds the target alone, and only if each cause has such an end.
fn hold_by_end(drawn: &DrawnNetwork, name: EdgeName, is_whole: bool, held: &mut [Held]) {
    let net = drawn.network();
    let Some(edge) = net.edge(name) else {
        return;
    };
    if edge.from.0 == edge.to.0 {
        return;
    }
    let holder = holder_at(drawn, name);
    if net.is_always(name) {
        hold(held, edge.to, Side::Upper, holder);
        hold(held, edge.from, Side::Lower, holder);
    } else if is_whole {
        hold(held, target_of(&edge, name.side), name.side, holder);
    }
}

// The target of the constraint of an edge.
fn target_of(edge: &Edge, side: Side) -> EventId {
    match side {
        Side::Upper => edge.to,
        Side::Lower => edge.from,
    }
}

fn holder_at(drawn: &DrawnNetwork, name: EdgeName) -> Holder {
    match origin_at(drawn, name) {
        Some(origin) if origin.is_lane() => Holder::Order,
        _ => Holder::Rule,
    }
}

fn origin_at(drawn: &DrawnNetwork, name: EdgeName) -> Option<Origin> {
    let causes = drawn.origins().as_slice().get(name.constraint as usize)?;
    causes.as_slice().get(name.cause as usize).copied()
}

fn hold(held: &mut [Held], event: EventId, side: Side, holder: Holder) {
    if let Some(place) = held.get_mut(event.0 as usize) {
        *place = place.with(side, holder);
    }
}
