//! How far an end has to be moved for given times to satisfy a network: a guess.

ghost use Rattle.std.specs.Prelude.{◌<◌, All, length};
ghost use Rattle.event_graph.specs.Times.{IsTime};

use crate::drawing::draw_edge;
use drawn_networks::DrawnNetwork;
use drawn_numbers::DrawnNumber;
use event_graph::{Network, separation};
use itv_base::{EdgeName, RuleKind, Side};

/// The least move of an end outward with which given times satisfy a network, where they satisfy it with the end open. It is `None` if no constraint asks
/// for a move. The times are in picoseconds, one per event, each below 2^61 in absolute value.
pub fn need(drawn: &DrawnNetwork, number: &DrawnNumber, side: Side, times: &[i64]) -> Option<i64>
    requires times { All IsTime times.now }
{
    let mut most = None;
    for constraint in 0..drawn.network().len() {
        if let Some(asked) = asked_by(drawn, number, side, times, constraint) {
            most = greater(most, asked);
        }
    }
    most
}

// The greater of two numbers, one of which may be missing.
fn greater(most: Option<i64>, other: i64) -> Option<i64> {
    match most {
        Some(value) if other <= value => Some(value),
        _ => Some(other),
    }
}

// The least move that a constraint asks for. Where another cause is enough it asks for none.
fn asked_by(
    drawn: &DrawnNetwork,
    number: &DrawnNumber,
    side: Side,
    times: &[i64],
    constraint: u32,
) -> Option<i64>
    requires there { constraint < length drawn.now.net.constraints }
    requires times { All IsTime times.now }
{
    let net = drawn.network();
    let is_choice = is_choice_side(net.kind(constraint), side);
    let mut asked = None;
    // A linear constraint names no cause, and has its from-event as cause 0.
    for cause in 0..net.cause_count(constraint).max(1) {
        let name = EdgeName {
            constraint,
            cause,
            side,
        };
        let lack = lack_at(net, name, times);
        if draw_edge(drawn, &[number], name) {
            asked = asked_too(asked, lack, is_choice);
        } else if is_choice && is_met(lack) {
            return None;
        }
    }
    asked
}

// Whether some cause is enough on this side.
fn is_choice_side(kind: RuleKind, side: Side) -> bool {
    match kind {
        RuleKind::Lin => false,
        RuleKind::Late => side == Side::Upper,
        RuleKind::Early => side == Side::Lower,
    }
}

// How far times are past the end of a cause on a side; none where it is open.
fn lack_at(net: &Network, name: EdgeName, times: &[i64]) -> Option<i64>
    requires times { All IsTime times.now }
{
    let edge = net.edge(name)?;
    Some(separation(times, edge.from, edge.to).saturating_sub(edge.weight))
}

// Whether times are within an end, according to how far they are past it.
fn is_met(lack: Option<i64>) -> bool {
    match lack {
        None => true,
        Some(lack) => lack <= 0,
    }
}

// What two causes ask for: the lesser where one is enough, else the greater.
fn asked_too(asked: Option<i64>, lack: Option<i64>, is_choice: bool) -> Option<i64> {
    let Some(lack) = lack else {
        return asked;
    };
    match asked {
        Some(other) if is_choice != (lack < other) => Some(other),
        _ => Some(lack),
    }
}
