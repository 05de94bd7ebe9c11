//! The constraints that follow an event.

ghost use Rattle.std.specs.Prelude.{◌<◌, ℕ, Contains, IfOk, IsTrue, OnOk, length};
ghost use Rattle.event_graph.specs.Network.{IsNet};
ghost use Rattle.falling.specs.Agenda.{AreFollowers, AreLists, HasName};
ghost use Rattle.falling.specs.Step.Agenda.{Grows, HasCause};

use event_graph::{ByEvent, Network};
use itv_base::{EdgeName, NoMemory, Side};
use std::alloc::Global;

/// The followers of each event of a network: the constraints with an edge that starts at the event. They stand by number, the least first, each
/// once. When the event falls, only its followers can become able to lower a value. Takes all the memory that is ever needed.
pub fn followers(alloc: Global, net: &Network) -> Result<ByEvent<u32>, NoMemory>
    ensures { IfOk result (AreFollowers net.now) }
{
    let mut lists = ByEvent::new(alloc, net.events())?;
    for number in 0..net.len() {
        push_constraint(net, number, &mut lists)?;
    }
    Ok(lists)
}

// Adds a constraint to the followers of the events where its edges start.
fn push_constraint(net: &Network, number: u32, lists: &mut ByEvent<u32>) -> Result<(), NoMemory>
    requires net { IsNet net.now }
    requires lists { AreLists net.now lists.old }
    requires number { number < length net.now.constraints }
    ensures grows { OnOk result (Grows net.now lists.old lists.new) }
    ensures causes { OnOk result ((cause : ℕ) → HasCause net.now lists.new number cause) }
{
    for cause in 0..net.cause_count(number).max(1) {
        push_edge(
            net,
            EdgeName {
                constraint: number,
                cause,
                side: Side::Lower,
            },
            lists,
        )?;
        push_edge(
            net,
            EdgeName {
                constraint: number,
                cause,
                side: Side::Upper,
            },
            lists,
        )?;
    }
    Ok(())
}

// Adds the constraint of an edge to the followers of the event where the edge starts. Changes nothing if there is no edge of the name, or if the
// constraint is the last follower already.
fn push_edge(net: &Network, name: EdgeName, lists: &mut ByEvent<u32>) -> Result<(), NoMemory>
    requires lists { AreLists net.now lists.old }
    requires number { name.constraint < length net.now.constraints }
    ensures grows { OnOk result (Grows net.now lists.old lists.new) }
    ensures edge { OnOk result (HasName net.now lists.new name) }
{
    let Some(edge) = net.edge(name) else {
        return Ok(());
    };
    if !is_last(lists.of(edge.from), name.constraint) {
        lists.push(edge.from, name.constraint)?;
    }
    Ok(())
}

// Whether a number is the last of a list.
fn is_last(numbers: &[u32], number: u32) -> bool
    ensures { IsTrue result → Contains numbers.now number }
{
    match numbers.last() {
        Some(last) => *last == number,
        None => false,
    }
}
