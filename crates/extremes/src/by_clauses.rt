//! Searches by clauses.

ghost use Rattle.std.specs.Prelude.{◌≡◌, ◌<◌, ◌+◌, ℕ, ℤ, List, All, IfOk, IfSome, IsTrue};
ghost use Rattle.event_graph.specs.Bounds.{IsInconsistent};
ghost use Rattle.event_graph.specs.Satisfying.{Satisfies};
ghost use Rattle.falling.specs.Cap.{IsNearValue};
ghost use Rattle.settle.specs.ShownAnswer.{IsFound, IsMadeFor};
ghost use Rattle.extremes.specs.Ready.{AreTurnsOf};
ghost use Rattle.extremes.specs.Step.{IsClauseFinding, IsSettledBy};

use crate::found::Greatest;
use crate::naming::named_by;
use crate::starting::start_of;
use event_graph::Network;
use itv_base::{EventId, NoMemory};
use requirements::Separation;
use settle::{RunTurns, Settled, Settler, ShownAnswer};
use std::alloc::Global;

/// Whether some times satisfy a network, as a search by clauses finds it.
#[derive(Drop)]
pub enum ClauseFinding {
    /// Some times do. These do, and a search by cases can start from them.
    Start(Vec<i64>),
    /// None do. There is a flag for each constraint: whether the lines that prove it name the constraint.
    Nothing(Vec<bool>),
    /// The turns were spent before it was known, or the times that were found are too far apart to start from.
    Open,
}

/// Looks for times that satisfy a network by clauses: the separation of the first event from itself is 0 wherever there are any.
pub fn find_by_clauses(
    alloc: Global,
    net: &Network,
    settler: &Settler,
    left: &mut RunTurns,
) -> Result<ClauseFinding, NoMemory>
    requires made { IsMadeFor net.now settler.now }
    ensures turns { AreTurnsOf left.old left.new }
    ensures finding { IfOk result (IsClauseFinding net.now) }
{
    if net.events() == 0 {
        return Ok(ClauseFinding::Open);
    }
    let first = EventId(0);
    let found = settled(alloc, net, settler, first, first, left)?;
    let ShownAnswer {
        answer,
        times,
        lines,
        ..
    } = found;
    match answer {
        Settled::Closed(_) | Settled::Unbounded => Ok(begin_at(net, times)),
        Settled::Inconsistent => Ok(ClauseFinding::Nothing(named_by(alloc, net, &lines)?)),
        Settled::Spent => Ok(ClauseFinding::Open),
    }
}

// The times that a search by clauses found, to start from.
fn begin_at(net: &Network, times: Vec<i64>) -> ClauseFinding
    requires some { 0 < net.now.events }
    requires satisfied { Satisfies times.items net.now }
    requires near { All IsNearValue times.items }
    ensures finding { IsClauseFinding net.now result }
{
    net.is_whole();
    match start_of(times) {
        Some(start) => ClauseFinding::Start(start),
        None => ClauseFinding::Open,
    }
}

/// Finds the greatest separation of a pair of events by clauses, or nothing where the turns were spent. Some times satisfy the network.
pub fn greatest_by_clauses(
    alloc: Global,
    net: &Network,
    settler: &Settler,
    from: EventId,
    to: EventId,
    left: &mut RunTurns,
) -> Result<Option<Greatest>, NoMemory>
    requires made { IsMadeFor net.now settler.now }
    requires consistent { (times : List ℤ) × Satisfies times net.now }
    requires from { from.0 < net.now.events }
    requires to { to.0 < net.now.events }
    ensures turns { AreTurnsOf left.old left.new }
    ensures found { IfOk result (λ found. IfSome found (IsSettledBy net.now from to)) }
{
    let found = settled(alloc, net, settler, from, to, left)?;
    let ShownAnswer {
        answer,
        times,
        ray,
        ..
    } = found;
    match answer {
        Settled::Closed(value) => Ok(Some(Separation::Closed {
            value,
            shown: times,
        })),
        Settled::Unbounded => Ok(Some(Separation::Unbounded { shown: ray })),
        Settled::Inconsistent => unreachable!(),
        Settled::Spent => Ok(None),
    }
}

/// Whether a search by clauses finds that no times satisfy a network.
pub fn is_contradiction(
    alloc: Global,
    net: &Network,
    settler: &Settler,
    left: &mut RunTurns,
) -> Result<bool, NoMemory>
    requires made { IsMadeFor net.now settler.now }
    ensures turns { AreTurnsOf left.old left.new }
    ensures none { IfOk result (λ found. IsTrue found → IsInconsistent net.now) }
{
    match find_by_clauses(alloc, net, settler, left)? {
        ClauseFinding::Nothing(_) => Ok(true),
        ClauseFinding::Start(_) | ClauseFinding::Open => Ok(false),
    }
}

// The greatest separation of a pair of events by clauses, within the turns that the next search may take. Those that it took are taken from the run.
fn settled(
    alloc: Global,
    net: &Network,
    settler: &Settler,
    from: EventId,
    to: EventId,
    left: &mut RunTurns,
) -> Result<ShownAnswer, NoMemory>
    requires made { IsMadeFor net.now settler.now }
    requires from { from.0 < net.now.events }
    requires to { to.0 < net.now.events }
    ensures turns { AreTurnsOf left.old left.new }
    ensures took { IfOk result (λ found. left.new.left + found.turns ≡ left.old.left) }
    ensures found { IfOk result (λ found. (turns : ℕ) × IsFound net.now from to turns found) }
{
    let found = settler.greatest(alloc, net, from, to, left.next())?;
    left.take(found.turns);
    Ok(found)
}
