//! What is found of a network.

ghost use Rattle.std.specs.Prelude.{◌≡◌, ◌<◌, ◌≤◌, ℕ, IfOk, length};
ghost use Rattle.settle.specs.ShownAnswer.{IsFound, IsMadeFor};
ghost use Rattle.job_settle.specs.Answers.{IsFinding, first_event, finding_lines};
ghost use Rattle.job_settle.specs.Step.{Took};

use crate::proof::{Proof, proof_of};
use crate::times::moved;
use crate::wanted::Wanted;
use event_graph::Network;
use itv_base::{EventId, NoMemory};
use settle::{RunTurns, Settled, Settler, ShownAnswer};
use std::alloc::Global;

/// What is found of a network.
#[derive(Drop)]
pub enum Finding {
    /// These times satisfy the network, in picoseconds, one per event, with event 0 at 0.
    Consistent(Vec<i64>),
    /// No times satisfy the network.
    Inconsistent(Proof),
    /// The turns were spent before the finding was known.
    Open,
}

/// Looks for times that satisfy a network. A network without events is satisfied by the empty list of times. The search takes its turns from those that
/// are left of the run.
pub fn find(
    alloc: Global,
    net: &Network,
    settler: &Settler,
    wanted: Wanted,
    left: &mut RunTurns,
) -> Result<Finding, NoMemory>
    requires made { IsMadeFor net.now settler.now }
    requires each { left.old.each ≡ wanted.turns }
    ensures each { left.new.each ≡ wanted.turns }
    ensures finding { IfOk result (IsFinding wanted.cert net.now) }
    ensures took { IfOk result (λ finding. Took wanted.turns (finding_lines finding) left.old left.new) }
{
    if net.events() == 0 {
        return Ok(Finding::Consistent(Vec::new(alloc)));
    }
    let first = EventId(0);
    let turns = left.next();
    let found = settler.greatest(alloc, net, first, first, turns)?;
    left.take(found.turns);
    Ok(finding_of(alloc, net, found, wanted.cert))
}

// The finding of a network with events, from a search for the greatest separation of event 0 and itself.
fn finding_of(alloc: Global, net: &Network, found: ShownAnswer, cert: bool) -> Finding
    requires events { 0 < net.now.events }
    requires found { (turns : ℕ) × IsFound net.now first_event first_event turns found }
    ensures finding { IsFinding cert net.now result }
    ensures lines { finding_lines result ≤ length found.lines.items }
{
    net.is_whole();
    let ShownAnswer {
        answer,
        times,
        ray: _,
        claim,
        view,
        lines,
        turns: _,
    } = found;
    match answer {
        Settled::Closed(_) => Finding::Consistent(moved(times, EventId(0))),
        Settled::Inconsistent => {
            Finding::Inconsistent(proof_of(alloc, view, claim, lines, cert))
        }
        Settled::Spent => Finding::Open,
        Settled::Unbounded => unreachable!(),
    }
}
