//! Greatest separations by cases.

ghost use Rattle.std.specs.Prelude.{◌≡◌, ◌<◌, List, All, IfOk, IsSomeAnd};
ghost use Rattle.event_graph.specs.Proof.{ProofLine};
ghost use Rattle.event_graph.specs.Satisfying.{Satisfies};
ghost use Rattle.branch.specs.Answers.{IsGreatestAnswer, PairSearch, evidence};
ghost use Rattle.branch.specs.Work.{IsClose, IsMadeFor};
ghost use Rattle.extremes.specs.Ready.{AreStart};
ghost use Rattle.extremes.specs.Step.{IsFoundBy};

use crate::found::Greatest;
use branch::{Quiet, ScribeFailed, Work, greatest, greatest_from};
use event_graph::Network;
use itv_base::{EventId, NoMemory};
use requirements::{Bound, Separation};
use std::alloc::Global;

/// Finds the greatest separation of a pair of events by cases, from the known times.
pub fn greatest_from_known(
    alloc: Global,
    work: &mut Work,
    net: &Network,
    from: EventId,
    to: EventId,
    budget: u64,
) -> Result<Greatest, NoMemory>
    requires made { IsMadeFor net.now work.old }
    requires known { IsSomeAnd work.old.known (λ times. Satisfies times net.now) }
    requires from { from.0 < net.now.events }
    requires to { to.0 < net.now.events }
    requires budget { 0 < budget }
    ensures made { IsMadeFor net.now work.new }
    ensures known { work.new.known ≡ work.old.known }
    ensures found { IfOk result (IsFoundBy net.now budget from to) }
{
    match greatest(work, net, from, to, budget, &mut Quiet) {
        Ok(answer) => found_of(alloc, work, answer),
        Err(ScribeFailed) => unreachable!(),
    }
}

/// Finds the greatest separation of a pair of events by cases, from given times.
pub fn greatest_from_start(
    alloc: Global,
    work: &mut Work,
    net: &Network,
    from: EventId,
    to: EventId,
    times: &[i64],
    budget: u64,
) -> Result<Greatest, NoMemory>
    requires made { IsMadeFor net.now work.old }
    requires start { AreStart net.now times.now }
    requires from { from.0 < net.now.events }
    requires to { to.0 < net.now.events }
    requires budget { 0 < budget }
    ensures made { IsMadeFor net.now work.new }
    ensures known { work.new.known ≡ work.old.known }
    ensures found { IfOk result (IsFoundBy net.now budget from to) }
{
    match greatest_from(work, net, from, to, times, budget, &mut Quiet) {
        Ok(answer) => found_of(alloc, work, answer),
        Err(ScribeFailed) => unreachable!(),
    }
}

// What a search by cases has found, with the times or the events to raise that it left.
fn found_of(alloc: Global, work: &Work, answer: Bound) -> Result<Greatest, NoMemory>
    ensures found { (search : PairSearch) (lines : List ProofLine) → IsGreatestAnswer search (evidence lines work.now) answer
        → Satisfies work.now.times search.net → All IsClose work.now.times → IfOk result (IsFoundBy search.net search.budget search.from search.to) }
{
    match answer {
        Bound::Closed(value) => {
            let times = Vec::from_slice(alloc, work.times())?;
            Ok(Separation::Closed {
                value,
                shown: times,
            })
        }
        Bound::Unbounded => {
            let set = Vec::from_slice(alloc, work.ray())?;
            Ok(Separation::Unbounded { shown: set })
        }
        Bound::Within { limit, attained } => Ok(Separation::Open { limit, attained }),
    }
}
