//! Greatest separations of a network.

ghost use Rattle.std.specs.Prelude.{◌≡◌, ◌<◌, ◌≤◌, ◌+◌, ℕ, ℤ, [], Some, IfOk};
ghost use Rattle.std.specs.Global.{Vec};
ghost use Rattle.itv_base.specs.declared.names.EventId.{EventId};
ghost use Rattle.event_graph.specs.Network.{Net};
ghost use Rattle.falling.specs.declared.view.View.TheVariants.{Negated, Plain};
ghost use Rattle.settle.specs.declared.shown_answer.Settled.TheVariants.{Closed, Unbounded};
ghost use Rattle.settle.specs.ShownAnswer.{IsFound, IsMadeFor};
ghost use Rattle.settle.specs.Step.Racing.{IsEnding, IsRacing, line_count};

use crate::best::Best;
use crate::prover::Prover;
use crate::race::{Finish, Race, RaceEnd};
use crate::shown_answer::{Settled, ShownAnswer};
use edge_clauses::{Claim, StoredLine};
use event_graph::Network;
use falling::{Limits, View, limits_of, negation_of};
use itv_base::{EventId, NoMemory};
use std::alloc::Global;

/// Finds greatest separations over one network, whatever its choices.
///
/// A settler is made for a network, and every later call needs the same network. Each call allocates memory, and gives
/// it back with its answer.
#[derive(Drop)]
pub struct Settler {
    negation: Network,
    limits: Limits,
}

impl Settler {
    /// A settler for a network, or `NoMemory`.
    pub fn new(alloc: Global, net: &Network) -> Result<Settler, NoMemory>
        ensures made { IfOk result (IsMadeFor net.now) }
    {
        Ok(Settler {
            negation: negation_of(alloc, net)?,
            limits: limits_of(net),
        })
    }

    /// The greatest separation of a pair of events in picoseconds and what shows it, found in at most this many turns;
    /// or `NoMemory`. A step of the search makes at most one line. It is a turn, each 4 things that it looks at are one more,
    /// and each fall of a bound is several. What the search keeps is bounded too: without an answer it ends where either is spent.
    pub fn greatest(
        &self,
        alloc: Global,
        net: &Network,
        from: EventId,
        to: EventId,
        turns: u64,
    ) -> Result<ShownAnswer, NoMemory>
        requires made { IsMadeFor net.now self.now }
        requires from { from.0 < net.now.events }
        requires to { to.0 < net.now.events }
        ensures found { IfOk result (IsFound net.now from to turns) }
    {
        let room = room_of(net, turns);
        let mut race = Race::new(alloc, net, &self.negation, from, to, self.limits, room)?;
        match race.run(alloc, net, &self.negation, turns) {
            Ok(Some(finish)) => Ok(found_by(alloc, net, from, to, race, finish)),
            Ok(None) => {
                drop(race);
                Ok(spent(alloc, turns))
            }
            Err(NoMemory) => {
                drop(race);
                Err(NoMemory)
            }
        }
    }
}

// How many items each search may keep: 32 for each event and constraint, and one for each 50 turns.
fn room_of(net: &Network, turns: u64) -> u64 {
    let size = (net.events() as u64).saturating_add(net.len() as u64);
    size.saturating_mul(32).saturating_add(turns / 50)
}

// The answer of a race that has ended.
fn found_by(
    alloc: Global,
    net: &Network,
    from: EventId,
    to: EventId,
    race: Race,
    finish: Finish,
) -> ShownAnswer
    requires racing { IsRacing net.now race }
    requires from { race.from ≡ from }
    requires to { race.to ≡ to }
    requires ending { IsEnding net.now race finish.ending }
    requires lines { line_count race ≤ finish.turns }
    ensures found { (most : ℕ) → finish.turns ≤ most → IsFound net.now from to most result }
{
    net.is_whole();
    let Finish { ending, turns } = finish;
    let Race {
        plain,
        turned,
        best,
        ..
    } = race;
    let claim = best.claim;
    match ending {
        RaceEnd::Closed(view) => ShownAnswer {
            answer: closed_at(claim),
            times: times_in(alloc, best),
            ray: Vec::new(alloc),
            claim,
            view,
            lines: lines_of(view, plain, turned),
            turns,
        },
        RaceEnd::Unbounded(ray) => {
            drop(plain);
            drop(turned);
            unbounded_by(alloc, best, ray, turns)
        }
        RaceEnd::Inconsistent(view) => {
            drop(best);
            ShownAnswer {
                answer: Settled::Inconsistent,
                times: Vec::new(alloc),
                ray: Vec::new(alloc),
                claim,
                view,
                lines: lines_of(view, plain, turned),
                turns,
            }
        }
    }
}

// The answer that every number is exceeded. The best times and a ray from them show it.
fn unbounded_by(alloc: Global, best: Best, ray: Vec<bool>, turns: u64) -> ShownAnswer
    ensures answer { result.answer ≡ Unbounded }
    ensures times { (times : Vec ℤ) → best.times ≡ Some times → result.times ≡ times }
    ensures ray { result.ray ≡ ray }
    ensures lines { result.lines.items ≡ [] }
    ensures turns { result.turns ≡ turns }
{
    let claim = best.claim;
    ShownAnswer {
        answer: Settled::Unbounded,
        times: times_in(alloc, best),
        ray,
        claim,
        view: View::Plain,
        lines: Vec::new(alloc),
        turns,
    }
}

// The answer that the claim is the greatest separation.
fn closed_at(claim: Claim) -> Settled
    ensures { result ≡ Closed claim.value }
{
    Settled::Closed(claim.value)
}

// The best times, if there are any.
fn times_in(alloc: Global, best: Best) -> Vec<i64>
    ensures { (times : Vec ℤ) → best.times ≡ Some times → result ≡ times }
{
    match best.times {
        Some(times) => times,
        None => Vec::new(alloc),
    }
}

// The lines of the search of a view.
fn lines_of(view: View, plain: Prover, turned: Prover) -> Vec<StoredLine>
    ensures plain { view ≡ Plain → result.items ≡ plain.lines }
    ensures negated { view ≡ Negated → result.items ≡ turned.lines }
{
    let (shown, other) = match view {
        View::Plain => (plain, turned),
        View::Negated => (turned, plain),
    };
    drop(other);
    shown.into_lines()
}

// The answer after all turns were spent.
fn spent(alloc: Global, turns: u64) -> ShownAnswer
    ensures found { (net : Net) (from to : EventId) → IsFound net from to turns result }
{
    ShownAnswer {
        answer: Settled::Spent,
        times: Vec::new(alloc),
        ray: Vec::new(alloc),
        claim: Claim { value: 0 },
        view: View::Plain,
        lines: Vec::new(alloc),
        turns,
    }
}
