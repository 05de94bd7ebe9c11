//! Finding one bound of a row.

ghost use Rattle.std.specs.Prelude.{◌≡◌, ◌≤◌, ℕ, ℤ, List, IfOk, length};
ghost use Rattle.event_graph.specs.Satisfying.{Satisfies};
ghost use Rattle.event_graph.specs.Times.{IsTime};
ghost use Rattle.drawn_networks.specs.Drawn.{IsRowOf};
ghost use Rattle.settle.specs.ShownAnswer.{IsFound, IsMadeFor};
ghost use Rattle.job_settle.specs.Answers.{IsBound, bound_lines};
ghost use Rattle.job_settle.specs.Step.{HasNearby, Took, shown_by, source, target};

use crate::bound::SettledBound;
use crate::pair::{source, target};
use crate::proof::proof_of;
use crate::times::moved;
use crate::wanted::Wanted;
use drawn_networks::Row;
use event_graph::Network;
use itv_base::NoMemory;
use settle::{RunTurns, Settled, Settler, ShownAnswer};
use slack_report::Which;
use std::alloc::Global;

/// Searches for a bound of a row of a network that some times satisfy. The search takes its turns from those that are left of the run. If none are left,
/// nothing is searched.
pub fn find_bound(
    alloc: Global,
    which: Which,
    row: &Row,
    net: &Network,
    settler: &Settler,
    wanted: Wanted,
    left: &mut RunTurns,
) -> Result<SettledBound, NoMemory>
    requires made { IsMadeFor net.now settler.now }
    requires consistent { (times : List ℤ) × Satisfies times net.now }
    requires row { IsRowOf net.now row.now }
    requires each { left.old.each ≡ wanted.turns }
    ensures each { left.new.each ≡ wanted.turns }
    ensures bound { IfOk result (IsBound wanted.cert net.now which row.now) }
    ensures nearby { IfOk result HasNearby }
    ensures took { IfOk result (λ bound. Took wanted.turns (bound_lines bound) left.old left.new) }
{
    let from = source(which, row);
    let to = target(which, row);
    let turns = left.next();
    if turns == 0 {
        return Ok(SettledBound::Open);
    }
    let found = settler.greatest(alloc, net, from, to, turns)?;
    left.take(found.turns);
    Ok(bound_by(alloc, which, row, net, found, wanted.cert))
}

// The bound of a row that the search of its pair gives.
fn bound_by(
    alloc: Global,
    which: Which,
    row: &Row,
    net: &Network,
    found: ShownAnswer,
    cert: bool,
) -> SettledBound
    requires consistent { (times : List ℤ) × Satisfies times net.now }
    requires row { IsRowOf net.now row.now }
    requires found { (turns : ℕ) × IsFound net.now (source which row.now) (target which row.now) turns found }
    ensures bound { IsBound cert net.now which row.now result }
    ensures nearby { HasNearby result }
    ensures lines { bound_lines result ≤ length found.lines.items }
{
    net.is_whole();
    let ShownAnswer {
        answer,
        times,
        ray,
        claim,
        view,
        lines,
        turns: _,
    } = found;
    match answer {
        Settled::Closed(value) => SettledBound::Closed(
            shown_by(which, value),
            moved(times, row.from),
            proof_of(alloc, view, claim, lines, cert),
        ),
        Settled::Unbounded => SettledBound::Unbounded(moved(times, row.from), ray),
        Settled::Spent => SettledBound::Open,
        Settled::Inconsistent => unreachable!(),
    }
}

// The number of the bound that the greatest separation of the searched pair gives.
fn shown_by(which: Which, value: i64) -> i64
    requires value { IsTime value }
    ensures shown { result ≡ shown_by which value }
    ensures within { IsTime result }
{
    match which {
        Which::Max => value,
        Which::Min => -value,
    }
}
