//! Greatest separations by the search by cases, by the search by clauses, and by both searches.

ghost use Rattle.std.specs.Prelude.{◌<◌, IsTrue, IfSome};
ghost use Rattle.branch.specs.Work.{IsMadeFor};
ghost use Rattle.extremes.specs.Ready.{IsFor};

use crate::out::Out;
use crate::proof_lines::put_tree;
use crate::writing::{PairQuestion, asked_of};
use branch::{Work, find, greatest};
use certificate::TreeScribe;
use event_graph::{Line, Network};
use extremes::{Extremes, Greatest, RunTurns};
use itv_base::NoMemory;
use requirements::{Bound, Consistency, Separation};
use settle::{Settled, Settler, ShownAnswer};
use std::alloc::Global;

// Whether both events of a pair are there.
fn is_within(net: &Network, asked: PairQuestion<'_>) -> bool
    ensures from { IsTrue result → asked.entry.from.0 < net.now.events }
    ensures to { IsTrue result → asked.entry.to.0 < net.now.events }
{
    asked.from.0 < net.events() && asked.to.0 < net.events()
}

// A budget of at least 1.
fn budget_of(number: i64) -> Option<u64>
    ensures { IfSome result (λ budget. 0 < budget) }
{
    match u64::try_from(number) {
        Ok(budget) if 0 < budget => Some(budget),
        _ => None,
    }
}

/// Searches a pair within a budget of cases, and writes what the word of the row asks for: the `answer`, the number of closed cases as `leaves`, the
/// constraints that are split as `splits`, or the `proof` that no times satisfy.
pub fn search(alloc: Global, net: &Network, row: &str, out: &mut Out) {
    match asked_of(row) {
        Some(asked) if is_within(net, asked) => search_by(alloc, net, asked, out),
        _ => out.refuse(),
    }
}

fn search_by(alloc: Global, net: &Network, asked: PairQuestion<'_>, out: &mut Out)
    requires from { asked.from.0 < net.now.events }
    requires to { asked.to.0 < net.now.events }
{
    match TreeScribe::new(alloc, 1000, 10_000) {
        Ok(mut kept) => {
            search_kept(alloc, net, &mut kept, asked, out);
            drop(kept);
        }
        Err(_) => out.refuse(),
    }
}

// The same, with a scribe that keeps the proof.
fn search_kept(
    alloc: Global,
    net: &Network,
    kept: &mut TreeScribe,
    asked: PairQuestion<'_>,
    out: &mut Out,
)
    requires from { asked.from.0 < net.now.events }
    requires to { asked.to.0 < net.now.events }
{
    match Work::new(alloc, net) {
        Ok(mut work) => {
            search_pair(alloc, net, &mut work, kept, asked, out);
            drop(work);
        }
        Err(_) => out.refuse(),
    }
}

fn search_pair(
    alloc: Global,
    net: &Network,
    work: &mut Work,
    kept: &mut TreeScribe,
    asked: PairQuestion<'_>,
    out: &mut Out,
)
    requires made { IsMadeFor net.now work.old }
    requires from { asked.from.0 < net.now.events }
    requires to { asked.to.0 < net.now.events }
{
    let Some(most) = budget_of(asked.number) else {
        out.refuse();
        return;
    };
    match find(work, net, most, kept) {
        Ok(Consistency::Consistent) => {
            kept.clear();
            match greatest(work, net, asked.from, asked.to, most, kept) {
                Ok(answer) => put_asked(asked.word, work, kept, answer, out),
                Err(_) => out.refuse(),
            }
        }
        Ok(Consistency::Open) => out.put("unsettled"),
        Ok(Consistency::Inconsistent) if asked.word == "proof" => put_tree(alloc, kept, out),
        Ok(Consistency::Inconsistent) => out.put("inconsistent"),
        Err(_) => out.refuse(),
    }
}

fn put_asked(word: &str, work: &Work, kept: &TreeScribe, answer: Bound, out: &mut Out) {
    match word {
        "answer" => put_answer(answer, out),
        "splits" => put_splits(kept, out),
        _ => out.put_count(work.leaves()),
    }
}

fn put_answer(answer: Bound, out: &mut Out) {
    match answer {
        Bound::Closed(value) => put_closed(value, out),
        Bound::Unbounded => out.put("unbounded"),
        Bound::Within { limit, attained } => {
            out.put("from ");
            out.put_end(attained);
            out.put(" to ");
            out.put_end(limit);
        }
    }
}

fn put_closed(value: i64, out: &mut Out) {
    out.put("closed ");
    out.put_number(value);
}

fn put_splits(kept: &TreeScribe, out: &mut Out) {
    for k in 0..kept.len() {
        if let Line::Split(constraint) = kept.line(k) {
            out.put(" ");
            out.put_count(u64::from(constraint));
        }
    }
}

/// Writes the greatest separation of a pair whatever the choices.
pub fn settle(alloc: Global, net: &Network, row: &str, out: &mut Out) {
    match asked_of(row) {
        Some(asked) if is_within(net, asked) => settle_pair(alloc, net, asked, out),
        _ => out.refuse(),
    }
}

fn settle_pair(alloc: Global, net: &Network, asked: PairQuestion<'_>, out: &mut Out)
    requires from { asked.from.0 < net.now.events }
    requires to { asked.to.0 < net.now.events }
{
    let Ok(turns) = u64::try_from(asked.number) else {
        out.refuse();
        return;
    };
    match Settler::new(alloc, net) {
        Ok(settler) => {
            let found = settler.greatest(alloc, net, asked.from, asked.to, turns);
            drop(settler);
            put_found(found, out);
        }
        Err(_) => out.refuse(),
    }
}

fn put_found(found: Result<ShownAnswer, NoMemory>, out: &mut Out) {
    match found {
        Ok(found) => {
            put_settled(found.answer, out);
            drop(found);
        }
        Err(_) => out.refuse(),
    }
}

fn put_settled(answer: Settled, out: &mut Out) {
    match answer {
        Settled::Closed(value) => put_closed(value, out),
        Settled::Unbounded => out.put("unbounded"),
        Settled::Inconsistent => out.put("inconsistent"),
        Settled::Spent => out.put("spent"),
    }
}

/// Writes the greatest separation of a pair by both searches. The word of the row is how many cases the first one may close, and its number how many
/// turns the second one may take.
pub fn extremes(alloc: Global, net: &Network, row: &str, out: &mut Out) {
    match asked_of(row) {
        Some(asked) if is_within(net, asked) => extremes_by(alloc, net, asked, out),
        _ => out.refuse(),
    }
}

fn extremes_by(alloc: Global, net: &Network, asked: PairQuestion<'_>, out: &mut Out)
    requires from { asked.from.0 < net.now.events }
    requires to { asked.to.0 < net.now.events }
{
    match asked.word.parse::<i64>() {
        Ok(number) => match budget_of(number) {
            Some(budget) => extremes_within(alloc, net, asked, budget, out),
            None => out.refuse(),
        },
        Err(_) => out.refuse(),
    }
}

fn extremes_within(
    alloc: Global,
    net: &Network,
    asked: PairQuestion<'_>,
    budget: u64,
    out: &mut Out,
)
    requires from { asked.from.0 < net.now.events }
    requires to { asked.to.0 < net.now.events }
    requires budget { 0 < budget }
{
    let Ok(turns) = u64::try_from(asked.number) else {
        out.refuse();
        return;
    };
    match Extremes::new(alloc, net, budget, RunTurns::of(turns)) {
        Ok(mut extremes) => {
            extremes_of(alloc, net, asked, &mut extremes, out);
            drop(extremes);
        }
        Err(_) => out.refuse(),
    }
}

fn extremes_of(
    alloc: Global,
    net: &Network,
    asked: PairQuestion<'_>,
    extremes: &mut Extremes,
    out: &mut Out,
)
    requires made { IsFor net.now extremes.old }
    requires from { asked.from.0 < net.now.events }
    requires to { asked.to.0 < net.now.events }
{
    match extremes.find(alloc, net) {
        Ok(Consistency::Consistent) => match extremes.greatest(alloc, net, asked.from, asked.to) {
            Ok(found) => {
                put_greatest(&found, out);
                drop(found);
            }
            Err(_) => out.refuse(),
        },
        Ok(Consistency::Inconsistent) => out.put("inconsistent"),
        Ok(Consistency::Open) => out.put("open"),
        Err(_) => out.refuse(),
    }
}

fn put_greatest(found: &Greatest, out: &mut Out) {
    match found {
        Separation::Closed { value, .. } => put_closed(*value, out),
        Separation::Unbounded { .. } => out.put("unbounded"),
        Separation::Open { .. } => out.put("open"),
    }
}
