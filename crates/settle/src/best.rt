//! The best times found so far.

ghost use Rattle.std.specs.Prelude.{◌≡◌, ◌↔◌, ◌<◌, ◌<ℤ◌, IsTrue, All, IfSome, length};
ghost use Rattle.event_graph.specs.Satisfying.{Satisfies};
ghost use Rattle.event_graph.specs.Times.{IsTime, separation};
ghost use Rattle.settle.specs.Step.Racing.{AreRaceTimes};
ghost use Rattle.falling.specs.Cap.{IsNearValue};

use edge_clauses::Claim;
use event_graph::{Network, separation};
use itv_base::{END_LIMIT, EventId, MAX_EVENTS, NoMemory};
use std::alloc::Global;

/// The best times found so far, and the claim. The times satisfy a network, in picoseconds and one per event. There are
/// none until some are found. The claim is the separation of a pair in the times. Without times it is a number below
/// minus the far line.
#[derive(Drop)]
pub struct Best {
    pub times: Option<Vec<i64>>,
    pub claim: Claim,
}

// The greatest cap of a network, in picoseconds.
const FARTHEST: i64 = 2 * MAX_EVENTS as i64 * (END_LIMIT + 1);

/// The times of a network, from those of its negation.
pub fn times_of(alloc: Global, values: &Vec<i64>) -> Result<Vec<i64>, NoMemory> {
    let mut times = Vec::new(alloc);
    for value in values {
        times.push(value.saturating_mul(-1))?;
    }
    Ok(times)
}

/// The separation of a pair in times, if the times satisfy a network, are within the greatest cap, and have a
/// separation above a claim.
pub fn more_by(
    net: &Network,
    from: EventId,
    to: EventId,
    claim: Claim,
    times: &Vec<i64>,
) -> Option<Claim>
    requires from { from.0 < net.now.events }
    requires to { to.0 < net.now.events }
    ensures count { IfSome result (λ _. length times.now.items ≡ net.now.events) }
    ensures near { IfSome result (λ _. All IsNearValue times.now.items) }
    ensures times { IfSome result (λ _. All IsTime times.now.items) }
    ensures satisfies { IfSome result (λ more. AreRaceTimes net.now from to more.value times.now.items) }
    ensures more { IfSome result (λ more. claim.value <ℤ more.value) }
{
    if times.len() != net.events() as usize || !are_near(times) {
        return None;
    }
    let more = separation_of(times, from, to);
    if !is_less(claim, more) {
        return None;
    }
    if net.broken(times).is_some() {
        return None;
    }
    Some(more)
}

// Whether all numbers are within the greatest cap in absolute value.
fn are_near(times: &Vec<i64>) -> bool
    ensures near { IsTrue result → All IsNearValue times.now.items }
    ensures times { IsTrue result → All IsTime times.now.items }
{
    times.iter().all(|time| is_near(*time))
}

// Whether a number is within the greatest cap in absolute value.
fn is_near(time: i64) -> bool
    ensures near { IsTrue result ↔ IsNearValue time }
{
    -FARTHEST <= time && time <= FARTHEST
}

// Whether a claim is less than another.
fn is_less(claim: Claim, other: Claim) -> bool
    ensures { IsTrue result ↔ (claim.value <ℤ other.value) }
{
    claim.value < other.value
}

// The separation of a pair in times.
fn separation_of(times: &Vec<i64>, from: EventId, to: EventId) -> Claim
    requires times { All IsTime times.now.items }
    ensures { result.value ≡ separation times.now.items from to }
{
    Claim {
        value: separation(times, from, to),
    }
}
