//! Whether some constraints contradict each other by themselves.

ghost use Rattle.std.specs.Prelude.{◌≡◌, true, IfOk, IsTrue, length, replicate};
ghost use Rattle.event_graph.specs.Bounds.{IsInconsistent};
ghost use Rattle.chains.specs.Named.{IsContradiction, IsIn};
ghost use Rattle.extremes.specs.Ready.{AreTurnsOf};
ghost use Rattle.extremes.specs.Step.{AllowsAll};

use crate::by_clauses::is_contradiction;
use event_graph::Network;
use itv_base::NoMemory;
use settle::{RunTurns, Settler};
use std::alloc::Global;

/// Constraints of a network that no times satisfy, as flags: those of a guess, if a search by clauses finds that they contradict each other by
/// themselves, and else all.
pub fn confirmed(
    alloc: Global,
    net: &Network,
    guess: &[bool],
    left: &mut RunTurns,
) -> Result<Vec<bool>, NoMemory>
    requires count { length guess.now ≡ length net.now.constraints }
    requires none { IsInconsistent net.now }
    ensures turns { AreTurnsOf left.old left.new }
    ensures count { IfOk result (λ set. length set.items ≡ length net.now.constraints) }
    ensures contradicts { IfOk result (λ set. IsContradiction net.now set.items) }
{
    if contradict(alloc, net, guess, left)? {
        Ok(Vec::from_slice(alloc, guess)?)
    } else {
        all_of(alloc, net)
    }
}

// All constraints of a network.
fn all_of(alloc: Global, net: &Network) -> Result<Vec<bool>, NoMemory>
    ensures { IfOk result (λ set. set.items ≡ replicate (length net.now.constraints) true) }
{
    Ok(Vec::from_elem(alloc, true, net.len() as usize)?)
}

// Whether a search by clauses finds that the constraints of a set contradict each other by themselves.
fn contradict(
    alloc: Global,
    net: &Network,
    set: &[bool],
    left: &mut RunTurns,
) -> Result<bool, NoMemory>
    ensures turns { AreTurnsOf left.old left.new }
    ensures contradicts { IfOk result (λ found. IsTrue found → IsContradiction net.now set.now) }
{
    let part = part_of(alloc, net, set)?;
    match Settler::new(alloc, &part) {
        Ok(settler) => {
            let found = is_contradiction(alloc, &part, &settler, left);
            drop(settler);
            drop(part);
            found
        }
        Err(NoMemory) => {
            drop(part);
            Err(NoMemory)
        }
    }
}

// The network with the constraints of a set alone.
fn part_of(alloc: Global, net: &Network, set: &[bool]) -> Result<Network, NoMemory>
    ensures wider { IfOk result (AllowsAll net.now set.now) }
{
    let mut part = Network::new(alloc, net.events())?;
    for number in 0..net.len() {
        if has(set, number) {
            part.push_copy(alloc, net, number)?;
        }
    }
    Ok(part)
}

// Whether a constraint is in a set.
fn has(set: &[bool], number: u32) -> bool
    ensures { IsTrue result → IsIn set.now number }
{
    match set.get(number as usize) {
        Some(is_in) => *is_in,
        None => false,
    }
}
