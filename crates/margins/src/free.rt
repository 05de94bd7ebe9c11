//! Ends that don't matter: many are opened together.

ghost use Rattle.std.specs.Prelude.{◌≡◌, ◌<◌, ◌≤◌, ◌⊎◌, ℕ, Contains, IfOk, IfSome, IsTrue, OnOk, false, is_some, length, slice_get, slice_index_or};
ghost use Rattle.extremes.specs.Ready.{AreTurnsOf};
ghost use Rattle.moves.specs.Passing.{Passes};
ghost use Rattle.moves.specs.Step.{lent};
ghost use Rattle.moves.specs.declared.number_seen.NumberSeen.{NumberSeen as Seen};
ghost use Rattle.margins.specs.Step.{AreFree, IsFreeBetween, IsOpeningOf, end_on};

use crate::sought::probe_opened;
use drawn_networks::DrawnNetwork;
use drawn_numbers::DrawnNumber;
use extremes::RunTurns;
use itv_base::{NoMemory, Side};
use moves::{NetFound, NumberSeen};
use probing::{Probed, SideChain, Step, room};
use std::alloc::Global;

/// Ends on one side of numbers of a drawn network that are opened together: those of the numbers that are marked. No edge behind a bound uses them.
#[derive(Clone, Copy)]
pub struct Opening<'a> {
    pub drawn: &'a DrawnNetwork,
    pub seen: &'a [NumberSeen],
    pub unused: &'a [bool],
    pub side: Side,
    pub budget: u64,
}

/// Of each number whether its end on a side was found to be free, where every requirement passes as drawn. An end that no edge behind a bound uses is opened
/// together with others. If every requirement passes so, each of them is free. Else fewer are opened together.
pub fn free_ends(
    alloc: Global,
    drawn: &DrawnNetwork,
    seen: &[NumberSeen],
    side: Side,
    sides: &[SideChain],
    budget: u64,
    turns: &mut RunTurns,
) -> Result<Vec<bool>, NoMemory>
    requires passes { Passes drawn.now }
    requires budget { 1 ≤ budget }
    ensures free { IfOk result (λ free. AreFree drawn.now side seen.now free.items) }
    ensures each { IfOk result (λ free. length free.items ≡ length seen.now) }
    ensures turns { AreTurnsOf turns.old turns.new }
{
    let unused = unused_ends(alloc, drawn, seen, side, sides)?;
    let mut free = none_free(alloc, seen)?;
    let opening = Opening {
        drawn,
        seen,
        unused: &unused,
        side,
        budget,
    };
    open_between(alloc, &opening, 0, seen.len(), &mut free, turns)?;
    Ok(free)
}

/// A mark for each number, none of which is set.
pub fn none_free(alloc: Global, seen: &[NumberSeen]) -> Result<Vec<bool>, NoMemory>
    ensures none { IfOk result (λ free. (k : ℕ) → slice_index_or free.items k false ≡ false) }
    ensures each { IfOk result (λ free. length free.items ≡ length seen.now) }
{
    Ok(Vec::from_elem(alloc, false, seen.len())?)
}

// Marks the numbers with an end on a side that no edge behind a bound uses.
fn unused_ends(
    alloc: Global,
    drawn: &DrawnNetwork,
    seen: &[NumberSeen],
    side: Side,
    sides: &[SideChain],
) -> Result<Vec<bool>, NoMemory> {
    let mut unused = Vec::new(alloc);
    for number in seen {
        let is_there = has_end(number, side);
        let is_used = room(drawn, &[&number.number], Step::Widen(side), sides).is_some();
        unused.push(is_there && !is_used)?;
    }
    Ok(unused)
}

/// Whether the range of a number has an end on a side.
pub fn has_end(seen: &NumberSeen, side: Side) -> bool
    ensures { result ≡ is_some (end_on side seen.now.range) }
{
    match side {
        Side::Lower => seen.range.low().is_some(),
        Side::Upper => seen.range.high().is_some(),
    }
}

// Fewer numbers are not opened together where more of them are not free together.
const FEWEST: usize = 4;

// Opens the ends of the marked numbers from one place to another together. If every requirement passes, all of them are free. Else it opens those of the first
// half and those of the second one, if these are not few.
fn open_between(
    alloc: Global,
    opening: &Opening<'_>,
    start: usize,
    end: usize,
    free: &mut [bool],
    turns: &mut RunTurns,
) -> Result<(), NoMemory>
    requires opening { IsOpeningOf opening.now }
    requires order { start ≤ end }
    requires end { end ≤ length opening.now.seen.now }
    requires free { AreFree opening.now.drawn.now opening.now.side opening.now.seen.now free.old }
    ensures free { OnOk result (AreFree opening.now.drawn.now opening.now.side opening.now.seen.now free.new) }
    ensures turns { AreTurnsOf turns.old turns.new }
{
    if are_free_together(alloc, opening, start, end, turns)? {
        mark(opening.unused, start, end, free);
        return Ok(());
    }
    let half = (end - start) / 2;
    if half < FEWEST {
        return Ok(());
    }
    open_between(alloc, opening, start, start + half, free, turns)?;
    open_between(alloc, opening, start + half, end, free, turns)
}

// Marks the numbers from one place to another that have this mark.
fn mark(marked: &[bool], start: usize, end: usize, free: &mut [bool])
    requires order { start ≤ end }
    ensures { (k : ℕ) → IsTrue (slice_index_or free.new k false)
        → IsTrue (slice_index_or free.old k false) ⊎ ((start ≤ k) × (k < end) × IsTrue (slice_index_or marked.now k false)) }
{
    for k in start..end {
        if k < marked.len() && k < free.len() && marked[k] {
            free[k] = true;
        }
    }
}

// Whether every requirement passes with the ends of the marked numbers from one place to another open. Of a single one it is not asked.
fn are_free_together(
    alloc: Global,
    opening: &Opening<'_>,
    start: usize,
    end: usize,
    turns: &mut RunTurns,
) -> Result<bool, NoMemory>
    requires opening { IsOpeningOf opening.now }
    requires order { start ≤ end }
    requires end { end ≤ length opening.now.seen.now }
    ensures free { IfOk result (λ are_free. IsTrue are_free → IsFreeBetween opening.now start end) }
    ensures turns { AreTurnsOf turns.old turns.new }
{
    let numbers = unused_numbers(alloc, opening, start, end)?;
    if numbers.len() < 2 {
        return Ok(false);
    }
    let probed = probe_opened(
        alloc,
        opening.drawn,
        &numbers,
        opening.side,
        opening.budget,
        turns,
    )?;
    Ok(passes(&probed))
}

// Whether every requirement passes, as a probe found.
fn passes(probed: &Probed) -> bool
    ensures { IsTrue result → probed.now.found ≡ NetFound.Passes }
{
    match probed.found {
        NetFound::Passes => true,
        _ => false,
    }
}

// The marked numbers from one place to another.
fn unused_numbers<'a>(
    alloc: Global,
    opening: &Opening<'a>,
    start: usize,
    end: usize,
) -> Result<Vec<&'a DrawnNumber>, NoMemory>
    requires order { start ≤ end }
    requires end { end ≤ length opening.now.seen.now }
    ensures numbers { IfOk result (λ numbers. (k : ℕ) → start ≤ k → k < end → IsTrue (slice_index_or opening.now.unused.now k false)
        → IfSome (slice_get opening.now.seen.now k) (λ (s : Seen). Contains (lent numbers.items) s.number)) }
{
    let seen = opening.seen;
    let unused = opening.unused;
    let mut numbers = Vec::new(alloc);
    for k in start..end {
        if k < unused.len() && unused[k] {
            numbers.push(&seen[k].number)?;
        }
    }
    Ok(numbers)
}
