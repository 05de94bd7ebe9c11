//! The margin of an end of a design that fails as it is drawn: how far the end has to be moved inward.

ghost use Rattle.std.specs.Prelude.{◌≡◌, pos, ◌+ℤ◌, ◌<ℤ◌, ◌↔◌, IfOk, IsTrue};
ghost use Rattle.extremes.specs.Ready.{AreTurnsOf};
ghost use Rattle.moves.specs.Passing.{BreaksRow};
ghost use Rattle.probing.specs.Step.{IsProbed};
ghost use Rattle.margins.specs.Step.{IsFoundOf, IsGapOf, IsGapAbove, IsGapSearched, IsProbedAt, IsEndSought, moved_in};

use crate::bracket::{Bracket, broken_at, inside, margin_in, middle};
use crate::sought::EndSought;
use extremes::RunTurns;
use itv_base::NoMemory;
use moves::{Margin, NetFound};
use probing::Probed;
use std::alloc::Global;

/// With the lesser move of an end the rules contradict each other, and with the greater one a row breaks. Moves are outward and in picoseconds.
#[derive(Clone, Copy)]
pub struct Gap {
    pub contradicts: i64,
    pub breaks: i64,
    pub row: u32,
}

/// What is found between the moves of a gap.
#[derive(Clone, Copy)]
pub enum GapSearched {
    Narrower(Gap),
    Found(Margin),
}

/// The margin of an end, where a row breaks as drawn; the base is what was found of that.
pub fn margin_from_break(
    alloc: Global,
    sought: &EndSought<'_>,
    row: u32,
    base: &Probed,
    turns: &mut RunTurns,
) -> Result<Margin, NoMemory>
    requires sought { IsEndSought sought.now }
    requires breaks { BreaksRow sought.now.drawn.now row }
    requires fits { IsProbed sought.now.drawn.now.net.events base.now }
    ensures found { IfOk result (IsFoundOf sought.now) }
    ensures turns { AreTurnsOf turns.old turns.new }
{
    let least = sought.reach.least;
    if 0 <= least {
        // The end can't be moved inward.
        return Ok(Margin::Never);
    }
    let is_broken = breaks_at_least(alloc, sought, row, base)?;
    if is_broken {
        return Ok(Margin::Never);
    }
    let breaks = broken_at(alloc, sought, least, 0, row, base)?;
    let gap = Gap {
        contradicts: least,
        breaks,
        row,
    };
    margin_from_least(alloc, sought, gap, guess_below(sought, breaks, base), turns)
}

// Whether the times of a probe are known to break a row with the least move.
fn breaks_at_least(
    alloc: Global,
    sought: &EndSought<'_>,
    row: u32,
    base: &Probed,
) -> Result<bool, NoMemory>
    requires sought { IsEndSought sought.now }
    requires fits { IsProbed sought.now.drawn.now.net.events base.now }
    ensures { IfOk result (λ breaks. IsTrue breaks → BreaksRow (moved_in sought.now sought.now.reach.least) row) }
{
    if !needs_least(sought, base) {
        return Ok(false);
    }
    sought.breaks_at(alloc, sought.reach.least, row, base)
}

// Whether the times of a probe need no move beyond the least one, or nothing is known of that.
fn needs_least(sought: &EndSought<'_>, base: &Probed) -> bool
    requires fits { IsProbed sought.now.drawn.now.net.events base.now }
{
    match sought.need(base) {
        Some(need) => need <= sought.reach.least,
        None => true,
    }
}

// The next guess below a move with which a row breaks: just below it where the edges behind the bounds give none.
fn guess_below(sought: &EndSought<'_>, breaks: i64, base: &Probed) -> Option<i64> {
    let back = sought.excess(&base.sides).unwrap_or(1);
    Some(breaks.saturating_sub(back))
}

// The margin between the least move and one with which a row breaks.
fn margin_from_least(
    alloc: Global,
    sought: &EndSought<'_>,
    gap: Gap,
    guess: Option<i64>,
    turns: &mut RunTurns,
) -> Result<Margin, NoMemory>
    requires sought { IsEndSought sought.now }
    requires gap { IsGapAbove sought.now gap }
    requires least { gap.contradicts ≡ sought.now.reach.least }
    ensures found { IfOk result (IsFoundOf sought.now) }
    ensures turns { AreTurnsOf turns.old turns.new }
{
    let probed = sought.probe_at(alloc, gap.contradicts, turns)?;
    let found = margin_by_least(alloc, sought, gap, guess, &probed, turns);
    drop(probed);
    found
}

// The same, according to what a probe of the least move found.
fn margin_by_least(
    alloc: Global,
    sought: &EndSought<'_>,
    gap: Gap,
    guess: Option<i64>,
    probed: &Probed,
    turns: &mut RunTurns,
) -> Result<Margin, NoMemory>
    requires sought { IsEndSought sought.now }
    requires gap { IsGapAbove sought.now gap }
    requires least { gap.contradicts ≡ sought.now.reach.least }
    requires probed { IsProbedAt sought.now gap.contradicts probed.now }
    ensures found { IfOk result (IsFoundOf sought.now) }
    ensures turns { AreTurnsOf turns.old turns.new }
{
    match probed.found {
        NetFound::Passes => margin_in(alloc, sought, bracket_of(gap, guess), turns),
        NetFound::Breaks(_) => Ok(Margin::Never),
        NetFound::Inconsistent => margin_past_contradiction(alloc, sought, gap, turns),
        NetFound::Open => Ok(Margin::Spent),
        NetFound::Spent => Ok(Margin::Spent),
    }
}

// The bracket of a gap, with the lesser move of which every requirement passes.
fn bracket_of(gap: Gap, guess: Option<i64>) -> Bracket
    ensures { result ≡ record { passes = gap.contradicts; breaks = gap.breaks; row = gap.row; guess = guess } }
{
    Bracket {
        passes: gap.contradicts,
        breaks: gap.breaks,
        row: gap.row,
        guess,
    }
}

// The margin between two moves, with the lesser of which the rules contradict each other.
fn margin_past_contradiction(
    alloc: Global,
    sought: &EndSought<'_>,
    gap: Gap,
    turns: &mut RunTurns,
) -> Result<Margin, NoMemory>
    requires sought { IsEndSought sought.now }
    requires gap { IsGapOf sought.now gap }
    ensures found { IfOk result (IsFoundOf sought.now) }
    ensures turns { AreTurnsOf turns.old turns.new }
{
    let mut gap = gap;
    while is_wide(gap) {
        let by = between(gap);
        match gap_with(alloc, sought, gap, by, turns)? {
            GapSearched::Narrower(next) => gap = next,
            GapSearched::Found(found) => return Ok(found),
        }
    }
    Ok(Margin::Never)
}

// Whether there are moves between those of a gap.
fn is_wide(gap: Gap) -> bool
    requires apart { gap.contradicts <ℤ gap.breaks }
    ensures wide { IsTrue result ↔ ((gap.contradicts +ℤ pos 1) <ℤ gap.breaks) }
{
    gap.contradicts + 1 < gap.breaks
}

// A move about in the middle of a gap.
fn between(gap: Gap) -> i64
    requires wide { (gap.contradicts +ℤ pos 1) <ℤ gap.breaks }
    ensures above { gap.contradicts <ℤ result }
    ensures below { result <ℤ gap.breaks }
{
    let by = middle(gap.contradicts, gap.breaks);
    inside(by, gap.contradicts, gap.breaks)
}

// What is found with a move between those of a gap.
fn gap_with(
    alloc: Global,
    sought: &EndSought<'_>,
    gap: Gap,
    by: i64,
    turns: &mut RunTurns,
) -> Result<GapSearched, NoMemory>
    requires sought { IsEndSought sought.now }
    requires gap { IsGapOf sought.now gap }
    requires above { gap.contradicts <ℤ by }
    requires below { by <ℤ gap.breaks }
    ensures found { IfOk result (IsGapSearched sought.now gap) }
    ensures turns { AreTurnsOf turns.old turns.new }
{
    let probed = sought.probe_at(alloc, by, turns)?;
    let next = gap_by(alloc, sought, gap, by, &probed, turns);
    drop(probed);
    next
}

// What is found with a move between those of a gap, according to what a probe found there.
fn gap_by(
    alloc: Global,
    sought: &EndSought<'_>,
    gap: Gap,
    by: i64,
    probed: &Probed,
    turns: &mut RunTurns,
) -> Result<GapSearched, NoMemory>
    requires sought { IsEndSought sought.now }
    requires gap { IsGapOf sought.now gap }
    requires above { gap.contradicts <ℤ by }
    requires below { by <ℤ gap.breaks }
    requires probed { IsProbedAt sought.now by probed.now }
    ensures found { IfOk result (IsGapSearched sought.now gap) }
    ensures turns { AreTurnsOf turns.old turns.new }
{
    match probed.found {
        NetFound::Passes => {
            let higher = Gap {
                contradicts: by,
                ..gap
            };
            let found = margin_in(alloc, sought, bracket_of(higher, None), turns)?;
            Ok(GapSearched::Found(found))
        }
        NetFound::Breaks(row) => {
            let breaks = broken_at(alloc, sought, gap.contradicts, by, row, probed)?;
            Ok(GapSearched::Narrower(Gap {
                contradicts: gap.contradicts,
                breaks,
                row,
            }))
        }
        NetFound::Inconsistent => Ok(GapSearched::Narrower(Gap {
            contradicts: by,
            ..gap
        })),
        NetFound::Open => Ok(GapSearched::Found(Margin::Spent)),
        NetFound::Spent => Ok(GapSearched::Found(Margin::Spent)),
    }
}
