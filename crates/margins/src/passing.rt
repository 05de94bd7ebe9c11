//! The margin of an end of a design that passes as it is drawn.

ghost use Rattle.std.specs.Prelude.{pos, ◌≤ℤ◌, ◌<ℤ◌, IfOk, IfSome};
ghost use Rattle.extremes.specs.Ready.{AreTurnsOf};
ghost use Rattle.moves.specs.Passing.{BreaksRow, Passes};
ghost use Rattle.moves.specs.Step.{opened_at, widened_at};
ghost use Rattle.probing.specs.Step.{IsProbed};
ghost use Rattle.margins.specs.Step.{IsClimbOf, IsClimbFound, IsFoundOf, IsProbedAt, IsProbedOpen, IsEndSought};

use crate::bracket::{bracket_below, margin_in};
use crate::sought::EndSought;
use extremes::RunTurns;
use itv_base::NoMemory;
use moves::{Margin, NetFound};
use probing::{Probed, SideChain};
use std::alloc::Global;

/// A move with which every requirement passes, the last stride that led there, and the room that is guessed above it.
#[derive(Clone, Copy)]
pub struct Climb {
    pub passes: i64,
    pub stride: i64,
    pub room: Option<i64>,
}

/// What is found a stride above a move.
#[derive(Clone, Copy)]
pub enum Climbed {
    Higher(Climb),
    Found(Margin),
}

/// The margin of an end, where every requirement passes as drawn; these are the edges behind its bounds.
pub fn margin_from_pass(
    alloc: Global,
    sought: &EndSought<'_>,
    sides: &[SideChain],
    turns: &mut RunTurns,
) -> Result<Margin, NoMemory>
    requires sought { IsEndSought sought.now }
    requires passes { Passes sought.now.drawn.now }
    ensures found { IfOk result (IsFoundOf sought.now) }
    ensures turns { AreTurnsOf turns.old turns.new }
{
    if 0 < sought.reach.least {
        // No range is empty as drawn, so this is never so.
        return margin_from_least(alloc, sought, turns);
    }
    margin_above(alloc, sought, 0, sides, turns)
}

// The margin of an end that can't be drawn where it is.
fn margin_from_least(
    alloc: Global,
    sought: &EndSought<'_>,
    turns: &mut RunTurns,
) -> Result<Margin, NoMemory>
    requires sought { IsEndSought sought.now }
    requires inward { pos 0 <ℤ sought.now.reach.least }
    requires passes { Passes sought.now.drawn.now }
    ensures found { IfOk result (IsFoundOf sought.now) }
    ensures turns { AreTurnsOf turns.old turns.new }
{
    if sought.reach.most < sought.reach.least {
        return Ok(Margin::Never);
    }
    let probed = sought.probe_at(alloc, sought.reach.least, turns)?;
    let found = margin_at_least(alloc, sought, &probed, turns);
    drop(probed);
    found
}

// The margin of an end that can't be drawn where it is, according to what a probe of the least move found.
fn margin_at_least(
    alloc: Global,
    sought: &EndSought<'_>,
    probed: &Probed,
    turns: &mut RunTurns,
) -> Result<Margin, NoMemory>
    requires sought { IsEndSought sought.now }
    requires inward { pos 0 <ℤ sought.now.reach.least }
    requires least { sought.now.reach.least ≤ℤ sought.now.reach.most }
    requires passes { Passes sought.now.drawn.now }
    requires probed { IsProbedAt sought.now sought.now.reach.least probed.now }
    ensures found { IfOk result (IsFoundOf sought.now) }
    ensures turns { AreTurnsOf turns.old turns.new }
{
    match probed.found {
        NetFound::Passes => margin_above(alloc, sought, sought.reach.least, &probed.sides, turns),
        NetFound::Breaks(_) => Ok(Margin::Never),
        // Times that satisfy the drawn network satisfy this one.
        NetFound::Inconsistent => unreachable!(),
        NetFound::Open => Ok(Margin::Spent),
        NetFound::Spent => Ok(Margin::Spent),
    }
}

// The margin above a move with which every requirement passes; these are the edges behind its bounds.
fn margin_above(
    alloc: Global,
    sought: &EndSought<'_>,
    passes: i64,
    sides: &[SideChain],
    turns: &mut RunTurns,
) -> Result<Margin, NoMemory>
    requires sought { IsEndSought sought.now }
    requires least { sought.now.reach.least ≤ℤ passes }
    requires most { passes ≤ℤ sought.now.reach.most }
    requires passes { Passes (widened_at sought.now.drawn.now sought.now.number.now sought.now.side passes) }
    ensures found { IfOk result (IsFoundOf sought.now) }
    ensures turns { AreTurnsOf turns.old turns.new }
{
    let mut climb = Climb {
        passes,
        stride: 0,
        room: sought.room(sides),
    };
    while let Some(by) = next_of(climb, sought.reach.most) {
        match climbed_to(alloc, sought, climb, by, turns)? {
            Climbed::Higher(next) => climb = next,
            Climbed::Found(found) => return Ok(found),
        }
    }
    margin_by_opening(alloc, sought, climb.passes, turns)
}

// The next move to be tried, if there is room and the move can be drawn. Each stride is at least twice as long as the one before.
fn next_of(climb: Climb, most: i64) -> Option<i64>
    ensures above { IfSome result (λ by. climb.passes <ℤ by) }
    ensures most { IfSome result (λ by. by ≤ℤ most) }
{
    let room = climb.room?;
    let stride = room.saturating_add(1).max(climb.stride.saturating_mul(2));
    let by = climb.passes.saturating_add(stride);
    if climb.passes < by && by <= most {
        Some(by)
    } else {
        None
    }
}

// What is found with a move above one with which every requirement passes.
fn climbed_to(
    alloc: Global,
    sought: &EndSought<'_>,
    climb: Climb,
    by: i64,
    turns: &mut RunTurns,
) -> Result<Climbed, NoMemory>
    requires sought { IsEndSought sought.now }
    requires climb { IsClimbOf sought.now climb }
    requires above { climb.passes <ℤ by }
    requires most { by ≤ℤ sought.now.reach.most }
    ensures found { IfOk result (IsClimbFound sought.now climb) }
    ensures turns { AreTurnsOf turns.old turns.new }
{
    let probed = sought.probe_at(alloc, by, turns)?;
    let next = climbed_by(alloc, sought, climb, by, &probed, turns);
    drop(probed);
    next
}

// What is found with a move above one with which every requirement passes, according to what a probe found there.
fn climbed_by(
    alloc: Global,
    sought: &EndSought<'_>,
    climb: Climb,
    by: i64,
    probed: &Probed,
    turns: &mut RunTurns,
) -> Result<Climbed, NoMemory>
    requires sought { IsEndSought sought.now }
    requires climb { IsClimbOf sought.now climb }
    requires above { climb.passes <ℤ by }
    requires most { by ≤ℤ sought.now.reach.most }
    requires probed { IsProbedAt sought.now by probed.now }
    ensures found { IfOk result (IsClimbFound sought.now climb) }
    ensures turns { AreTurnsOf turns.old turns.new }
{
    match probed.found {
        NetFound::Passes => Ok(Climbed::Higher(Climb {
            passes: by,
            stride: by.saturating_sub(climb.passes),
            room: sought.room(&probed.sides),
        })),
        NetFound::Breaks(row) => {
            let bracket = bracket_below(alloc, sought, climb.passes, by, row, probed)?;
            Ok(Climbed::Found(margin_in(alloc, sought, bracket, turns)?))
        }
        // Times that satisfy the network with a lesser move satisfy this one.
        NetFound::Inconsistent => unreachable!(),
        NetFound::Open => Ok(Climbed::Found(Margin::Spent)),
        NetFound::Spent => Ok(Climbed::Found(Margin::Spent)),
    }
}

// The margin above a move with which every requirement passes, where no bound is known to grow: from the network with the end open.
fn margin_by_opening(
    alloc: Global,
    sought: &EndSought<'_>,
    passes: i64,
    turns: &mut RunTurns,
) -> Result<Margin, NoMemory>
    requires sought { IsEndSought sought.now }
    requires least { sought.now.reach.least ≤ℤ passes }
    requires most { passes ≤ℤ sought.now.reach.most }
    requires passes { Passes (widened_at sought.now.drawn.now sought.now.number.now sought.now.side passes) }
    ensures found { IfOk result (IsFoundOf sought.now) }
    ensures turns { AreTurnsOf turns.old turns.new }
{
    let opened = sought.probe_open(alloc, turns)?;
    let found = margin_by_open(alloc, sought, passes, &opened, turns);
    drop(opened);
    found
}

// The margin above a move with which every requirement passes, according to what a probe of the network with the end open found.
fn margin_by_open(
    alloc: Global,
    sought: &EndSought<'_>,
    passes: i64,
    opened: &Probed,
    turns: &mut RunTurns,
) -> Result<Margin, NoMemory>
    requires sought { IsEndSought sought.now }
    requires least { sought.now.reach.least ≤ℤ passes }
    requires most { passes ≤ℤ sought.now.reach.most }
    requires passes { Passes (widened_at sought.now.drawn.now sought.now.number.now sought.now.side passes) }
    requires opened { IsProbedOpen sought.now opened.now }
    ensures found { IfOk result (IsFoundOf sought.now) }
    ensures turns { AreTurnsOf turns.old turns.new }
{
    match opened.found {
        NetFound::Passes => Ok(Margin::Free),
        NetFound::Breaks(row) => margin_below_open(alloc, sought, passes, row, opened, turns),
        // Times that satisfy the network with a move of the end satisfy the one with the end open.
        NetFound::Inconsistent => unreachable!(),
        NetFound::Open => Ok(Margin::Spent),
        NetFound::Spent => Ok(Margin::Spent),
    }
}

// The margin above a move with which every requirement passes, where a row breaks with the end open.
fn margin_below_open(
    alloc: Global,
    sought: &EndSought<'_>,
    passes: i64,
    row: u32,
    opened: &Probed,
    turns: &mut RunTurns,
) -> Result<Margin, NoMemory>
    requires sought { IsEndSought sought.now }
    requires least { sought.now.reach.least ≤ℤ passes }
    requires most { passes ≤ℤ sought.now.reach.most }
    requires passes { Passes (widened_at sought.now.drawn.now sought.now.number.now sought.now.side passes) }
    requires breaks { BreaksRow (opened_at sought.now.drawn.now sought.now.number.now sought.now.side) row }
    requires fits { IsProbed sought.now.drawn.now.net.events opened.now }
    ensures found { IfOk result (IsFoundOf sought.now) }
    ensures turns { AreTurnsOf turns.old turns.new }
{
    if sought.reach.most <= passes {
        return Ok(Margin::Limit);
    }
    let need = need_above(sought, passes, opened);
    if need < sought.reach.most && sought.breaks_at(alloc, need, row, opened)? {
        let bracket = bracket_below(alloc, sought, passes, need, row, opened)?;
        return margin_in(alloc, sought, bracket, turns);
    }
    margin_to_limit(alloc, sought, passes, row, turns)
}

// The least move above a number that the times of a probe need, or the greatest move that can be drawn where nothing is known.
fn need_above(sought: &EndSought<'_>, above: i64, probed: &Probed) -> i64
    requires above { above <ℤ sought.now.reach.most }
    requires fits { IsProbed sought.now.drawn.now.net.events probed.now }
    ensures above { above <ℤ result }
{
    let most = sought.reach.most;
    match sought.need(probed) {
        Some(need) => need.max(above + 1),
        None => most,
    }
}

// The margin above a move with which every requirement passes, where this row breaks with the end open, and no move that can be drawn is known to break one.
fn margin_to_limit(
    alloc: Global,
    sought: &EndSought<'_>,
    passes: i64,
    row: u32,
    turns: &mut RunTurns,
) -> Result<Margin, NoMemory>
    requires sought { IsEndSought sought.now }
    requires least { sought.now.reach.least ≤ℤ passes }
    requires most { passes <ℤ sought.now.reach.most }
    requires passes { Passes (widened_at sought.now.drawn.now sought.now.number.now sought.now.side passes) }
    requires breaks { BreaksRow (opened_at sought.now.drawn.now sought.now.number.now sought.now.side) row }
    ensures found { IfOk result (IsFoundOf sought.now) }
    ensures turns { AreTurnsOf turns.old turns.new }
{
    let probed = sought.probe_at(alloc, sought.reach.most, turns)?;
    let found = margin_at_limit(alloc, sought, passes, row, &probed, turns);
    drop(probed);
    found
}

// The same, according to what a probe of the greatest move that can be drawn found.
fn margin_at_limit(
    alloc: Global,
    sought: &EndSought<'_>,
    passes: i64,
    row: u32,
    probed: &Probed,
    turns: &mut RunTurns,
) -> Result<Margin, NoMemory>
    requires sought { IsEndSought sought.now }
    requires least { sought.now.reach.least ≤ℤ passes }
    requires most { passes <ℤ sought.now.reach.most }
    requires passes { Passes (widened_at sought.now.drawn.now sought.now.number.now sought.now.side passes) }
    requires breaks { BreaksRow (opened_at sought.now.drawn.now sought.now.number.now sought.now.side) row }
    requires probed { IsProbedAt sought.now sought.now.reach.most probed.now }
    ensures found { IfOk result (IsFoundOf sought.now) }
    ensures turns { AreTurnsOf turns.old turns.new }
{
    match probed.found {
        NetFound::Passes => Ok(Margin::Limit),
        NetFound::Breaks(row) => {
            let most = sought.reach.most;
            let bracket = bracket_below(alloc, sought, passes, most, row, probed)?;
            margin_in(alloc, sought, bracket, turns)
        }
        // Times that satisfy the network with a lesser move satisfy this one.
        NetFound::Inconsistent => unreachable!(),
        NetFound::Open => Ok(Margin::Spent),
        NetFound::Spent => Ok(Margin::Spent),
    }
}
