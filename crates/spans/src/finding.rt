//! Finding the span of numbers.

ghost use Rattle.std.specs.Prelude.{◌≡◌, ◌≤◌, pos, false, IfOk, IfSome};
ghost use Rattle.itv_base.specs.declared.limits.TheConstants.{MAX_BUDGET};
ghost use Rattle.extremes.specs.Ready.{AreTurnsOf};
ghost use Rattle.moves.specs.Found.{IsSpanFound};
ghost use Rattle.moves.specs.Networks.{IsNetFound, is_net_open};
ghost use Rattle.moves.specs.Passing.{BreaksRow, Passes};
ghost use Rattle.moves.specs.Step.{lent};
ghost use Rattle.spans.specs.Step.{IsNearFound, IsWithinReach, IsSought, IsSpanOf, IsSpanStart, IsStartGoal, IsTriedValue, at_value};

use crate::border::margin_of;
use crate::bordering::border_of;
use crate::counts::{counts_of, no_counts};
use crate::direction::{Direction, Value, drawn_value, step_of, value_on};
use crate::nearby::{Nearby, near_in};
use crate::reach::{limit_of, reach_of, start_limit};
use crate::sought::SpanSought;
use drawn_networks::DrawnNetwork;
use drawn_numbers::DrawnNumber;
use extremes::RunTurns;
use itv_base::NoMemory;
use moves::{Margin, NetFound, SpanFound};
use probing::{Probed, SideChain};
use std::alloc::Global;

// How often the next value is guessed, where a design fails as drawn.
const GUIDED_ROUNDS: u32 = 20;

/// What is found of a value beside the drawn one.
#[derive(Clone, Copy)]
pub enum Tried {
    /// The span around it, since every requirement passes there.
    Span(SpanFound),
    /// A row breaks. The next value is this far on, if the edges behind its bounds say so.
    On(Option<i64>),
    /// It is not worth guessing further.
    Nothing,
}

/// Finds how far some numbers may be moved down and up as one before a requirement breaks. The base is what was found of the network as drawn: every requirement
/// passes, or a row breaks. A margin is left open only if a search is, or if no requirement breaks with as many further values as the budget has cases. Of
/// a design that fails as drawn some value is found with which every requirement passes, if there is one with no more picoseconds up or down than that.
pub fn find_span(
    alloc: Global,
    drawn: &DrawnNetwork,
    numbers: &[&DrawnNumber],
    base: &Probed,
    budget: u64,
    turns: &mut RunTurns,
) -> Result<SpanFound, NoMemory>
    requires base { IsNetFound drawn.now base.now.found }
    requires consistent { base.now.found ≡ NetFound.Inconsistent → ⊥ }
    requires decided { is_net_open base.now.found ≡ false }
    requires least { 1 ≤ budget }
    requires most { budget ≤ MAX_BUDGET }
    ensures found { IfOk result (λ span. IsSpanFound drawn.now (lent numbers.now) budget span.down span.up) }
    ensures turns { AreTurnsOf turns.old turns.new }
{
    let counts = counts_of(alloc, drawn, numbers)?;
    let zeros = no_counts(alloc, drawn)?;
    let reach = reach_of(alloc, drawn, numbers)?;
    let sought = SpanSought {
        drawn,
        numbers,
        counts: &counts,
        zeros: &zeros,
        reach,
        budget,
    };
    span_from(alloc, &sought, base, turns)
}

// The span of the numbers, according to what was found of the network as drawn.
fn span_from(
    alloc: Global,
    sought: &SpanSought<'_>,
    base: &Probed,
    turns: &mut RunTurns,
) -> Result<SpanFound, NoMemory>
    requires sought { IsSought sought.now }
    requires base { IsNetFound sought.now.drawn.now base.now.found }
    requires consistent { base.now.found ≡ NetFound.Inconsistent → ⊥ }
    requires decided { is_net_open base.now.found ≡ false }
    ensures found { IfOk result (IsSpanOf sought.now) }
    ensures turns { AreTurnsOf turns.old turns.new }
{
    match base.found {
        NetFound::Passes => span_around(alloc, sought, drawn_value(), &base.sides, turns),
        NetFound::Breaks(row) => span_elsewhere(alloc, sought, row, &base.sides, turns),
        // Some times satisfy the network, and no search was left open.
        NetFound::Inconsistent => unreachable!(),
        NetFound::Open => unreachable!(),
        NetFound::Spent => unreachable!(),
    }
}

// The span around a value with which every requirement passes; these are the edges behind its bounds. The value is the drawn one, if every requirement passes
// there.
fn span_around(
    alloc: Global,
    sought: &SpanSought<'_>,
    from: Value,
    sides: &[SideChain],
    turns: &mut RunTurns,
) -> Result<SpanFound, NoMemory>
    requires sought { IsSought sought.now }
    requires from { IsWithinReach sought.now from.by }
    requires start { IsSpanStart from.by }
    requires passes { Passes (at_value sought.now from.by) }
    requires own { Passes sought.now.drawn.now → from.by ≡ pos 0 }
    ensures found { IfOk result (IsSpanOf sought.now) }
    ensures turns { AreTurnsOf turns.old turns.new }
{
    let low = border_of(alloc, sought, from, sides, Direction::Down, turns)?;
    let high = border_of(alloc, sought, from, sides, Direction::Up, turns)?;
    Ok(SpanFound {
        down: margin_of(low, Direction::Down),
        up: margin_of(high, Direction::Up),
    })
}

// ---- a design that fails as drawn

// The span around a value that is found above or below the drawn one, with which a row breaks: first by guesses, and then value after value.
fn span_elsewhere(
    alloc: Global,
    sought: &SpanSought<'_>,
    row: u32,
    sides: &[SideChain],
    turns: &mut RunTurns,
) -> Result<SpanFound, NoMemory>
    requires sought { IsSought sought.now }
    requires breaks { BreaksRow sought.now.drawn.now row }
    ensures found { IfOk result (IsSpanOf sought.now) }
    ensures turns { AreTurnsOf turns.old turns.new }
{
    if let Some(above) = span_towards(alloc, sought, row, sides, Direction::Up, turns)? {
        return Ok(above);
    }
    if let Some(below) = span_towards(alloc, sought, row, sides, Direction::Down, turns)? {
        return Ok(below);
    }
    span_near(alloc, sought, row, turns)
}

// The span around a value near the drawn one, with which a row breaks.
fn span_near(
    alloc: Global,
    sought: &SpanSought<'_>,
    row: u32,
    turns: &mut RunTurns,
) -> Result<SpanFound, NoMemory>
    requires sought { IsSought sought.now }
    requires breaks { BreaksRow sought.now.drawn.now row }
    ensures found { IfOk result (IsSpanOf sought.now) }
    ensures turns { AreTurnsOf turns.old turns.new }
{
    match near_in(alloc, sought, Direction::Up, turns)? {
        Nearby::Passes(at) => span_at(alloc, sought, row, at, turns),
        Nearby::Left => Ok(both(Margin::Spent)),
        Nearby::Fails => span_below(alloc, sought, row, turns),
    }
}

// The span around a value near the drawn one and below it. With no value near it and above it every requirement passes.
fn span_below(
    alloc: Global,
    sought: &SpanSought<'_>,
    row: u32,
    turns: &mut RunTurns,
) -> Result<SpanFound, NoMemory>
    requires sought { IsSought sought.now }
    requires breaks { BreaksRow sought.now.drawn.now row }
    requires above { IsNearFound sought.now Direction.Up Nearby.Fails }
    ensures found { IfOk result (IsSpanOf sought.now) }
    ensures turns { AreTurnsOf turns.old turns.new }
{
    match near_in(alloc, sought, Direction::Down, turns)? {
        Nearby::Passes(at) => span_at(alloc, sought, row, at, turns),
        Nearby::Left => Ok(both(Margin::Spent)),
        Nearby::Fails => Ok(both(Margin::Never)),
    }
}

// The same margin in both directions.
fn both(margin: Margin) -> SpanFound
    ensures { result ≡ record { down = margin; up = margin } }
{
    SpanFound {
        down: margin,
        up: margin,
    }
}

// The span around a value with which every requirement passes. As drawn a row breaks.
fn span_at(
    alloc: Global,
    sought: &SpanSought<'_>,
    row: u32,
    at: Value,
    turns: &mut RunTurns,
) -> Result<SpanFound, NoMemory>
    requires sought { IsSought sought.now }
    requires breaks { BreaksRow sought.now.drawn.now row }
    requires at { IsWithinReach sought.now at.by }
    requires start { IsSpanStart at.by }
    requires passes { Passes (at_value sought.now at.by) }
    ensures found { IfOk result (IsSpanOf sought.now) }
    ensures turns { AreTurnsOf turns.old turns.new }
{
    let probed = sought.probe_at(alloc, at, turns)?;
    span_around(alloc, sought, at, &probed.sides, turns)
}

// The span around a value that is guessed in a direction: each row that breaks says how far the next value is at least.
fn span_towards(
    alloc: Global,
    sought: &SpanSought<'_>,
    row: u32,
    sides: &[SideChain],
    direction: Direction,
    turns: &mut RunTurns,
) -> Result<Option<SpanFound>, NoMemory>
    requires sought { IsSought sought.now }
    requires breaks { BreaksRow sought.now.drawn.now row }
    ensures found { IfOk result (λ found. IfSome found (IsSpanOf sought.now)) }
    ensures turns { AreTurnsOf turns.old turns.new }
{
    let goal = last_start(sought, direction);
    let mut at: Value = drawn_value();
    let mut far = sought.excess(step_of(direction), sides);
    for _turn in 0..GUIDED_ROUNDS {
        let Some(more) = far else {
            return Ok(None);
        };
        at = value_on(at, more, goal, direction);
        match try_value(alloc, sought, row, at, direction, turns)? {
            Tried::Span(span) => return Ok(Some(span)),
            Tried::On(next) => far = next,
            Tried::Nothing => return Ok(None),
        }
    }
    Ok(None)
}

// The last value in a direction that is guessed.
fn last_start(sought: &SpanSought<'_>, direction: Direction) -> Value
    requires sought { IsSought sought.now }
    ensures goal { IsStartGoal sought.now direction result.by }
{
    start_limit(limit_of(sought.reach, direction), direction)
}

// The span around a value, if every requirement passes there. As drawn a row breaks.
fn try_value(
    alloc: Global,
    sought: &SpanSought<'_>,
    row: u32,
    at: Value,
    direction: Direction,
    turns: &mut RunTurns,
) -> Result<Tried, NoMemory>
    requires sought { IsSought sought.now }
    requires breaks { BreaksRow sought.now.drawn.now row }
    requires at { IsWithinReach sought.now at.by }
    requires start { IsSpanStart at.by }
    ensures found { IfOk result (IsTriedValue sought.now) }
    ensures turns { AreTurnsOf turns.old turns.new }
{
    let probed = sought.probe_at(alloc, at, turns)?;
    match probed.found {
        NetFound::Passes => {
            let span = span_around(alloc, sought, at, &probed.sides, turns)?;
            Ok(Tried::Span(span))
        }
        NetFound::Breaks(_) => Ok(Tried::On(sought.excess(step_of(direction), &probed.sides))),
        NetFound::Inconsistent | NetFound::Open | NetFound::Spent => Ok(Tried::Nothing),
    }
}
