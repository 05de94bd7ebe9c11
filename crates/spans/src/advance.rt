//! Going on from value to value by frames.

ghost use Rattle.std.specs.Prelude.{IfOk};
ghost use Rattle.extremes.specs.Ready.{AreTurnsOf};
ghost use Rattle.spans.specs.Step.{IsAdvance, IsOn, IsPast, IsWithinReach, IsSought, IsStretched};

use crate::direction::{Direction, Value, between, distance, is_same, next_of, value_on};
use crate::sought::{SpanAim, SpanSought, ValueFound};
use extremes::RunTurns;
use itv_base::NoMemory;
use moves::NetFound;
use std::alloc::Global;

// How often an interval is halved before the next value is taken by itself.
const MOST_HALVINGS: u32 = 64;

/// How far values were shown.
#[derive(Clone, Copy)]
pub enum Advance {
    /// Each value up to the goal was shown.
    Reached,
    /// The goal was not reached.
    Shortfall(Shortfall),
}

/// Where values that are shown end before a goal.
#[derive(Clone, Copy)]
pub enum Shortfall {
    /// Each value up to this one was shown, and of the next one this was found instead.
    Stops { last: Value, found: NetFound },
    /// As many intervals were shown as the budget says, up to this value.
    Spent(Value),
    /// A search was left open.
    Left,
}

/// The last value that was shown, and how many values an interval is tried with next.
#[derive(Clone, Copy)]
pub struct ShownStretch {
    pub done: Value,
    pub size: i64,
}

/// The result of one more interval.
#[derive(Clone, Copy)]
pub enum Stretched {
    /// Each value up to the value of this stretch was shown.
    On(ShownStretch),
    /// Of the next value this was found instead.
    Stops(NetFound),
    /// A search was left open.
    Left,
}

/// Shows each value past one up to a goal, in a direction, interval after interval: an interval with half as many values where a frame does not show it, and with
/// twice as many where it does. Each interval that is shown is one turn, and there are as many turns as the budget has cases.
pub fn show_to(
    alloc: Global,
    sought: &SpanSought<'_>,
    aim: SpanAim,
    from: Value,
    goal: Value,
    direction: Direction,
    turns: &mut RunTurns,
) -> Result<Advance, NoMemory>
    requires sought { IsSought sought.now }
    requires from { IsWithinReach sought.now from.by }
    requires goal { IsWithinReach sought.now goal.by }
    requires ahead { IsOn direction from.by goal.by }
    ensures advance { IfOk result (IsAdvance sought.now aim direction from.by goal.by) }
    ensures turns { AreTurnsOf turns.old turns.new }
{
    let mut stretch = ShownStretch {
        done: from,
        size: distance(from, goal),
    };
    for _turn in 0..sought.budget {
        if is_same(stretch.done, goal) {
            return Ok(Advance::Reached);
        }
        match stretch_on(alloc, sought, aim, stretch, goal, direction, turns)? {
            Stretched::On(next) => stretch = next,
            Stretched::Stops(found) => {
                let last = stretch.done;
                return Ok(Advance::Shortfall(Shortfall::Stops { last, found }));
            }
            Stretched::Left => return Ok(Advance::Shortfall(Shortfall::Left)),
        }
    }
    if is_same(stretch.done, goal) {
        return Ok(Advance::Reached);
    }
    Ok(Advance::Shortfall(Shortfall::Spent(stretch.done)))
}

// One more interval. Where none of several values is shown, the next value is looked at by itself.
fn stretch_on(
    alloc: Global,
    sought: &SpanSought<'_>,
    aim: SpanAim,
    stretch: ShownStretch,
    goal: Value,
    direction: Direction,
    turns: &mut RunTurns,
) -> Result<Stretched, NoMemory>
    requires sought { IsSought sought.now }
    requires done { IsWithinReach sought.now stretch.done.by }
    requires goal { IsWithinReach sought.now goal.by }
    requires past { IsPast direction stretch.done.by goal.by }
    ensures found { IfOk result (IsStretched sought.now aim direction stretch.done.by goal.by) }
    ensures turns { AreTurnsOf turns.old turns.new }
{
    let first = next_of(stretch.done, direction);
    let mut more = stretch.size.saturating_sub(1).min(distance(first, goal));
    for _halving in 0..MOST_HALVINGS {
        if more < 1 {
            return one_more(alloc, sought, aim, stretch.done, goal, direction, turns);
        }
        let end = value_on(first, more, goal, direction);
        if sought.is_shown(alloc, aim, between(stretch.done, end, direction), turns)? {
            return Ok(Stretched::On(ShownStretch {
                done: end,
                size: more.saturating_add(1).saturating_mul(2),
            }));
        }
        more /= 2;
    }
    one_more(alloc, sought, aim, stretch.done, goal, direction, turns)
}

// The next value by itself.
fn one_more(
    alloc: Global,
    sought: &SpanSought<'_>,
    aim: SpanAim,
    done: Value,
    goal: Value,
    direction: Direction,
    turns: &mut RunTurns,
) -> Result<Stretched, NoMemory>
    requires sought { IsSought sought.now }
    requires done { IsWithinReach sought.now done.by }
    requires goal { IsWithinReach sought.now goal.by }
    requires past { IsPast direction done.by goal.by }
    ensures found { IfOk result (IsStretched sought.now aim direction done.by goal.by) }
    ensures turns { AreTurnsOf turns.old turns.new }
{
    let next = next_of(done, direction);
    match sought.value_at(alloc, aim, next, turns)? {
        ValueFound::Shown => Ok(Stretched::On(ShownStretch {
            done: next,
            size: 2,
        })),
        ValueFound::Stops(found) => Ok(Stretched::Stops(found)),
        ValueFound::Left => Ok(Stretched::Left),
    }
}
