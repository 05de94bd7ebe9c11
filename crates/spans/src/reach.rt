//! How far numbers that move as one can be moved up and down.

ghost use Rattle.std.specs.Prelude.{◌≡◌, ◌<◌, ◌↔◌, ◌+ℤ◌, IfOk, IsTrue, length, pos};
ghost use Rattle.moves.specs.Step.{IsMoveBy, lent};
ghost use Rattle.spans.specs.Step.{CanShift, IsDrawnGap, IsLastDrawn, IsNarrower, IsOn, IsPast, IsShiftReach, IsSpanStart, limit_of, on_of};

use crate::direction::{
    Direction, Value, distance, drawn_value, farthest, is_same, last_before, next_of, value_on,
};
use drawn_networks::DrawnNetwork;
use drawn_numbers::DrawnNumber;
use itv_base::{END_LIMIT, NoMemory, Range, RowKind};
use moves::{any_draws, can_shift, cause_of, origins_of, part_of_target, read_drawn, read_rows};
use std::alloc::Global;

// Values with which a span is begun are no further from the drawn one, in picoseconds.
const START_LIMIT: i64 = 30_000_000_000_000;

/// How far numbers can be moved up: the least and the greatest value that can be drawn. With each value between them, and with no other, each range that the numbers
/// draw can be drawn. If no such range has an end, these are the farthest values.
#[derive(Clone, Copy)]
pub struct ShiftReach {
    pub least: Value,
    pub most: Value,
}

/// Two values in a direction: the one can be drawn, or is the drawn one, and the other one can't be drawn.
#[derive(Clone, Copy)]
pub struct DrawnGap {
    pub has: Value,
    pub lacks: Value,
}

/// The last value that can be drawn in a direction.
pub fn limit_of(reach: ShiftReach, direction: Direction) -> Value
    ensures limit { result ≡ limit_of direction reach }
{
    match direction {
        Direction::Down => reach.least,
        Direction::Up => reach.most,
    }
}

/// The last value in a direction with which a span may be begun.
pub fn start_limit(limit: Value, direction: Direction) -> Value
    requires on { IsOn direction (pos 0) limit.by }
    ensures before { IsOn direction (pos 0) result.by }
    ensures within { IsOn direction result.by limit.by }
    ensures start { IsSpanStart result.by }
{
    match direction {
        Direction::Down => Value {
            by: limit.by.max(-START_LIMIT),
        },
        Direction::Up => Value {
            by: limit.by.min(START_LIMIT),
        },
    }
}

/// How far some numbers can be moved up and down.
pub fn reach_of(
    alloc: Global,
    drawn: &DrawnNetwork,
    numbers: &[&DrawnNumber],
) -> Result<ShiftReach, NoMemory>
    ensures reach { IfOk result (IsShiftReach drawn.now (lent numbers.now)) }
{
    let guess = guessed_reach(drawn, numbers);
    let least = last_drawn(alloc, drawn, numbers, guess.least, Direction::Down)?;
    let most = last_drawn(alloc, drawn, numbers, guess.most, Direction::Up)?;
    Ok(ShiftReach { least, most })
}

// The last value that can be drawn in a direction. The guess is tried first, and then the next value.
fn last_drawn(
    alloc: Global,
    drawn: &DrawnNetwork,
    numbers: &[&DrawnNumber],
    guess: Value,
    direction: Direction,
) -> Result<Value, NoMemory>
    ensures { IfOk result (λ last. IsLastDrawn drawn.now (lent numbers.now) direction last.by) }
{
    read_drawn(drawn);
    read_rows(drawn);
    let end = farthest(direction);
    if can_be_drawn(alloc, drawn, numbers, end)? {
        return Ok(end);
    }
    let mut gap = DrawnGap {
        has: drawn_value(),
        lacks: end,
    };
    let mut round: u32 = 0;
    while !is_same(next_of(gap.has, direction), gap.lacks) {
        let at = tried_in(gap, round, guess, direction);
        gap = narrower(alloc, drawn, numbers, gap, at, direction)?;
        round = round.saturating_add(1);
    }
    Ok(gap.has)
}

// The next value between those of a gap that is tried: the guess, the next one, and then the middle.
fn tried_in(gap: DrawnGap, round: u32, guess: Value, direction: Direction) -> Value
    requires has { IsMoveBy gap.has.by }
    requires lacks { IsMoveBy gap.lacks.by }
    requires apart { IsPast direction (gap.has.by +ℤ on_of direction) gap.lacks.by }
    ensures above { IsPast direction gap.has.by result.by }
    ensures below { IsPast direction result.by gap.lacks.by }
    ensures by { IsMoveBy result.by }
{
    let first = next_of(gap.has, direction);
    let last = last_before(gap.lacks, direction);
    let far = match round {
        0 => distance(first, guess),
        1 => 0,
        _ => distance(first, last) / 2,
    };
    value_on(first, far, last, direction)
}

// The gap with a value between those of a gap in place of one of them.
fn narrower(
    alloc: Global,
    drawn: &DrawnNetwork,
    numbers: &[&DrawnNumber],
    gap: DrawnGap,
    at: Value,
    direction: Direction,
) -> Result<DrawnGap, NoMemory>
    requires gap { IsDrawnGap drawn.now (lent numbers.now) direction gap }
    requires above { IsPast direction gap.has.by at.by }
    requires below { IsPast direction at.by gap.lacks.by }
    requires by { IsMoveBy at.by }
    ensures gap { IfOk result (IsDrawnGap drawn.now (lent numbers.now) direction) }
    ensures narrower { IfOk result (IsNarrower direction gap) }
{
    if can_be_drawn(alloc, drawn, numbers, at)? {
        Ok(DrawnGap {
            has: at,
            lacks: gap.lacks,
        })
    } else {
        Ok(DrawnGap {
            has: gap.has,
            lacks: at,
        })
    }
}

// Whether a value can be drawn.
fn can_be_drawn(
    alloc: Global,
    drawn: &DrawnNetwork,
    numbers: &[&DrawnNumber],
    at: Value,
) -> Result<bool, NoMemory>
    requires by { IsMoveBy at.by }
    ensures can { IfOk result (λ can. IsTrue can ↔ CanShift drawn.now (lent numbers.now) at.by) }
{
    can_shift(alloc, drawn, numbers, at.by)
}

// ---- the guess

// How far some numbers can be moved up and down, according to the ends of their ranges: a guess, which is tried.
fn guessed_reach(drawn: &DrawnNetwork, numbers: &[&DrawnNumber]) -> ShiftReach {
    let mut reach = ShiftReach {
        least: farthest(Direction::Down),
        most: farthest(Direction::Up),
    };
    for constraint in 0..drawn.network().len() {
        reach = guess_at(drawn, numbers, constraint, reach);
    }
    for number in 0..drawn.rows().len() {
        let row = drawn.rows().get(number);
        if any_draws(numbers, drawn.name(row.from).part, row.origin) {
            reach = guess_by_kind(row.kind, reach);
        }
    }
    reach
}

// The guess with the ranges of a constraint more.
fn guess_at(
    drawn: &DrawnNetwork,
    numbers: &[&DrawnNumber],
    constraint: u32,
    reach: ShiftReach,
) -> ShiftReach
    requires { constraint < length drawn.now.net.constraints }
{
    let part = part_of_target(drawn, constraint);
    let origins = origins_of(drawn, constraint);
    let mut reach = reach;
    for k in 0..origins.len() {
        let cause = cause_of(drawn, constraint, k as u32);
        if any_draws(numbers, part, origins[k]) {
            reach = guess_within(cause.range, reach);
        }
    }
    reach
}

// The guess with the range of a requirement more.
fn guess_by_kind(kind: RowKind, reach: ShiftReach) -> ShiftReach {
    match kind {
        RowKind::Ask => reach,
        RowKind::Req(range) => guess_within(range, reach),
    }
}

// The guess with one range more.
fn guess_within(range: Range, reach: ShiftReach) -> ShiftReach {
    let lowest = range.low().unwrap_or(range.high().unwrap_or(0));
    let highest = range.high().unwrap_or(range.low().unwrap_or(0));
    ShiftReach {
        least: Value {
            by: reach.least.by.max(i64::saturating_sub(-END_LIMIT, lowest)),
        },
        most: Value {
            by: reach.most.by.min(END_LIMIT.saturating_sub(highest)),
        },
    }
}
