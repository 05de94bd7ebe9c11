//! Directions of values.

ghost use Rattle.std.specs.Prelude.{◌≡◌, ◌↔◌, ◌+ℤ◌, ℤ, IsTrue, pos};
ghost use Rattle.moves.specs.Step.{IsMoveBy};
ghost use Rattle.spans.specs.Step.{IsInside, IsInterval, IsOn, IsPast, IsValue, farthest, on_of};

use crate::interval::Interval;
use moves::MOVE_LIMIT;
use probing::Step;

/// A direction of values.
#[derive(Clone, Copy)]
pub enum Direction {
    Down,
    Up,
}

/// The step of a direction.
pub fn step_of(direction: Direction) -> Step {
    match direction {
        Direction::Down => Step::Down,
        Direction::Up => Step::Up,
    }
}

/// A value of numbers that move as one: by how many picoseconds they are moved up.
#[derive(Clone, Copy)]
pub struct Value {
    pub by: i64,
}

/// The drawn value.
pub fn drawn_value() -> Value
    ensures { result.by ≡ pos 0 }
{
    Value { by: 0 }
}

/// Whether two values are one.
pub fn is_same(one: Value, other: Value) -> bool
    ensures { IsTrue result ↔ (one.by ≡ other.by) }
{
    one.by == other.by
}

/// The next value in a direction.
pub fn next_of(value: Value, direction: Direction) -> Value
    requires { IsMoveBy value.by }
    ensures next { result.by ≡ value.by +ℤ on_of direction }
    ensures value { IsValue result.by }
{
    match direction {
        Direction::Down => Value { by: value.by - 1 },
        Direction::Up => Value { by: value.by + 1 },
    }
}

/// The value before one in a direction.
pub fn last_before(value: Value, direction: Direction) -> Value
    requires { IsMoveBy value.by }
    ensures next { value.by ≡ result.by +ℤ on_of direction }
    ensures value { IsValue result.by }
{
    match direction {
        Direction::Down => Value { by: value.by + 1 },
        Direction::Up => Value { by: value.by - 1 },
    }
}

/// The value this far on in a direction, and no further than a goal.
pub fn value_on(from: Value, far: i64, goal: Value, direction: Direction) -> Value
    requires from { IsMoveBy from.by }
    requires goal { IsMoveBy goal.by }
    requires on { IsOn direction from.by goal.by }
    ensures before { IsOn direction from.by result.by }
    ensures within { IsOn direction result.by goal.by }
    ensures by { IsMoveBy result.by }
{
    match direction {
        Direction::Down => Value {
            by: from.by.saturating_sub(far).clamp(goal.by, from.by),
        },
        Direction::Up => Value {
            by: from.by.saturating_add(far).clamp(from.by, goal.by),
        },
    }
}

/// The farthest value by which numbers may be moved in a direction.
pub fn farthest(direction: Direction) -> Value
    ensures farthest { result.by ≡ farthest direction }
    ensures by { IsMoveBy result.by }
{
    match direction {
        Direction::Down => Value { by: -MOVE_LIMIT },
        Direction::Up => Value { by: MOVE_LIMIT },
    }
}

/// The values after one up to another one, in a direction.
pub fn between(from: Value, to: Value, direction: Direction) -> Interval
    requires from { IsMoveBy from.by }
    requires to { IsMoveBy to.by }
    ensures interval { IsInterval result }
    ensures each { (value : ℤ) → IsPast direction from.by value → IsOn direction value to.by → IsInside result value }
{
    let first = next_of(from, direction);
    match direction {
        Direction::Down => Interval {
            least: Some(to.by),
            most: Some(first.by),
        },
        Direction::Up => Interval {
            least: Some(first.by),
            most: Some(to.by),
        },
    }
}

/// All values after one, in a direction.
pub fn beyond(from: Value, direction: Direction) -> Interval
    requires { IsMoveBy from.by }
    ensures interval { IsInterval result }
    ensures each { (value : ℤ) → IsPast direction from.by value → IsInside result value }
{
    let first = next_of(from, direction);
    match direction {
        Direction::Down => Interval {
            least: None,
            most: Some(first.by),
        },
        Direction::Up => Interval {
            least: Some(first.by),
            most: None,
        },
    }
}

/// How far two values are apart. No contract says so: from it are guessed the next value, and how many values the first frame has.
pub fn distance(from: Value, to: Value) -> i64 {
    from.by
        .saturating_sub(to.by)
        .max(to.by.saturating_sub(from.by))
}
