//! Values near the drawn one, of a design that fails as drawn.

ghost use Rattle.std.specs.Prelude.{◌≤ℤ◌, ℤ, IfOk, pos};
ghost use Rattle.extremes.specs.Ready.{AreTurnsOf};
ghost use Rattle.spans.specs.Step.{IsNearGoal, IsNearFound, IsOn, IsWithinReach, IsSought, IsSpanStart, outward};

use crate::advance::{Advance, Shortfall, show_to};
use crate::direction::{Direction, Value, drawn_value, next_of};
use crate::reach::limit_of;
use crate::sought::{SpanAim, SpanSought};
use extremes::RunTurns;
use itv_base::NoMemory;
use std::alloc::Global;

/// What is found of the values near the drawn one, in a direction: those that are no more picoseconds from it than the budget has cases, and can be drawn.
#[derive(Clone, Copy)]
pub enum Nearby {
    /// With none of them every requirement passes.
    Fails,
    /// With this one every requirement passes.
    Passes(Value),
    /// A search was left open.
    Left,
}

/// Looks for a value near the drawn one, in a direction, with which every requirement passes.
pub fn near_in(
    alloc: Global,
    sought: &SpanSought<'_>,
    direction: Direction,
    turns: &mut RunTurns,
) -> Result<Nearby, NoMemory>
    requires sought { IsSought sought.now }
    ensures nearby { IfOk result (IsNearFound sought.now direction) }
    ensures turns { AreTurnsOf turns.old turns.new }
{
    let goal = near_goal(sought, direction);
    match show_to(
        alloc,
        sought,
        SpanAim::Failing,
        drawn_value(),
        goal,
        direction,
        turns,
    )? {
        Advance::Reached => Ok(Nearby::Fails),
        Advance::Shortfall(Shortfall::Spent(_)) => Ok(Nearby::Fails),
        Advance::Shortfall(Shortfall::Stops { last, .. }) => Ok(Nearby::Passes(next_of(
            last, direction,
        ))),
        Advance::Shortfall(Shortfall::Left) => Ok(Nearby::Left),
    }
}

// The last value that is looked at.
fn near_goal(sought: &SpanSought<'_>, direction: Direction) -> Value
    requires sought { IsSought sought.now }
    ensures on { IsOn direction (pos 0) result.by }
    ensures reached { IsWithinReach sought.now result.by }
    ensures start { IsSpanStart result.by }
    ensures near { IsNearGoal sought.now direction result.by }
{
    let limit = limit_of(sought.reach, direction);
    within(limit, sought.budget as i64, direction)
}

// A value, or the one that is this far from the drawn one in its direction, if it is further.
fn within(limit: Value, far: i64, direction: Direction) -> Value
    requires on { IsOn direction (pos 0) limit.by }
    requires least { pos 0 ≤ℤ far }
    requires most { far ≤ℤ pos 1000000000 }
    ensures before { IsOn direction (pos 0) result.by }
    ensures within { IsOn direction result.by limit.by }
    ensures start { IsSpanStart result.by }
    ensures near { (value : ℤ) → outward direction value ≤ℤ far → IsOn direction value limit.by → IsOn direction value result.by }
{
    match direction {
        Direction::Down => Value {
            by: limit.by.max(-far),
        },
        Direction::Up => Value {
            by: limit.by.min(far),
        },
    }
}
