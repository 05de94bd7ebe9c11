//! Borders of a span.

ghost use Rattle.std.specs.Prelude.{◌≡◌, IfSome};
ghost use Rattle.moves.specs.Step.{IsMoveBy};
ghost use Rattle.spans.specs.Step.{last_of, margin_of, outward};

use crate::direction::Direction;
use moves::Margin;

/// The last value of a span on one side, in picoseconds counted from the drawn value, and what stands beyond it.
#[derive(Clone, Copy)]
pub enum Border {
    /// There is no last value.
    Endless,
    /// With the next value the row with this number breaks.
    Breaks { by: i64, row: u32 },
    /// With the next value the rules contradict each other.
    Contradicts(i64),
    /// The next value can't be drawn: an end would be beyond the limit.
    Limit(i64),
    /// As many values were shown as the budget says, and of the next one nothing is known.
    Spent(i64),
    /// A search was left open.
    Left(i64),
}

/// How far a border in a direction is from the drawn value.
pub fn margin_of(border: Border, direction: Direction) -> Margin
    requires by { IfSome (last_of border) IsMoveBy }
    ensures margin { result ≡ margin_of direction border }
{
    match border {
        Border::Endless => Margin::Free,
        Border::Breaks { by, row } => Margin::Until {
            by: outward(by, direction),
            row,
        },
        Border::Contradicts(by) => Margin::UntilContradiction {
            by: outward(by, direction),
        },
        Border::Limit(_) => Margin::Limit,
        Border::Spent(_) | Border::Left(_) => Margin::Spent,
    }
}

// How far a value is from the drawn one in a direction.
fn outward(by: i64, direction: Direction) -> i64
    requires by { IsMoveBy by }
    ensures outward { result ≡ outward direction by }
{
    match direction {
        Direction::Down => -by,
        Direction::Up => by,
    }
}
