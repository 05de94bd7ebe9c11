//! How far an end can be moved.

ghost use Rattle.std.specs.Prelude.{◌≡◌, ◌<◌, ◌∷◌, [], neg_ℤ, ◌+ℤ◌, ◌-ℤ◌, Some, length, unwrap_or};
ghost use Rattle.itv_base.specs.Range.{IsEnd};
ghost use Rattle.itv_base.specs.declared.limits.TheConstants.{END_LIMIT};
ghost use Rattle.drawn_numbers.specs.Numbers.{origins_of, part_of_target};
ghost use Rattle.moves.specs.Moving.{any_draws};
ghost use Rattle.moves.specs.Step.{causes_at};
ghost use Rattle.margins.specs.Reaching.{IsReachOf, reach_over, reach_with, reach_within};

use drawn_networks::DrawnNetwork;
use drawn_numbers::DrawnNumber;
use itv_base::{END_LIMIT, Range, Side};
use moves::{MOVE_LIMIT, any_draws, cause_of, origins_of, part_of_target, read_drawn};

/// How far an end can be moved outward, in picoseconds: at least and at most.
#[derive(Clone, Copy)]
pub struct Reach {
    pub least: i64,
    pub most: i64,
}

/// How far an end of a number can be moved: with these moves and those between them, and with no others, each range that the number draws can be drawn. If no
/// range that it draws has an end on this side, a move changes nothing, and the reach is that of all moves.
pub fn reach_of(drawn: &DrawnNetwork, number: &DrawnNumber, side: Side) -> Reach
    ensures reach { IsReachOf drawn.now number.now side result }
{
    read_drawn(drawn);
    let mut reach = Reach {
        least: -MOVE_LIMIT,
        most: MOVE_LIMIT,
    };
    for constraint in 0..drawn.network().len() {
        reach = reach_over(drawn, number, side, constraint, reach);
    }
    reach
}

// The reach with the causes of one constraint more.
fn reach_over(
    drawn: &DrawnNetwork,
    number: &DrawnNumber,
    side: Side,
    constraint: u32,
    reach: Reach,
) -> Reach
    requires there { constraint < length drawn.now.net.constraints }
    ensures reach { result ≡ reach_over side (any_draws (number.now ∷ []) (part_of_target drawn.now constraint)) reach (causes_at drawn.now.net constraint)
        (origins_of drawn.now constraint) }
{
    let part = part_of_target(drawn, constraint);
    let origins = origins_of(drawn, constraint);
    let mut reach = reach;
    for k in 0..origins.len() {
        let cause = cause_of(drawn, constraint, k as u32);
        reach = reach_within(
            cause.range,
            any_draws(&[number], part, origins[k]),
            side,
            reach,
        );
    }
    reach
}

// The reach with one range more, if it is drawn.
fn reach_within(range: Range, is_drawn: bool, side: Side, reach: Reach) -> Reach
    ensures { result ≡ reach_within side is_drawn reach range }
{
    if !is_drawn {
        return reach;
    }
    match side {
        Side::Lower => match range.low() {
            None => reach,
            Some(low) => lower_reach(low, range.high(), reach),
        },
        Side::Upper => match range.high() {
            None => reach,
            Some(high) => upper_reach(range.low(), high, reach),
        },
    }
}

// The reach with a low end more.
fn lower_reach(low: i64, high: Option<i64>, reach: Reach) -> Reach
    requires low { IsEnd (Some low) }
    requires high { IsEnd high }
    ensures { result ≡ reach_with reach (low -ℤ unwrap_or high END_LIMIT) (low +ℤ END_LIMIT) }
{
    let least = difference(low, end_or(high, END_LIMIT));
    let most = sum(low, END_LIMIT);
    reach_with(reach, least, most)
}

// The reach with a high end more.
fn upper_reach(low: Option<i64>, high: i64, reach: Reach) -> Reach
    requires low { IsEnd low }
    requires high { IsEnd (Some high) }
    ensures { result ≡ reach_with reach (unwrap_or low (neg_ℤ END_LIMIT) -ℤ high) (END_LIMIT -ℤ high) }
{
    let least = difference(end_or(low, -END_LIMIT), high);
    let most = difference(END_LIMIT, high);
    reach_with(reach, least, most)
}

// An end, or another one where it is open.
fn end_or(end: Option<i64>, other: i64) -> i64
    requires end { IsEnd end }
    requires other { IsEnd (Some other) }
    ensures value { result ≡ unwrap_or end other }
    ensures within { IsEnd (Some result) }
{
    match end {
        Some(value) => value,
        None => other,
    }
}

// The difference of two ends.
fn difference(a: i64, b: i64) -> i64
    requires a { IsEnd (Some a) }
    requires b { IsEnd (Some b) }
    ensures { result ≡ a -ℤ b }
{
    a - b
}

// The sum of two ends.
fn sum(a: i64, b: i64) -> i64
    requires a { IsEnd (Some a) }
    requires b { IsEnd (Some b) }
    ensures { result ≡ a +ℤ b }
{
    a + b
}

// The reach within two numbers.
fn reach_with(reach: Reach, least: i64, most: i64) -> Reach
    ensures { result ≡ reach_with reach least most }
{
    Reach {
        least: reach.least.max(least),
        most: reach.most.min(most),
    }
}
