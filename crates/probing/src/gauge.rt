//! How far a move may go, according to the edges behind the bounds: guesses, of which no contract says that they are good ones.

use crate::drawing::{draw_edge, draw_row};
use crate::probed::SideChain;
use drawn_networks::DrawnNetwork;
use drawn_numbers::DrawnNumber;
use itv_base::Side;

/// A direction in which numbers are moved.
#[derive(Clone, Copy)]
pub enum Step {
    /// One end goes outward.
    Widen(Side),
    /// One end goes inward.
    Narrow(Side),
    /// Both ends go up.
    Up,
    /// Both ends go down.
    Down,
}

/// How far some numbers may be moved before the edges behind one of the bounds bring times past the end of a requirement. It is `None` if no
/// such bound grows.
pub fn room(
    drawn: &DrawnNetwork,
    numbers: &[&DrawnNumber],
    step: Step,
    sides: &[SideChain],
) -> Option<i64> {
    let mut least = None;
    for side in sides {
        let grows = growth(drawn, numbers, step, side);
        if let Some(gap) = gap_of(side.slack, grows) {
            least = lesser(least, gap);
        }
    }
    least
}

// How far a bound may grow that is within its end; none where it is past its end or does not grow.
fn gap_of(slack: i64, grows: i64) -> Option<i64> {
    if slack < 0 || grows <= 0 {
        return None;
    }
    slack.checked_div(grows)
}

// The lesser of two numbers, one of which may be missing.
fn lesser(least: Option<i64>, other: i64) -> Option<i64> {
    match least {
        Some(value) if value <= other => Some(value),
        _ => Some(other),
    }
}

/// How far some numbers have to be moved for times that break a requirement to come back to its end, according to the edges behind the bound. It is `None`
/// if the bound does not fall.
pub fn excess(
    drawn: &DrawnNetwork,
    numbers: &[&DrawnNumber],
    step: Step,
    sides: &[SideChain],
) -> Option<i64> {
    let mut most = None;
    for side in sides {
        if side.slack < 0 {
            let grows = growth(drawn, numbers, step, side);
            most = share(side.slack, grows);
        }
    }
    most
}

// The least number that is no less than the quotient of two negative numbers; none where one of them is not negative.
fn share(slack: i64, grows: i64) -> Option<i64> {
    if 0 <= slack || 0 <= grows {
        return None;
    }
    let whole = slack.saturating_add(1).checked_div(grows)?;
    Some(whole.saturating_add(1))
}

// By how much the separation behind a bound grows for each picosecond of a move, less what the end of the requirement gives.
fn growth(drawn: &DrawnNetwork, numbers: &[&DrawnNumber], step: Step, side: &SideChain) -> i64 {
    let mut sum: i64 = 0;
    if draw_row(drawn, numbers, side.row) {
        sum = row_growth(step, side.is_high);
    }
    for name in side.names.as_slice() {
        if draw_edge(drawn, numbers, *name) {
            sum = sum.saturating_add(edge_growth(step, name.side));
        }
    }
    sum
}

// What the end of a requirement that is moved takes.
fn row_growth(step: Step, is_high: bool) -> i64 {
    match step {
        Step::Widen(_) | Step::Narrow(_) => 0,
        Step::Up => { if is_high { -1 } else { 1 } }
        Step::Down => { if is_high { 1 } else { -1 } }
    }
}

// The growth of the weight of an edge on a side of a range that is moved.
fn edge_growth(step: Step, side: Side) -> i64 {
    match step {
        Step::Widen(moved) => { if moved == side { 1 } else { 0 } }
        Step::Narrow(moved) => { if moved == side { -1 } else { 0 } }
        Step::Up => upward(side),
        Step::Down => downward(side),
    }
}

// The growth of the weight of an edge where its range goes up by one.
fn upward(side: Side) -> i64 {
    match side {
        Side::Lower => -1,
        Side::Upper => 1,
    }
}

// The growth of the weight of an edge where its range goes down by one.
fn downward(side: Side) -> i64 {
    match side {
        Side::Lower => 1,
        Side::Upper => -1,
    }
}
