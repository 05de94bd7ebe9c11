//! How many values each event counts from: a guess, which decides what a cover shows.

ghost use Rattle.std.specs.Prelude.{◌≡◌, ◌<◌, IfOk, length, vec_len};
ghost use Rattle.spans.specs.Step.{AreEventCounts, IsCount};

use drawn_networks::DrawnNetwork;
use drawn_numbers::DrawnNumber;
use itv_base::{EventId, NoMemory, Range};
use moves::{any_draws, cause_of, origins_of, part_of_target, target_of};
use std::alloc::Global;

// Counts are no greater, in absolute value.
const MOST_COUNTS: i64 = 16_384;

// Widths of ranges are less than two to this power.
const WIDTH_BITS: u32 = 45;

/// The groups of events whose counts are settled against each other.
#[derive(Drop)]
struct Groups {
    group: Vec<u32>,
    count: Vec<i64>,
    ghost same: { vec_len count ≡ vec_len group },
}

/// How many values each event counts from: along the causes that the numbers draw one more with each, and along the narrowest other ranges as many.
pub fn counts_of(
    alloc: Global,
    drawn: &DrawnNetwork,
    numbers: &[&DrawnNumber],
) -> Result<Vec<i64>, NoMemory>
    ensures counts { IfOk result (λ counts. AreEventCounts drawn.now.net counts.items) }
{
    let mut groups = groups_of(alloc, drawn.network().events())?;
    join_along(drawn, numbers, true, None, &mut groups);
    for bits in 0..WIDTH_BITS {
        join_along(drawn, numbers, false, Some(1 << bits), &mut groups);
    }
    join_along(drawn, numbers, false, None, &mut groups);
    counts_within(alloc, &groups.count, drawn)
}

// The counts within their limits.
fn counts_within(alloc: Global, found: &[i64], drawn: &DrawnNetwork) -> Result<Vec<i64>, NoMemory>
    ensures counts { IfOk result (λ counts. AreEventCounts drawn.now.net counts.items) }
{
    let mut counts = Vec::new(alloc);
    for event in 0..drawn.network().events() {
        let count = match found.get(event as usize) {
            None => 0,
            Some(count) => *count,
        };
        counts.push(within(count))?;
    }
    Ok(counts)
}

// A count within its limits.
fn within(count: i64) -> i64
    ensures { IsCount result }
{
    count.clamp(-MOST_COUNTS, MOST_COUNTS)
}

/// No event counts from any value.
pub fn no_counts(alloc: Global, drawn: &DrawnNetwork) -> Result<Vec<i64>, NoMemory>
    ensures counts { IfOk result (λ counts. AreEventCounts drawn.now.net counts.items) }
{
    counts_within(alloc, &[], drawn)
}

// Each event by itself.
fn groups_of(alloc: Global, events: u32) -> Result<Groups, NoMemory> {
    let mut group = Vec::new(alloc);
    let mut count = Vec::new(alloc);
    for event in 0..events {
        group.push(event)?;
        count.push(0)?;
    }
    Ok(Groups { group, count })
}

// Joins the groups of the events of those causes that the numbers draw, or of the others whose ranges are less wide than this.
fn join_along(
    drawn: &DrawnNetwork,
    numbers: &[&DrawnNumber],
    is_moved: bool,
    width: Option<i64>,
    groups: &mut Groups,
) {
    for constraint in 0..drawn.network().len() {
        join_at(drawn, numbers, constraint, is_moved, width, groups);
    }
}

// Joins the groups along the causes of a constraint.
fn join_at(
    drawn: &DrawnNetwork,
    numbers: &[&DrawnNumber],
    constraint: u32,
    is_moved: bool,
    width: Option<i64>,
    groups: &mut Groups,
)
    requires { constraint < length drawn.now.net.constraints }
{
    let target = target_of(drawn, constraint);
    let part = part_of_target(drawn, constraint);
    let origins = origins_of(drawn, constraint);
    for k in 0..origins.len() {
        let cause = cause_of(drawn, constraint, k as u32);
        if any_draws(numbers, part, origins[k]) == is_moved && is_within(cause.range, width) {
            groups.join(cause.event, target, if is_moved { 1 } else { 0 });
        }
    }
}

// Whether a range is less wide than this; without a number each one is.
fn is_within(range: Range, width: Option<i64>) -> bool {
    let Some(width) = width else {
        return true;
    };
    match (range.low(), range.high()) {
        (Some(low), Some(high)) => high.saturating_sub(low) < width,
        _ => false,
    }
}

impl Groups {
    // Joins the groups of two events, where they are not one: the second one counts so many values more.
    fn join(&mut self, from: EventId, to: EventId, more: i64) {
        let from = from.0 as usize;
        let to = to.0 as usize;
        if self.group.len() <= from || self.group.len() <= to {
            return;
        }
        let left = self.group[to];
        let joined = self.group[from];
        if left == joined {
            return;
        }
        let add = self.count[from]
            .saturating_add(more)
            .saturating_sub(self.count[to]);
        for event in 0..self.group.len() {
            if self.group[event] == left {
                self.group[event] = joined;
                self.count[event] = self.count[event].saturating_add(add);
            }
        }
    }
}
