//! Marks that rules join, and periods that are tried. Nothing is promised of them: what is found with them is looked at.

ghost use Rattle.std.specs.Prelude.{◌≡◌, IfOk, length};

use itv_base::NoMemory;
use sheet::Rule;
use std::alloc::Global;

/// For each mark an earlier mark, or itself, of the marks that rules join it with.
pub fn leaders_of(alloc: Global, marks: u32, rules: &[Rule]) -> Result<Vec<u32>, NoMemory> {
    let mut leaders = Vec::new(alloc);
    for mark in 0..marks {
        leaders.push(mark)?;
    }
    for rule in rules {
        join_causes(&mut leaders, rule);
    }
    Ok(leaders)
}

fn join_causes(leaders: &mut [u32], rule: &Rule) {
    for source in rule.causes().as_slice() {
        join(leaders, source.mark, rule.target());
    }
}

// Joins the groups of two marks.
fn join(leaders: &mut [u32], first: u32, other: u32) {
    let one = leader_of(leaders, first);
    let two = leader_of(leaders, other);
    let least = one.min(two);
    lead(leaders, one, least);
    lead(leaders, two, least);
    lead(leaders, first, least);
    lead(leaders, other, least);
}

fn lead(leaders: &mut [u32], mark: u32, leader: u32) {
    if let Some(at) = leaders.get_mut(mark as usize) {
        *at = leader;
    }
}

// The first mark of the group of a mark.
fn leader_of(leaders: &[u32], mark: u32) -> u32 {
    let mut at = mark;
    loop {
        match leaders.get(at as usize) {
            Some(next) if *next < at => at = *next,
            _ => return at,
        }
    }
}

/// The period of each mark in the times of a run: how much later the first mark of its group comes in the last cycle than `back` cycles before, on
/// average.
pub fn steps_of(
    alloc: Global,
    leaders: &[u32],
    times: &[i64],
    marks: u32,
    cycles: u32,
    back: u32,
) -> Result<Vec<i64>, NoMemory> {
    let last = cycles.saturating_sub(1);
    let first = last.saturating_sub(back);
    let mut each = Vec::new(alloc);
    for mark in 0..marks {
        let leader = leader_of(leaders, mark);
        let from = time_in(times, marks, first, leader);
        let to = time_in(times, marks, last, leader);
        each.push(mean_of(from, to, last - first))?;
    }
    Ok(each)
}

// The time of a mark in a cycle, and 0 if there is none.
fn time_in(times: &[i64], marks: u32, cycle: u32, mark: u32) -> i64 {
    let place = (marks as usize)
        .wrapping_mul(cycle as usize)
        .wrapping_add(mark as usize);
    match times.get(place) {
        None => 0,
        Some(time) => *time,
    }
}

// The difference of two times, shared by so many cycles.
fn mean_of(from: i64, to: i64, cycles: u32) -> i64 {
    to.wrapping_sub(from)
        .checked_div(i64::from(cycles))
        .unwrap_or(0)
}
