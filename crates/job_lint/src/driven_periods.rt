//! Warnings of marks that follow a clock, where a search decides. No definition describes which of them are left out: nobody relies on it as true, so
//! tests try it.

ghost use Rattle.std.specs.Prelude.{◌≡◌, ◌<◌, ◌≤◌, IfOk};
ghost use Rattle.extremes.specs.Ready.{IsReady};
ghost use Rattle.itv_base.specs.declared.limits.TheConstants.{MAX_BUDGET};

use crate::parts::{mark_name, part_word};
use crate::turns::run_turns;
use compose::{Design, DesignMark};
use drawn_networks::{DrawnNetwork, Row};
use event_graph::{Network, PushFault};
use explanations::RowFound;
use extremes::Extremes;
use itv_base::{EventId, MAX_CONSTRAINTS, NoMemory};
use lint::{About, DrawnPlace, Period, Warning, WarningWord, period_followed};
use requirements::{Bound, Consistency};
use std::alloc::Global;

// The most marks whose periods are tried. The warnings of further marks stay.
const MOST_TRIED: u32 = 16;

/// The warnings without those of marks that follow a clock and would change no bound of a row if the period of the clock were drawn at them. What is found
/// of each row is given. The answer is `NoMemory` if memory runs out.
pub fn without_idle(
    alloc: Global,
    warnings: &[Warning],
    found: &[RowFound],
    drawn: &DrawnNetwork,
    design: &Design<'_>,
    budget: u64,
) -> Result<Vec<Warning>, NoMemory>
    requires least { 1 ≤ budget }
    requires most { budget ≤ MAX_BUDGET }
{
    let mut heard = Vec::new(alloc);
    let mut tried = 0u32;
    for warning in warnings {
        if let Some((mark, by)) = followed(warning) {
            if tried < MOST_TRIED {
                tried += 1;
                if is_idle(alloc, mark, by, found, drawn, design, budget)? {
                    continue;
                }
            }
        }
        heard.push(*warning)?;
    }
    Ok(heard)
}

/// Whether a warning is about a mark that follows a clock.
pub fn is_followed(warning: &Warning) -> bool {
    followed(warning).is_some()
}

// The mark that a warning is about, and what it follows, if it follows a clock.
fn followed(warning: &Warning) -> Option<(DesignMark, DrawnPlace)> {
    match (warning.word, warning.about) {
        (WarningWord::Period, About::Follows { mark, by }) => Some((mark, by)),
        _ => None,
    }
}

// Whether no bound of a row changes if the period of the clock is drawn at a mark.
fn is_idle(
    alloc: Global,
    mark: DesignMark,
    by: DrawnPlace,
    found: &[RowFound],
    drawn: &DrawnNetwork,
    design: &Design<'_>,
    budget: u64,
) -> Result<bool, NoMemory>
    requires least { 1 ≤ budget }
    requires most { budget ≤ MAX_BUDGET }
{
    let Some(period) = period_followed(alloc, design, mark, by)? else {
        return Ok(false);
    };
    let events = events_of(alloc, mark, drawn, design)?;
    match with_period(alloc, drawn.network(), &events, &period)? {
        Some(net) => has_bounds(alloc, &net, found, drawn, budget),
        None => Ok(false),
    }
}

// The events of a mark of a design, cycle by cycle.
fn events_of(
    alloc: Global,
    mark: DesignMark,
    drawn: &DrawnNetwork,
    design: &Design<'_>,
) -> Result<Vec<EventId>, NoMemory> {
    let part = part_word(design, u64::from(mark.part));
    let mut events = Vec::new(alloc);
    if let Some(name) = mark_name(design, mark) {
        for n in 0..drawn.network().events() {
            let event = drawn.name(EventId(n));
            if event.mark == name && event.part == part {
                events.push(EventId(n))?;
            }
        }
    }
    Ok(events)
}

// A network with the period of a mark, whose events are given cycle by cycle, if there is room for it.
fn with_period(
    alloc: Global,
    net: &Network,
    events: &[EventId],
    period: &Period,
) -> Result<Option<Network>, NoMemory> {
    match copied(alloc, net)? {
        Some(copy) => Ok(put_in(alloc, copy, events, period)),
        None => Ok(None),
    }
}

// The same, given a copy of the network.
fn put_in(alloc: Global, copy: Network, events: &[EventId], period: &Period) -> Option<Network> {
    let mut copy = copy;
    if put_periods(alloc, &mut copy, events, period).is_ok() {
        Some(copy)
    } else {
        drop(copy);
        None
    }
}

// Puts the period between the events of a mark at the end of a network.
fn put_periods(
    alloc: Global,
    net: &mut Network,
    events: &[EventId],
    period: &Period,
) -> Result<(), PushFault> {
    for from in 0..events.len() {
        put_from(alloc, net, events, from, period)?;
    }
    Ok(())
}

// Puts the period from one of the events of a mark at the end of a network, if it leads to another one.
fn put_from(
    alloc: Global,
    net: &mut Network,
    events: &[EventId],
    from: usize,
    period: &Period,
) -> Result<(), PushFault> {
    match (events.get(from), event_after(events, from, period.shift)) {
        (Some(from), Some(to)) => put_period(alloc, net, *from, to, period),
        _ => Ok(()),
    }
}

// Puts the period between two events at the end of a network, if they are there.
fn put_period(
    alloc: Global,
    net: &mut Network,
    from: EventId,
    to: EventId,
    period: &Period,
) -> Result<(), PushFault> {
    if from.0 < net.events() && to.0 < net.events() {
        net.push_linear(alloc, from, to, period.range)
    } else {
        Ok(())
    }
}

// The event so many cycles after another one, if there is one.
fn event_after(events: &[EventId], from: usize, shift: u32) -> Option<EventId> {
    events.get(from.checked_add(shift as usize)?).copied()
}

// A copy of a network, if there is room for it.
fn copied(alloc: Global, net: &Network) -> Result<Option<Network>, NoMemory> {
    let mut copy = Network::new(alloc, net.events())?;
    for number in 0..net.len() {
        if MAX_CONSTRAINTS <= copy.len() {
            return Ok(None);
        }
        copy.push_copy(alloc, net, number)?;
    }
    Ok(Some(copy))
}

// Whether the rows of a drawn network have the bounds in another network that were found.
fn has_bounds(
    alloc: Global,
    net: &Network,
    found: &[RowFound],
    drawn: &DrawnNetwork,
    budget: u64,
) -> Result<bool, NoMemory>
    requires least { 1 ≤ budget }
    requires most { budget ≤ MAX_BUDGET }
{
    let mut extremes = Extremes::new(alloc, net, budget, run_turns(budget))?;
    let same = match extremes.find(alloc, net) {
        Ok(Consistency::Consistent) => {
            have_bounds(alloc, net, &mut extremes, drawn.rows().as_slice(), found)
        }
        Ok(Consistency::Inconsistent | Consistency::Open) => Ok(false),
        Err(NoMemory) => Err(NoMemory),
    };
    drop(extremes);
    same
}

// The same, with a search that is ready.
fn have_bounds(
    alloc: Global,
    net: &Network,
    extremes: &mut Extremes,
    rows: &[Row],
    found: &[RowFound],
) -> Result<bool, NoMemory>
    requires ready { IsReady net.now extremes.old }
{
    for n in 0..rows.len() {
        if found.len() <= n || !has_bound(alloc, net, extremes, &rows[n], &found[n])? {
            return Ok(false);
        }
    }
    Ok(true)
}

// Whether a row has the two bounds that were found.
fn has_bound(
    alloc: Global,
    net: &Network,
    extremes: &mut Extremes,
    row: &Row,
    found: &RowFound,
) -> Result<bool, NoMemory>
    requires ready { IsReady net.now extremes.old }
    ensures ready { IsReady net.now extremes.new }
{
    if net.events() <= row.from.0 || net.events() <= row.to.0 {
        return Ok(false);
    }
    let greatest = extremes.greatest(alloc, net, row.from, row.to)?.bound();
    let least = extremes.greatest(alloc, net, row.to, row.from)?.bound();
    Ok(is_same(greatest, found.greatest.bound()) && is_opposite(least, found.least.bound()))
}

// Whether two bounds are known and equal.
fn is_same(a: Bound, b: Bound) -> bool {
    match (a, b) {
        (Bound::Closed(a), Bound::Closed(b)) => a == b,
        (Bound::Unbounded, Bound::Unbounded) => true,
        _ => false,
    }
}

// Whether two bounds are known, and one is minus the other.
fn is_opposite(a: Bound, b: Bound) -> bool {
    match (a, b) {
        (Bound::Closed(a), Bound::Closed(b)) => a.checked_neg() == Some(b),
        (Bound::Unbounded, Bound::Unbounded) => true,
        _ => false,
    }
}
