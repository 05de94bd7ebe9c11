//! Searches of one cycle with all rules of a design.

ghost use Rattle.std.specs.Prelude.{◌≡◌, ◌<◌, ◌≤◌, ◌-ℤ◌, All, IfOk, IfSome};
ghost use Rattle.itv_base.specs.declared.limits.TheConstants.{MAX_BUDGET, MAX_EVENTS};
ghost use Rattle.event_graph.specs.Satisfying.{Satisfies};
ghost use Rattle.sheet.specs.declared.row.SheetRow.{SheetRow as RowView};
ghost use Rattle.unroll.specs.Step.Between.{IsRowBetween, IsRuleBetween};
ghost use Rattle.extremes.specs.Ready.{IsReady};
ghost use Rattle.longer_runs.specs.Periods.{periods};
ghost use Rattle.steady.specs.Steady.{AttainSteadily, IsPeriodOf, folded_rules};
ghost use Rattle.steady.specs.Step.{IsClosedAt, IsFoldedFor, SeparateIn};

use crate::extreme::{Extreme, extreme_of};
use crate::folding::{are_in_step, folded_network, period_at, periods};
use event_graph::Network;
use extremes::{Extremes, run_turns};
use itv_base::{EventId, NoMemory, Side};
use requirements::{Consistency, Separation};
use sheet::{Rule, SheetRow};
use std::alloc::Global;

/// One cycle with all rules, which some times satisfy: the period of each mark, the network, and the memory for its searches.
#[derive(Drop)]
pub struct Folded {
    pub each: Vec<i64>,
    pub net: Network,
    pub extremes: Extremes,
}

/// The one cycle with these periods, if some times satisfy it.
pub fn fold(
    alloc: Global,
    marks: u32,
    rules: &[Rule],
    each: Vec<i64>,
    budget: u64,
) -> Result<Option<Folded>, NoMemory>
    requires between { All (IsRuleBetween marks) rules.now }
    requires marks { marks ≤ MAX_EVENTS }
    requires least { 1 ≤ budget }
    requires most { budget ≤ MAX_BUDGET }
    ensures folded { IfOk result (λ folded. IfSome folded (IsFoldedFor marks rules.now)) }
{
    if each.len() != marks as usize || !are_in_step(rules, &each) {
        return Ok(None);
    }
    match folded_network(alloc, marks, rules, &each)? {
        None => Ok(None),
        Some(net) => search_folded(alloc, each, net, budget),
    }
}

// Looks for times that satisfy one cycle.
fn search_folded(
    alloc: Global,
    each: Vec<i64>,
    net: Network,
    budget: u64,
) -> Result<Option<Folded>, NoMemory>
    requires least { 1 ≤ budget }
    requires most { budget ≤ MAX_BUDGET }
    ensures kept { IfOk result (λ folded. IfSome folded (λ folded. (folded.each ≡ each) × (folded.net ≡ net) × IsReady folded.net folded.extremes)) }
{
    let mut extremes = Extremes::new(alloc, &net, budget, run_turns(budget))?;
    match extremes.find(alloc, &net) {
        Ok(Consistency::Consistent) => Ok(Some(Folded {
            each,
            net,
            extremes,
        })),
        Ok(Consistency::Inconsistent | Consistency::Open) => {
            drop(extremes);
            Ok(None)
        }
        Err(NoMemory) => {
            drop(extremes);
            Err(NoMemory)
        }
    }
}

/// Some times that satisfy the one cycle, if it has a mark.
pub fn some_times(alloc: Global, folded: &mut Folded) -> Result<Option<Vec<i64>>, NoMemory>
    requires ready { IsReady folded.old.net folded.old.extremes }
    ensures ready { IsReady folded.new.net folded.new.extremes }
    ensures net { folded.new.net ≡ folded.old.net }
    ensures each { folded.new.each ≡ folded.old.each }
    ensures times { IfOk result (λ times. IfSome times (λ times. Satisfies times.items folded.old.net)) }
{
    if folded.net.events() == 0 {
        return Ok(None);
    }
    let first = EventId(0);
    match extreme_of(
        alloc,
        &folded.net,
        &mut folded.extremes,
        Side::Upper,
        first,
        first,
    )? {
        Extreme::Closed { times, .. } => Ok(Some(times)),
        Extreme::Unbounded | Extreme::Open => Ok(None),
    }
}

/// The greatest or the least separation of a row in steady times with these periods, if they have one.
pub fn steady_separation(
    alloc: Global,
    folded: &mut Folded,
    row: &SheetRow,
    side: Side,
) -> Result<Option<i64>, NoMemory>
    requires ready { IsReady folded.old.net folded.old.extremes }
    requires row { IsRowBetween folded.old.net.events row.now }
    ensures ready { IsReady folded.new.net folded.new.extremes }
    ensures net { folded.new.net ≡ folded.old.net }
    ensures each { folded.new.each ≡ folded.old.each }
    ensures separation { IfOk result (λ found. IfSome found (SeparateIn folded.old.net folded.old.each.items row.now)) }
{
    let period = period_at(&folded.each, row.from);
    if period != period_at(&folded.each, row.to) {
        return Ok(None);
    }
    let found = extreme_of(
        alloc,
        &folded.net,
        &mut folded.extremes,
        side,
        EventId(row.from),
        EventId(row.to),
    )?;
    Ok(separation_of(&found, &period, row.shift))
}

// The separation in steady times of a pair of marks, so many cycles apart.
fn separation_of(found: &Extreme, period: &i64, shift: u32) -> Option<i64>
    ensures { IfSome result (λ value. IsClosedAt found.now (value -ℤ periods period.now shift)) }
{
    match found {
        Extreme::Closed { value, .. } => value.checked_add(periods(period, shift)?),
        Extreme::Unbounded | Extreme::Open => None,
    }
}
