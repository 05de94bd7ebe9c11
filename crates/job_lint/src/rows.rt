//! Searching rows.

ghost use Rattle.std.specs.Prelude.{◌≡◌, ◌<◌, ◌≤◌, false, All, IfOk};
ghost use Rattle.std.specs.List.{AllZip, list_any};
ghost use Rattle.drawn_networks.specs.Drawn.{IsRowOf};
ghost use Rattle.event_graph.specs.Edges.{cause_choices};
ghost use Rattle.explanations.specs.Apart.{keeps_order};
ghost use Rattle.extremes.specs.Found.{IsAttainedBy, IsConsistency};
ghost use Rattle.requirements.specs.declared.consistency.Consistency.TheVariants.{Consistent};
ghost use Rattle.extremes.specs.Ready.{IsReady};
ghost use Rattle.itv_base.specs.declared.limits.TheConstants.{MAX_BUDGET};
ghost use Rattle.event_graph.specs.Network.{Net};
ghost use Rattle.itv_base.specs.declared.names.EventId.{EventId as EventIdOf};
ghost use Rattle.job_lint.specs.Step.Keeping.{KeepsRange};
ghost use Rattle.job_lint.specs.Found.{AreRowsSeen, IsPairSeen, IsRowSeen, PassesByOrder, RowPasses, has_order, is_order_open, is_pair_open, is_row_open};
ghost use Rattle.job_lint.specs.Step.Searching.{IsApartFor, IsApartEnough, IsRowEnough, IsRowSearch};
ghost use Rattle.job_lint.specs.declared.row_seen.RowSeen.{RowSeen as RowIsSeen};

use crate::apart::{WithoutOrder, find_apart, passes_by_order};
use crate::by_order::ByOrder;
use crate::kept::{RangeKept, extent_of, kept_in};
use crate::pair_seen::PairSeen;
use crate::row_seen::RowSeen;
use chains::Chains;
use drawn_networks::{DrawnNetwork, Row};
use event_graph::Network;
use extremes::Extremes;
use itv_base::{EventId, NoMemory, Range, RowKind};
use origin::Origin;
use requirements::Separation;
use std::alloc::Global;

/// The memory for the searches of rows and for their chains.
#[derive(Drop)]
pub struct RowSearch {
    pub extremes: Extremes,
    pub chains: Chains,
    pub apart: WithoutOrder,
}

/// What is found of each row of a drawn network that some times satisfy. Where no constraint keeps the order of a lane, nothing is searched, and there
/// are no rows.
pub fn see_rows(
    alloc: Global,
    drawn: &DrawnNetwork,
    budget: u64,
    extremes: Extremes,
) -> Result<Vec<RowSeen>, NoMemory>
    requires ready { IsReady drawn.now.net extremes }
    requires same { extremes.budget ≡ budget }
    requires least { 1 ≤ budget }
    requires most { budget ≤ MAX_BUDGET }
    ensures rows { IfOk result (λ rows. AreRowsSeen (has_order drawn.now) drawn.now rows.items) }
    ensures settles { IfOk result (λ rows. cause_choices drawn.now.net.constraints ≤ budget
        → All (λ (row : RowIsSeen). is_row_open row ≡ false) rows.items) }
{
    if !has_order(drawn) {
        drop(extremes);
        return Ok(Vec::new(alloc));
    }
    match more_memory(alloc, drawn, budget) {
        Ok(more) => see_all(alloc, drawn, extremes, more),
        Err(NoMemory) => {
            drop(extremes);
            Err(NoMemory)
        }
    }
}

// What the searches of rows need beside the search of a drawn network.
#[derive(Drop)]
struct MoreMemory {
    chains: Chains,
    apart: WithoutOrder,
}

// The memory for chains, and the network apart from the order of lanes.
fn more_memory(alloc: Global, drawn: &DrawnNetwork, budget: u64) -> Result<MoreMemory, NoMemory>
    requires some { IsConsistency drawn.now.net Consistent }
    requires least { 1 ≤ budget }
    requires most { budget ≤ MAX_BUDGET }
    ensures chains { IfOk result (λ more. more.chains.events ≡ drawn.now.net.events) }
    ensures apart { IfOk result (λ more. IsApartFor drawn.now more.apart) }
    ensures enough { IfOk result (λ more. cause_choices drawn.now.net.constraints ≤ budget → IsApartEnough drawn.now more.apart) }
{
    let chains = Chains::new(alloc, drawn.network())?;
    let apart = find_apart(alloc, drawn, budget)?;
    Ok(MoreMemory { chains, apart })
}

// What is found of each row with this memory.
fn see_all(
    alloc: Global,
    drawn: &DrawnNetwork,
    extremes: Extremes,
    more: MoreMemory,
) -> Result<Vec<RowSeen>, NoMemory>
    requires ready { IsReady drawn.now.net extremes }
    requires chains { more.chains.events ≡ drawn.now.net.events }
    requires apart { IsApartFor drawn.now more.apart }
    ensures rows { IfOk result (λ rows. AllZip (IsRowSeen drawn.now) drawn.now.rows rows.items) }
    ensures settles { IfOk result (λ rows. cause_choices drawn.now.net.constraints ≤ extremes.budget → IsApartEnough drawn.now more.apart
        → All (λ (row : RowIsSeen). is_row_open row ≡ false) rows.items) }
{
    let mut search = RowSearch {
        extremes,
        chains: more.chains,
        apart: more.apart,
    };
    let rows = see_each(alloc, drawn, &mut search);
    drop(search);
    rows
}

// Whether some constraint keeps the order of a lane.
fn has_order(drawn: &DrawnNetwork) -> bool
    ensures { result ≡ has_order drawn.now }
{
    drawn
        .origins()
        .as_slice()
        .iter()
        .any(|origins| keeps_order(origins.as_slice()))
}

// Whether a constraint keeps the order of a lane, according to the origins of its causes.
fn keeps_order(origins: &[Origin]) -> bool
    ensures { result ≡ keeps_order origins.now }
{
    origins.iter().any(|origin| origin.is_lane())
}

// What is found of each row, where some constraint keeps the order of a lane.
fn see_each(
    alloc: Global,
    drawn: &DrawnNetwork,
    search: &mut RowSearch,
) -> Result<Vec<RowSeen>, NoMemory>
    requires search { IsRowSearch drawn.now search.old }
    ensures rows { IfOk result (λ rows. AllZip (IsRowSeen drawn.now) drawn.now.rows rows.items) }
    ensures settles { IfOk result (λ rows. IsRowEnough drawn.now search.old → All (λ (row : RowIsSeen). is_row_open row ≡ false) rows.items) }
{
    let rows = drawn.rows();
    let mut found = Vec::new(alloc);
    for row in rows.as_slice() {
        let last = see_row(alloc, drawn, row, search)?;
        found.push(last)?;
    }
    Ok(found)
}

// What is found of a row.
fn see_row(
    alloc: Global,
    drawn: &DrawnNetwork,
    row: &Row,
    search: &mut RowSearch,
) -> Result<RowSeen, NoMemory>
    requires search { IsRowSearch drawn.now search.old }
    requires row { IsRowOf drawn.now.net row.now }
    ensures search { IfOk result (λ _. IsRowSearch drawn.now search.new) }
    ensures row { IfOk result (IsRowSeen drawn.now row.now) }
    ensures enough { IfOk result (λ _. IsRowEnough drawn.now search.old → IsRowEnough drawn.now search.new) }
    ensures settles { IfOk result (λ found. IsRowEnough drawn.now search.old → is_row_open found ≡ false) }
{
    let net = drawn.network();
    let greatest = see_pair(alloc, net, row.from, row.to, search)?;
    let least = see_pair(alloc, net, row.to, row.from, search)?;
    let passes = row_passes(alloc, drawn, row, &greatest, &least, &mut search.apart)?;
    Ok(RowSeen {
        greatest,
        least,
        passes,
    })
}

// What is found of the greatest separation of a pair.
fn see_pair(
    alloc: Global,
    net: &Network,
    from: EventId,
    to: EventId,
    search: &mut RowSearch,
) -> Result<PairSeen, NoMemory>
    requires ready { IsReady net.now search.old.extremes }
    requires chains { search.old.chains.events ≡ net.now.events }
    requires from { from.0 < net.now.events }
    requires to { to.0 < net.now.events }
    ensures ready { IsReady net.now search.new.extremes }
    ensures budget { search.new.extremes.budget ≡ search.old.extremes.budget }
    ensures chains { search.new.chains.events ≡ net.now.events }
    ensures apart { search.new.apart ≡ search.old.apart }
    ensures seen { IfOk result (IsPairSeen net.now from to) }
    ensures settles { IfOk result (λ found. cause_choices net.now.constraints ≤ search.old.extremes.budget → is_pair_open found ≡ false) }
{
    match search.extremes.greatest(alloc, net, from, to)? {
        Separation::Closed { value, shown } => {
            see_closed(alloc, net, from, to, value, &shown, &mut search.chains)
        }
        Separation::Unbounded { .. } => Ok(PairSeen::Unbounded),
        Separation::Open { .. } => Ok(PairSeen::Open),
    }
}

// What is found of a greatest separation that some times attain.
fn see_closed(
    alloc: Global,
    net: &Network,
    from: EventId,
    to: EventId,
    value: i64,
    times: &[i64],
    chains: &mut Chains,
) -> Result<PairSeen, NoMemory>
    requires attained { IsAttainedBy net.now from to value times.now }
    requires chains { chains.old.events ≡ net.now.events }
    requires from { from.0 < net.now.events }
    requires to { to.0 < net.now.events }
    ensures chains { chains.new.events ≡ net.now.events }
    ensures seen { IfOk result (IsPairSeen net.now from to) }
    ensures settled { IfOk result (λ found. is_pair_open found ≡ false) }
{
    if !chains.find(net, times, from, to) {
        // The times attain the greatest separation, so there is a chain.
        unreachable!()
    }
    let chain = Vec::from_slice(alloc, chains.names())?;
    Ok(PairSeen::Closed { value, chain })
}

// Whether the requirement of a row passes because of the order of lanes alone.
fn row_passes(
    alloc: Global,
    drawn: &DrawnNetwork,
    row: &Row,
    greatest: &PairSeen,
    least: &PairSeen,
    apart: &mut WithoutOrder,
) -> Result<ByOrder, NoMemory>
    requires row { IsRowOf drawn.now.net row.now }
    requires greatest { IsPairSeen drawn.now.net row.now.from row.now.to greatest.now }
    requires least { IsPairSeen drawn.now.net row.now.to row.now.from least.now }
    requires apart { IsApartFor drawn.now apart.old }
    ensures apart { IfOk result (λ _. IsApartFor drawn.now apart.new) }
    ensures passes { IfOk result (RowPasses drawn.now row.now row.now.kind) }
    ensures enough { IfOk result (λ _. IsApartEnough drawn.now apart.old → IsApartEnough drawn.now apart.new) }
    ensures settles { IfOk result (λ by. IsApartEnough drawn.now apart.old → is_pair_open greatest.now ≡ false → is_pair_open least.now ≡ false
        → is_order_open by ≡ false) }
{
    match row.kind {
        RowKind::Ask => Ok(ByOrder::No),
        RowKind::Req(range) => range_passes(alloc, drawn, row, range, greatest, least, apart),
    }
}

// Whether a requirement passes because of the order of lanes alone.
fn range_passes(
    alloc: Global,
    drawn: &DrawnNetwork,
    row: &Row,
    range: Range,
    greatest: &PairSeen,
    least: &PairSeen,
    apart: &mut WithoutOrder,
) -> Result<ByOrder, NoMemory>
    requires row { IsRowOf drawn.now.net row.now }
    requires greatest { IsPairSeen drawn.now.net row.now.from row.now.to greatest.now }
    requires least { IsPairSeen drawn.now.net row.now.to row.now.from least.now }
    requires apart { IsApartFor drawn.now apart.old }
    ensures apart { IfOk result (λ _. IsApartFor drawn.now apart.new) }
    ensures passes { IfOk result (PassesByOrder drawn.now row.now range) }
    ensures enough { IfOk result (λ _. IsApartEnough drawn.now apart.old → IsApartEnough drawn.now apart.new) }
    ensures settles { IfOk result (λ by. IsApartEnough drawn.now apart.old → is_pair_open greatest.now ≡ false → is_pair_open least.now ≡ false
        → is_order_open by ≡ false) }
{
    match seen_kept(range, greatest, least) {
        RangeKept::All => passes_by_order(alloc, drawn, row, range, apart),
        RangeKept::NotAll => Ok(ByOrder::No),
        RangeKept::Open => Ok(ByOrder::Open),
    }
}

// Whether all satisfying times keep a range, according to what is found of a pair and of the reversed pair.
fn seen_kept(range: Range, greatest: &PairSeen, least: &PairSeen) -> RangeKept
    ensures kept { (net : Net) (from to : EventIdOf) → IsPairSeen net from to greatest.now → IsPairSeen net to from least.now
        → KeepsRange net from to range result }
    ensures settles { is_pair_open greatest.now ≡ false → is_pair_open least.now ≡ false → result ≡ RangeKept.Open → ⊥ }
{
    kept_in(range, extent_of(greatest), extent_of(least))
}
