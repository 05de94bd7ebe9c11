//! Periods of the clocks that marks follow.

use crate::clock::{driver_by, first_joins, first_periods};
use crate::firsts::{FirstLeads, first_at};
use crate::lead::{Lead, is_at};
use crate::leads::leads_of;
use crate::warning::DrawnPlace;
use compose::{Design, DesignMark};
use itv_base::{NoMemory, Range};
use origin::Origin;
use std::alloc::Global;

/// A period: so many cycles later a mark stands this range of picoseconds later.
#[derive(Clone, Copy)]
pub struct Period {
    pub shift: u32,
    pub range: Range,
}

/// The period of the clock that a mark follows by what a place draws: the own period of the mark that leads there, or that of its driver. The answer is `NoMemory` if memory
/// runs out.
pub fn period_followed(
    alloc: Global,
    design: &Design<'_>,
    mark: DesignMark,
    by: DrawnPlace,
) -> Result<Option<Period>, NoMemory> {
    let leads = leads_of(alloc, design)?;
    match leads.iter().find(|lead| is_at(lead.to, mark) && is_same(lead.origin, by.origin)) {
        Some(lead) => period_of(alloc, lead.from, &leads),
        None => Ok(None),
    }
}

// The own period of a mark, or that of its driver.
fn period_of(alloc: Global, mark: DesignMark, leads: &[Lead]) -> Result<Option<Period>, NoMemory> {
    let joins = first_joins(alloc, leads)?;
    let period = period_by(alloc, &joins, mark, leads);
    drop(joins);
    period
}

fn period_by(
    alloc: Global,
    joins: &FirstLeads,
    mark: DesignMark,
    leads: &[Lead],
) -> Result<Option<Period>, NoMemory> {
    let periods = first_periods(alloc, leads)?;
    let found = match first_at(&periods, mark) {
        Some(lead) => Some(period_at(lead)),
        None => first_at(&periods, driver_by(joins, mark)).map(|lead| period_at(lead)),
    };
    drop(periods);
    Ok(found)
}

fn period_at(lead: &Lead) -> Period {
    Period {
        shift: lead.shift,
        range: lead.range,
    }
}

fn is_same(a: Origin, b: Origin) -> bool {
    match (a, b) {
        (Origin::Edge(m), Origin::Edge(n)) | (Origin::Wire(m), Origin::Wire(n)) => m == n,
        (Origin::Pin { net: m, pin: k }, Origin::Pin { net: n, pin: l }) => m == n && k == l,
        _ => false,
    }
}
