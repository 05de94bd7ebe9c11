//! Rules that give clocks their periods, and the drivers of marks.

ghost use Rattle.std.specs.Prelude.{◌≡◌, ◌++◌, IfOk, None, OnOk};
ghost use Rattle.compose.specs.declared.mark.DesignMark.{DesignMark as MarkSeen};
ghost use Rattle.lint.specs.Periods.{clocks_of, is_join_into, is_period};
ghost use Rattle.lint.specs.Step.{AreFirst, clock_by, driver_by, first_at, is_period_into};

use crate::firsts::{FirstLeads, first_at, note_first};
use crate::lead::{Lead, is_at, is_pin};
use crate::rule::is_linear;
use crate::warning::DrawnPlace;
use compose::DesignMark;
use itv_base::{NoMemory, Range};
use origin::Origin;
use std::alloc::Global;

/// A linear rule from a mark to itself, `shift` cycles later: the mark that drives this mark, the range of the period in picoseconds, and what draws
/// the rule.
#[derive(Clone, Copy)]
pub struct Clock {
    pub driver: DesignMark,
    pub shift: u32,
    pub range: Range,
    pub place: DrawnPlace,
}

/// The rules of periods among the leads of a design. The table has the first joins into marks.
pub fn clocks_of(alloc: Global, joins: &FirstLeads, leads: &[Lead]) -> Result<Vec<Clock>, NoMemory>
    requires joins { AreFirst is_join_into joins.now leads.now }
    ensures clocks { IfOk result (λ clocks. clocks.items ≡ clocks_of leads.now) }
{
    let mut clocks = Vec::new(alloc);
    push_clocks(&mut clocks, joins, leads)?;
    Ok(clocks)
}

// Puts the rules of periods among the leads of a design at the end.
fn push_clocks(clocks: &mut Vec<Clock>, joins: &FirstLeads, leads: &[Lead]) -> Result<(), NoMemory>
    requires joins { AreFirst is_join_into joins.now leads.now }
    ensures pushed { OnOk result (clocks.new.items ≡ clocks.old.items ++ clocks_of leads.now) }
{
    for lead in leads {
        push_clock(clocks, joins, lead)?;
    }
    Ok(())
}

// Puts a lead at the end, if it is the rule of a period.
fn push_clock(clocks: &mut Vec<Clock>, joins: &FirstLeads, lead: &Lead) -> Result<(), NoMemory>
    ensures pushed { OnOk result (clocks.new.items ≡ clocks.old.items ++ clock_by joins.now lead.now) }
{
    if is_period(lead) && is_linear(lead.kind) {
        let driver = driver_by(joins, lead.to);
        let origin: Origin = lead.origin;
        clocks.push(Clock {
            driver,
            shift: lead.shift,
            range: lead.range,
            place: DrawnPlace {
                part: lead.to.part,
                origin,
            },
        })?;
    }
    Ok(())
}

/// The mark that drives a mark by its first join, or the mark itself.
pub fn driver_by(joins: &FirstLeads, mark: DesignMark) -> DesignMark
    ensures { result ≡ driver_by joins.now mark }
{
    match first_at(joins, mark) {
        Some(lead) => lead.from,
        None => mark,
    }
}

/// The first joins into marks among some leads.
pub fn first_joins(alloc: Global, leads: &[Lead]) -> Result<FirstLeads, NoMemory>
    ensures joins { IfOk result (λ joins. AreFirst is_join_into joins leads.now) }
{
    let mut joins = FirstLeads::new(alloc);
    note_joins(&mut joins, leads)?;
    Ok(joins)
}

// Notes the first joins into marks among some leads, in an empty table.
fn note_joins(joins: &mut FirstLeads, leads: &[Lead]) -> Result<(), NoMemory>
    requires none { (mark : MarkSeen) → first_at joins.old mark ≡ None }
    ensures noted { OnOk result (AreFirst is_join_into joins.new leads.now) }
{
    for lead in leads {
        note_first(joins, is_pin(lead.origin), lead)?;
    }
    Ok(())
}

/// The first periods of marks among some leads.
pub fn first_periods(alloc: Global, leads: &[Lead]) -> Result<FirstLeads, NoMemory>
    ensures periods { IfOk result (λ periods. AreFirst is_period_into periods leads.now) }
{
    let mut periods = FirstLeads::new(alloc);
    note_periods(&mut periods, leads)?;
    Ok(periods)
}

// Notes the first periods of marks among some leads, in an empty table.
fn note_periods(periods: &mut FirstLeads, leads: &[Lead]) -> Result<(), NoMemory>
    requires none { (mark : MarkSeen) → first_at periods.old mark ≡ None }
    ensures noted { OnOk result (AreFirst is_period_into periods.new leads.now) }
{
    for lead in leads {
        note_first(periods, is_period(lead), lead)?;
    }
    Ok(())
}

// Whether a lead goes from a mark to itself in a later cycle.
fn is_period(lead: &Lead) -> bool
    ensures { result ≡ is_period lead.now }
{
    is_at(lead.from, lead.to) && 1 <= lead.shift
}
