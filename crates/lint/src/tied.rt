//! Marks that move together, and have two periods.

use crate::clock::{driver_by, first_joins, first_periods};
use crate::firsts::{FirstLeads, first_at, has_first, note_first};
use crate::lead::{Lead, is_at, is_pin};
use crate::periods::same_range;
use crate::rule::is_linear;
use crate::warning::{DrawnPlace, Warning};
use crate::warning_word::WarningWord;
use itv_base::NoMemory;
use std::alloc::Global;

/// Puts a warning at the end for each mark that a linear rule holds to another mark from both sides within a cycle, if both have periods of their own, and the
/// two differ. Marks that follow one driver have their own warning. The leads are those of the design. The answer is `NoMemory` if memory runs out.
pub fn push_tied(
    alloc: Global,
    warnings: &mut Vec<Warning>,
    leads: &[Lead],
) -> Result<(), NoMemory> {
    let joins = first_joins(alloc, leads)?;
    let pushed = push_joined(alloc, warnings, &joins, leads);
    drop(joins);
    pushed
}

// Puts the warnings at the end. The table has the first joins into marks.
fn push_joined(
    alloc: Global,
    warnings: &mut Vec<Warning>,
    joins: &FirstLeads,
    leads: &[Lead],
) -> Result<(), NoMemory> {
    let periods = first_periods(alloc, leads)?;
    let mut told = FirstLeads::new(alloc);
    let pushed = push_leads(warnings, joins, &periods, &mut told, leads);
    drop(periods);
    drop(told);
    pushed
}

// Puts the warnings at the end. The tables have the first joins into marks, the first periods of marks, and the leads into marks that have a warning.
fn push_leads(
    warnings: &mut Vec<Warning>,
    joins: &FirstLeads,
    periods: &FirstLeads,
    told: &mut FirstLeads,
    leads: &[Lead],
) -> Result<(), NoMemory> {
    for lead in leads {
        if ties(lead) && is_free_of_driver(joins, lead) && !is_told(told, lead) {
            if let Some((first, other)) = two_periods(periods, lead) {
                warnings.push(Warning::of_two(WarningWord::Tied, first, other))?;
                note_first(told, true, lead)?;
            }
        }
    }
    Ok(())
}

// Whether a lead holds its mark to another mark from both sides within a cycle, by a linear rule.
fn ties(lead: &Lead) -> bool {
    is_linear(lead.kind)
        && lead.shift == 0
        && !is_pin(lead.origin)
        && !is_at(lead.from, lead.to)
        && lead.range.low().is_some()
        && lead.range.high().is_some()
}

// Whether the two marks of a lead follow different drivers.
fn is_free_of_driver(joins: &FirstLeads, lead: &Lead) -> bool {
    !is_at(driver_by(joins, lead.from), driver_by(joins, lead.to))
}

// Whether the mark of a lead has a warning, or the mark that it comes from has one with this mark.
fn is_told(told: &FirstLeads, lead: &Lead) -> bool {
    if has_first(told, lead.to) {
        return true;
    }
    match first_at(told, lead.from) {
        Some(other) => is_at(other.from, lead.to),
        None => false,
    }
}

// The rules of the periods of the two marks of a lead, if both have one over as many cycles, and the two differ.
fn two_periods(periods: &FirstLeads, lead: &Lead) -> Option<(DrawnPlace, DrawnPlace)> {
    let first = first_at(periods, lead.from)?;
    let other = first_at(periods, lead.to)?;
    if first.shift != other.shift || same_range(first.range, other.range) {
        return None;
    }
    Some((place_of(first), place_of(other)))
}

fn place_of(period: &Lead) -> DrawnPlace {
    DrawnPlace {
        part: period.to.part,
        origin: period.origin,
    }
}
