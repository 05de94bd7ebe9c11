//! Marks that follow a clock, and have no period of their own.

ghost use Rattle.std.specs.Prelude.{◌≡◌, ◌<◌, ◌^◌, ◌++◌, IfOk, None, OnOk, length};
ghost use Rattle.std.specs.Option.{option_copied};
ghost use Rattle.compose.specs.declared.mark.DesignMark.{DesignMark as MarkSeen};
ghost use Rattle.lint.specs.Leads.{crossings_of};
ghost use Rattle.lint.specs.Lists.{each_from};
ghost use Rattle.lint.specs.Periods.{follows_by, is_join_into, sheet_periods};
ghost use Rattle.lint.specs.Step.{AreFirst, clocked_by, crossed_by, first_at, follows_clock, is_period_into, place_clocked, sheet_clocked, timed_by};

use crate::about::About;
use crate::asked::part_count;
use crate::clock::{driver_by, first_periods};
use crate::crossings::{Crossing, crossings_of};
use crate::firsts::{FirstLeads, first_at, has_first, note_first};
use crate::lead::{Lead, is_at};
use crate::periods::is_one_value;
use crate::rule::is_linear;
use crate::warning::{DrawnPlace, Warning};
use crate::warning_word::WarningWord;
use compose::{Design, DesignMark};
use itv_base::NoMemory;
use sheet::Marks;
use std::alloc::Global;

/// Puts the warnings of marks that follow a clock at the end, from the leads of the design. The table has the first joins into marks.
pub fn push_followers(
    alloc: Global,
    warnings: &mut Vec<Warning>,
    joins: &FirstLeads,
    leads: &[Lead],
    design: &Design<'_>,
) -> Result<(), NoMemory>
    requires joins { AreFirst is_join_into joins.now leads.now }
    ensures pushed { OnOk result (warnings.new.items
        ≡ warnings.old.items ++ each_from (sheet_periods leads.now (crossings_of design.now)) 0 design.now.sheets) }
{
    let periods = first_periods(alloc, leads)?;
    let pushed = push_timed(alloc, warnings, joins, &periods, leads, design);
    drop(periods);
    pushed
}

// Puts the warnings at the end. The tables have the first joins into marks, and the first periods of marks.
fn push_timed(
    alloc: Global,
    warnings: &mut Vec<Warning>,
    joins: &FirstLeads,
    periods: &FirstLeads,
    leads: &[Lead],
    design: &Design<'_>,
) -> Result<(), NoMemory>
    requires joins { AreFirst is_join_into joins.now leads.now }
    requires periods { AreFirst is_period_into periods.now leads.now }
    ensures pushed { OnOk result (warnings.new.items
        ≡ warnings.old.items ++ each_from (sheet_periods leads.now (crossings_of design.now)) 0 design.now.sheets) }
{
    let clocks = first_clocks(alloc, joins, periods, leads)?;
    let pushed = push_clocked(alloc, warnings, periods, &clocks, design);
    drop(clocks);
    pushed
}

// Puts the warnings at the end. The tables have the first periods of marks, and the first leads by which marks follow clocks.
fn push_clocked(
    alloc: Global,
    warnings: &mut Vec<Warning>,
    periods: &FirstLeads,
    clocks: &FirstLeads,
    design: &Design<'_>,
) -> Result<(), NoMemory>
    ensures pushed { OnOk result (warnings.new.items
        ≡ warnings.old.items ++ each_from (sheet_clocked periods.now clocks.now (crossings_of design.now)) 0 design.now.sheets) }
{
    let crossings = crossings_of(alloc, design)?;
    push_sheets(warnings, periods, clocks, &crossings, design)
}

// Puts the warnings of the marks of the sheets at the end.
fn push_sheets(
    warnings: &mut Vec<Warning>,
    periods: &FirstLeads,
    clocks: &FirstLeads,
    crossings: &[Crossing],
    design: &Design<'_>,
) -> Result<(), NoMemory>
    ensures pushed { OnOk result (warnings.new.items
        ≡ warnings.old.items ++ each_from (sheet_clocked periods.now clocks.now crossings.now) 0 design.now.sheets) }
{
    for part in 0..part_count(design) {
        push_marks(
            warnings,
            periods,
            clocks,
            crossings,
            part,
            design.sheet_of(part).marks(),
        )?;
    }
    Ok(())
}

// Puts the warnings of the marks of a part at the end.
fn push_marks(
    warnings: &mut Vec<Warning>,
    periods: &FirstLeads,
    clocks: &FirstLeads,
    crossings: &[Crossing],
    part: u32,
    marks: &Marks,
) -> Result<(), NoMemory>
    requires few { length marks.now < 2 ^ 32 }
    ensures pushed { OnOk result (warnings.new.items
        ≡ warnings.old.items ++ each_from (place_clocked periods.now clocks.now crossings.now part) 0 marks.now) }
{
    for k in 0..marks.len() as u32 {
        let mark = DesignMark { part, mark: k };
        push_mark(warnings, periods, crossings, mark, first_at(clocks, mark))?;
    }
    Ok(())
}

// Puts the warning of a mark that follows a clock by a lead at the end, if there is one.
fn push_mark(
    warnings: &mut Vec<Warning>,
    periods: &FirstLeads,
    crossings: &[Crossing],
    mark: DesignMark,
    lead: Option<&Lead>,
) -> Result<(), NoMemory>
    ensures pushed { OnOk result (warnings.new.items ≡ warnings.old.items ++ clocked_by periods.now crossings.now mark (option_copied lead.entry)) }
{
    let Some(lead) = lead else {
        return Ok(());
    };
    if !has_first(periods, mark) && is_crossed(periods, crossings, mark) {
        let by = DrawnPlace {
            part: mark.part,
            origin: lead.origin,
        };
        let word = WarningWord::Period;
        let about = About::Follows { mark, by };
        warnings.push(Warning { word, about })?;
    }
    Ok(())
}

// Whether a row crosses from a mark without a period of its own into a mark of a later cycle.
fn is_crossed(periods: &FirstLeads, crossings: &[Crossing], mark: DesignMark) -> bool
    ensures { result ≡ crossed_by periods.now crossings.now mark }
{
    crossings.iter().any(|crossing| is_at(crossing.to, mark) && !has_first(periods, crossing.from))
}

// The first leads by which marks follow clocks. The tables have the first joins into marks, and the first periods of marks.
fn first_clocks(
    alloc: Global,
    joins: &FirstLeads,
    periods: &FirstLeads,
    leads: &[Lead],
) -> Result<FirstLeads, NoMemory>
    requires joins { AreFirst is_join_into joins.now leads.now }
    requires periods { AreFirst is_period_into periods.now leads.now }
    ensures clocks { IfOk result (λ clocks. AreFirst (follows_by leads.now) clocks leads.now) }
{
    let mut clocks = FirstLeads::new(alloc);
    note_clocks(&mut clocks, joins, periods, leads)?;
    Ok(clocks)
}

// Notes the first leads by which marks follow clocks, in an empty table.
fn note_clocks(
    clocks: &mut FirstLeads,
    joins: &FirstLeads,
    periods: &FirstLeads,
    leads: &[Lead],
) -> Result<(), NoMemory>
    requires joins { AreFirst is_join_into joins.now leads.now }
    requires periods { AreFirst is_period_into periods.now leads.now }
    requires none { (mark : MarkSeen) → first_at clocks.old mark ≡ None }
    ensures noted { OnOk result (AreFirst (follows_by leads.now) clocks.new leads.now) }
{
    for lead in leads {
        note_first(clocks, follows_clock(joins, periods, lead), lead)?;
    }
    Ok(())
}

// Whether marks follow clocks by a lead, which is linear and has a range of more than one number.
fn follows_clock(joins: &FirstLeads, periods: &FirstLeads, lead: &Lead) -> bool
    ensures { result ≡ follows_clock joins.now periods.now lead.now }
{
    is_linear(lead.kind) && !is_one_value(lead.range) && is_timed(joins, periods, lead.from)
}

// Whether a mark or its driver has a period.
fn is_timed(joins: &FirstLeads, periods: &FirstLeads, mark: DesignMark) -> bool
    ensures { result ≡ timed_by joins.now periods.now mark }
{
    has_first(periods, mark) || has_first(periods, driver_by(joins, mark))
}
