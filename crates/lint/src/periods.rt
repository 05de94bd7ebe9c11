//! Clocks that are drawn with two periods.

ghost use Rattle.std.specs.Prelude.{◌≡◌, [], ◌++◌, OnOk, find};
ghost use Rattle.std.specs.Option.{option_copied};
ghost use Rattle.lint.specs.Lists.{each_behind};
ghost use Rattle.lint.specs.Periods.{clock_periods, clocks_of, is_join_into, is_one_value, is_rival, rival_of, same_end, same_home, same_range};
ghost use Rattle.lint.specs.Step.{AreFirst};

use crate::clock::{Clock, clocks_of};
use crate::firsts::FirstLeads;
use crate::lead::{Lead, is_at, is_edge};
use crate::warning::{DrawnPlace, Warning};
use crate::warning_word::WarningWord;
use itv_base::{NoMemory, Range};
use std::alloc::Global;

/// Puts the warnings of clocks with two periods at the end, from the leads of a design. The table has the first joins into marks.
pub fn push_rivals(
    alloc: Global,
    warnings: &mut Vec<Warning>,
    joins: &FirstLeads,
    leads: &[Lead],
) -> Result<(), NoMemory>
    requires joins { AreFirst is_join_into joins.now leads.now }
    ensures pushed { OnOk result (warnings.new.items ≡ warnings.old.items ++ each_behind clock_periods [] (clocks_of leads.now)) }
{
    let clocks = clocks_of(alloc, joins, leads)?;
    push_clocks(warnings, &clocks)
}

// Puts the warnings of rules of periods at the end.
fn push_clocks(warnings: &mut Vec<Warning>, clocks: &[Clock]) -> Result<(), NoMemory>
    ensures pushed { OnOk result (warnings.new.items ≡ warnings.old.items ++ each_behind clock_periods [] clocks.now) }
{
    for n in 0..clocks.len() {
        push_clock(warnings, &clocks[n], &clocks[..n])?;
    }
    Ok(())
}

// Puts the warning of a rule after others at the end, if the rule has one.
fn push_clock(warnings: &mut Vec<Warning>, clock: &Clock, before: &[Clock]) -> Result<(), NoMemory>
    ensures pushed { OnOk result (warnings.new.items ≡ warnings.old.items ++ clock_periods before.now clock.now) }
{
    push_two(warnings, clock, first_rival(clock, before))
}

// Puts the warning of a rule and an earlier rule at the end, if there is an earlier rule.
fn push_two(
    warnings: &mut Vec<Warning>,
    clock: &Clock,
    earlier: Option<&Clock>,
) -> Result<(), NoMemory>
    ensures pushed { OnOk result (warnings.new.items ≡ warnings.old.items ++ rival_of clock.now (option_copied earlier.entry)) }
{
    if let Some(earlier) = earlier {
        let word = WarningWord::Period;
        warnings.push(Warning::of_two(word, earlier.place, clock.place))?;
    }
    Ok(())
}

fn first_rival<'a>(clock: &Clock, before: &'a [Clock]) -> Option<&'a Clock>
    ensures { option_copied result ≡ find (is_rival clock.now) before.now }
{
    before.iter().find(|earlier| is_rival(clock, earlier))
}

// Whether two rules of different sheets, or of a sheet and the netlist, give the marks of one driver two periods.
fn is_rival(a: &Clock, b: &Clock) -> bool
    ensures { result ≡ is_rival a.now b.now }
{
    is_at(a.driver, b.driver)
        && a.shift == b.shift
        && !same_home(a.place, b.place)
        && !same_range(a.range, b.range)
}

// Whether two places are on the sheet of one part, or both in the netlist.
fn same_home(a: DrawnPlace, b: DrawnPlace) -> bool
    ensures { result ≡ same_home a b }
{
    if is_edge(a.origin) {
        is_edge(b.origin) && a.part == b.part
    } else {
        !is_edge(b.origin)
    }
}

/// Whether two ranges have the same ends.
pub fn same_range(a: Range, b: Range) -> bool
    ensures { result ≡ same_range a b }
{
    same_end(a.low(), b.low()) && same_end(a.high(), b.high())
}

fn same_end(a: Option<i64>, b: Option<i64>) -> bool
    ensures { result ≡ same_end a b }
{
    match (a, b) {
        (Some(a), Some(b)) => a == b,
        (None, None) => true,
        _ => false,
    }
}

/// Whether a range is one number.
pub fn is_one_value(range: Range) -> bool
    ensures { result ≡ is_one_value range }
{
    range.low().is_some() && same_end(range.low(), range.high())
}
