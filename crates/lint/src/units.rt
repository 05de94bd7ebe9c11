//! Ends of ranges that are tiny compared with most ends of a design.

ghost use Rattle.std.specs.Prelude.{◌≡◌, ◌≤◌, ◌++◌, IfOk, OnOk, nat_lt, length, count_by};
ghost use Rattle.std.specs.List.{flat_map, list_any};
ghost use Rattle.lint.specs.Step.{IsMiddle, has_most_above, is_below};
ghost use Rattle.lint.specs.Units.{end_sizes, ranged_unit, sizes_of, unit_warnings};

use crate::push::push_where;
use crate::ranged::{Ranged, ranges_of};
use crate::warning::Warning;
use compose::Design;
use design_plan::Plan;
use itv_base::NoMemory;
use std::alloc::Global;

/// Puts the warnings of tiny ends at the end.
pub fn push_units(
    alloc: Global,
    warnings: &mut Vec<Warning>,
    plan: &Plan,
    design: &Design<'_>,
) -> Result<(), NoMemory>
    ensures pushed { OnOk result (warnings.new.items ≡ warnings.old.items ++ unit_warnings plan.now design.now) }
{
    let ranges = ranges_of(alloc, plan, design)?;
    let sizes = sizes_of(alloc, &ranges)?;
    push_among(warnings, &ranges, &sizes)
}

// Puts the warnings of the ranges of a design, whose ends have these sizes, at the end.
fn push_among(warnings: &mut Vec<Warning>, ranges: &[Ranged], sizes: &[u64]) -> Result<(), NoMemory>
    ensures pushed { OnOk result (warnings.new.items ≡ warnings.old.items ++ flat_map (ranged_unit sizes.now) ranges.now) }
{
    let middle = middle_of(sizes);
    for ranged in ranges {
        push_where(has_tiny(middle, ranged), ranged.warning, warnings)?;
    }
    Ok(())
}

// Whether an end of a range is tiny compared with the middle of all sizes.
fn has_tiny(middle: u64, ranged: &Ranged) -> bool
    ensures { result ≡ list_any (is_below middle) (sizes_of ranged.now) }
{
    is_tiny_end(middle, ranged.range.low()) || is_tiny_end(middle, ranged.range.high())
}

fn is_tiny_end(middle: u64, end: Option<i64>) -> bool
    ensures { result ≡ list_any (is_below middle) (end_sizes end) }
{
    match end {
        Some(value) => value.unsigned_abs() != 0 && is_below(middle, value.unsigned_abs()),
        None => false,
    }
}

// Whether 200 times a size is below the middle.
fn is_below(middle: u64, size: u64) -> bool
    ensures { result ≡ is_below middle size }
{
    200 * u128::from(size) < u128::from(middle)
}

// The least number that at most half of some sizes are above.
fn middle_of(sizes: &[u64]) -> u64
    ensures { IsMiddle sizes.now result }
{
    let mut least = 0;
    let mut most = u64::MAX;
    'halves: while least < most {
        let number = least + (most - least) / 2;
        if has_most_above(sizes, number) {
            least = number + 1;
        } else {
            most = number;
        }
    }
    least
}

// Whether more than half of some sizes are above a number.
fn has_most_above(sizes: &[u64], number: u64) -> bool
    ensures { result ≡ has_most_above sizes.now number }
{
    sizes.len() < 2 * count_above(sizes, number)
}

fn count_above(sizes: &[u64], number: u64) -> usize
    ensures count { result ≡ count_by (nat_lt number) sizes.now }
    ensures within { result ≤ length sizes.now }
{
    sizes.iter().filter(|size| number < **size).count()
}

// The sizes of the ends of some ranges.
fn sizes_of(alloc: Global, ranges: &[Ranged]) -> Result<Vec<u64>, NoMemory>
    ensures { IfOk result (λ sizes. sizes.items ≡ flat_map sizes_of ranges.now) }
{
    let mut sizes = Vec::new(alloc);
    for ranged in ranges {
        push_sizes(&mut sizes, ranged)?;
    }
    Ok(sizes)
}

// Puts the sizes of the two ends of a range at the end.
fn push_sizes(sizes: &mut Vec<u64>, ranged: &Ranged) -> Result<(), NoMemory>
    ensures { OnOk result (sizes.new.items ≡ sizes.old.items ++ sizes_of ranged.now) }
{
    push_size(sizes, ranged.range.low())?;
    push_size(sizes, ranged.range.high())
}

// Puts the size of an end at the end, if it is a number other than 0.
fn push_size(sizes: &mut Vec<u64>, end: Option<i64>) -> Result<(), NoMemory>
    ensures { OnOk result (sizes.new.items ≡ sizes.old.items ++ end_sizes end) }
{
    if let Some(value) = end {
        let size = value.unsigned_abs();
        if size != 0 {
            sizes.push(size)?;
        }
    }
    Ok(())
}
