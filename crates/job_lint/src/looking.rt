//! Warnings of periods that a search decides.

ghost use Rattle.std.specs.Prelude.{◌≤◌};
ghost use Rattle.itv_base.specs.declared.limits.TheConstants.{MAX_BUDGET};

use crate::driven_periods::{is_followed, without_idle};
use crate::own_periods::{may_count, push_own_periods};
use compose::Design;
use drawn_networks::DrawnNetwork;
use explanations::explain;
use itv_base::NoMemory;
use lint::Warning;
use std::alloc::Global;

/// The warnings of a drawing after a search of its rows: without those of marks that follow a clock, where their own period would change nothing, and with
/// those of requirements that count a period of their first mark in. Nothing is searched if neither can be. The answer is `NoMemory` if memory runs out.
pub fn look_at_periods(
    alloc: Global,
    warnings: &[Warning],
    drawn: &DrawnNetwork,
    design: &Design<'_>,
    budget: u64,
) -> Result<Vec<Warning>, NoMemory>
    requires least { 1 ≤ budget }
    requires most { budget ≤ MAX_BUDGET }
{
    if !warnings.iter().any(|warning| is_followed(warning)) && !may_count(drawn) {
        return Ok(Vec::from_slice(alloc, warnings)?);
    }
    let found = explain(alloc, drawn, budget)?;
    let mut heard = without_idle(alloc, warnings, &found.rows, drawn, design, budget)?;
    push_own_periods(&mut heard, &found.rows, drawn, design)?;
    Ok(heard)
}
