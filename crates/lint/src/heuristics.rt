//! Warnings that no definition describes, and definitions' warnings that are noise. They are hints: nobody relies on one as true, so tests try them, with
//! drawings on which each is printed and drawings on which it is not.

ghost use Rattle.std.specs.Prelude.{◌≡◌, Ok};
ghost use Rattle.compose.specs.Compose.{composed_on};
ghost use Rattle.design_plan.specs.Plan.{sheets_on};

use crate::again::push_again;
use crate::all::warnings_of;
use crate::arrows::push_arrows;
use crate::before::push_before;
use crate::delays::push_delays;
use crate::itself::push_itself;
use crate::kinds::push_kinds;
use crate::lead::Lead;
use crate::leads::leads_of;
use crate::noise::without_noise;
use crate::set_up::push_set_up;
use crate::tied::push_tied;
use crate::warning::Warning;
use crate::waves::push_waves;
use compose::Design;
use design_plan::Plan;
use itv_base::NoMemory;
use std::alloc::Global;

/// The warnings that are printed of a design and of the plan that it was composed of: those of the definitions without those that are noise, and then those
/// that no definition describes. The answer is `NoMemory` if memory runs out.
pub fn printed_warnings(
    alloc: Global,
    plan: &Plan,
    design: &Design<'_>,
) -> Result<Vec<Warning>, NoMemory>
    requires design { composed_on plan.now.netlist (sheets_on plan.now.sheets plan.now.netlist.parts) ≡ Ok design.now }
{
    let leads = leads_of(alloc, design)?;
    let given = warnings_of(alloc, plan, design)?;
    let mut warnings = without_noise(alloc, &given, &leads, design)?;
    push_heuristics(alloc, &mut warnings, &leads, plan, design)?;
    Ok(warnings)
}

// Puts the warnings that no definition describes at the end, in the order of this list. The leads are those of the design.
fn push_heuristics(
    alloc: Global,
    warnings: &mut Vec<Warning>,
    leads: &[Lead],
    plan: &Plan,
    design: &Design<'_>,
) -> Result<(), NoMemory> {
    push_arrows(warnings, design)?;
    push_again(alloc, warnings, plan, design)?;
    push_waves(warnings, design)?;
    push_kinds(warnings, leads, design)?;
    push_itself(warnings, design)?;
    push_delays(alloc, warnings, leads, plan, design)?;
    push_before(alloc, warnings, design)?;
    push_tied(alloc, warnings, leads)?;
    push_set_up(alloc, warnings, leads, design)
}
