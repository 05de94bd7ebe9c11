//! The design of a plan.

ghost use Rattle.std.specs.Prelude.{◌≡◌, IfOk, IsOk, Ok};
ghost use Rattle.compose.specs.Compose.{composed_on};
ghost use Rattle.design_plan.specs.Plan.{sheets_on};

use compose::{Design, JoinFault, compose};
use design_plan::Plan;
use itv_base::NoMemory;
use std::alloc::Global;

/// The design of a plan. The plan has one.
pub fn design_of(alloc: Global, plan: &Plan) -> Result<Design<'_>, NoMemory>
    requires design { IsOk (composed_on plan.now.netlist (sheets_on plan.now.sheets plan.now.netlist.parts)) }
    ensures design { IfOk result (λ design. composed_on plan.now.netlist (sheets_on plan.now.sheets plan.now.netlist.parts) ≡ Ok design) }
{
    match compose(alloc, plan.netlist(), plan.sheets()) {
        Ok(design) => Ok(design),
        Err(JoinFault::NoMemory) => Err(NoMemory),
        Err(_) => unreachable!(),
    }
}
