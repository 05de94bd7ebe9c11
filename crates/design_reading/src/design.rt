//! Reading a design.

ghost use Rattle.design_reading.specs.Design.{design_at, drawn_at};
ghost use Rattle.design_reading.specs.Step.{Opens, ReadsAs};

use crate::planning::open_plan;
use crate::refusal_place::RefusalPlace;
use crate::stop::{Stop, join_stop, limit_stop};
use compose::compose;
use design_plan::Plan;
use drawn_networks::DrawnNetwork;
use itv_base::Shelf;
use std::alloc::Global;
use unroll::unroll;

/// What the design of a file draws.
///
/// [`open_plan`] reads the plan of the design. After all files come the joins of the design, and then its limits. The first refusal ends the
/// reading. A fetch that failed ends the reading where it stands, and the shelf keeps the name of the file.
///
/// `NoMemory` may come in place of any answer. `NoMemory` and a refusal leave the shelf as it was.
pub fn open_design<H: Shelf>(alloc: Global, name: &str, shelf: &mut H) -> Result<DrawnNetwork, Stop>
    ensures opens { Opens (λ drawn. drawn) (H.state shelf.old) (H.state shelf.new)
        (design_at name.now) result }
{
    let plan = open_plan(alloc, name, shelf)?;
    let drawn = draw_plan(alloc, &plan);
    drop(plan);
    drawn
}

/// What a plan draws, or the first fault of its joins, or else the first limit that it passes.
///
/// `NoMemory` may come in place of any answer.
pub fn draw_plan(alloc: Global, plan: &Plan) -> Result<DrawnNetwork, Stop>
    ensures draws { ReadsAs (λ drawn. drawn) (drawn_at plan.now.netlist plan.now.sheets) result }
{
    let design = match compose(alloc, plan.netlist(), plan.sheets()) {
        Ok(design) => design,
        Err(fault) => return Err(join_stop(RefusalPlace::Design, fault)),
    };
    let unrolled = unroll(alloc, &design);
    drop(design);
    match unrolled {
        Ok(drawn) => Ok(drawn),
        Err(fault) => Err(limit_stop(RefusalPlace::Design, fault)),
    }
}
