//! How many warnings the drawing of a design has.

ghost use Rattle.std.specs.Prelude.{◌≡◌, Ok};
ghost use Rattle.compose.specs.Compose.{composed_on};
ghost use Rattle.design_plan.specs.Plan.{sheets_on};

use compose::{Design, SheetKey, compose};
use design_plan::Plan;
use itv_base::NoMemory;
use job_lint::is_warning_meant;
use lint::printed_warnings;
use refusal_hints::Hint;
use std::alloc::Global;

// The most edges and pins of a design whose warnings are counted.
const MOST_DRAWN: u64 = 2_000;

/// Puts how many warnings of the drawing job lint has of a plan, if it has any. These need no search. Of a very large design nothing is said.
pub fn put_warnings(hint: &mut Hint, design: &str, plan: &Plan) {
    match count_warnings(hint.alloc(), plan) {
        Ok(0) => {}
        Ok(count) => put_count(hint, design, count),
        Err(NoMemory) => hint.cut(),
    }
}

// How many warnings there are.
fn put_count(hint: &mut Hint, design: &str, count: u64) {
    hint.begin();
    hint.put("the drawing has ");
    if count == 1 {
        hint.put("a warning");
    } else {
        hint.put_number(count);
        hint.put(" warnings");
    }
    hint.put(": itv --job lint ");
    hint.put_plain(design);
}

// The warnings of a plan that are not meant, if the plan is not too large to be looked at.
fn count_warnings(alloc: Global, plan: &Plan) -> Result<u64, NoMemory> {
    if MOST_DRAWN < drawn_by(alloc, plan)? {
        return Ok(0);
    }
    match compose(alloc, plan.netlist(), plan.sheets()) {
        Ok(design) => {
            let count = count_in(alloc, plan, &design);
            drop(design);
            count
        }
        Err(_) => Ok(0),
    }
}

// How many edges and pins a plan has, over all parts.
fn drawn_by(alloc: Global, plan: &Plan) -> Result<u64, NoMemory> {
    let mut drawn = plan.netlist().edges().len();
    for net in plan.netlist().nets().as_slice() {
        drawn = drawn.saturating_add(net.pins().len());
    }
    for part in plan.netlist().parts().as_slice() {
        let key = SheetKey::of(alloc, part)?;
        if let Some(sheet) = plan.sheets().get(&key) {
            drawn = drawn.saturating_add(sheet.edges().len());
        }
    }
    Ok(drawn)
}

fn count_in(alloc: Global, plan: &Plan, design: &Design<'_>) -> Result<u64, NoMemory>
    requires design { composed_on plan.now.netlist (sheets_on plan.now.sheets plan.now.netlist.parts) ≡ Ok design.now }
{
    let warnings = printed_warnings(alloc, plan, design)?;
    let mut count = 0u64;
    for warning in &warnings {
        if !is_warning_meant(plan, design, warning) {
            count = count.saturating_add(1);
        }
    }
    Ok(count)
}
