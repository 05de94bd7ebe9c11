//! Drawing a design.

ghost use Rattle.std.specs.Prelude.{◌≡◌, ◌≤◌, ◌*◌, IfOk, IsErrOf, IsOk, length};
ghost use Rattle.itv_base.specs.declared.limits.TheConstants.{MAX_CONSTRAINTS, MAX_EVENTS, MAX_ROWS};
ghost use Rattle.itv_base.specs.Reading.{AgreesWith};
ghost use Rattle.compose.specs.Numbers.{mark_count};
ghost use Rattle.unroll.specs.Cycle.{rows_of, rules_of};
ghost use Rattle.unroll.specs.Drawn.{drawn_of};
ghost use Rattle.unroll.specs.Limits.{unrolled};
ghost use Rattle.unroll.specs.Fault.{is_memory};
ghost use Rattle.unroll.specs.Step.Kept.{kept_rows, kept_rules};

use crate::asked::rows_of;
use crate::counted::{Counted, first_passed};
use crate::counts::Counts;
use crate::fault::UnrollFault;
use crate::names::labels_of;
use crate::network::network_of;
use crate::numbered_design::NumberedDesign;
use crate::origins::origins_of;
use crate::row::rows_in;
use crate::rules::rules_of;
use compose::Design;
use drawn_networks::DrawnNetwork;
use itv_base::{NoMemory, copied_texts};
use sheet::{Rule, SheetRow};
use std::alloc::Global;

/// What a design draws, cycle by cycle: its events, its constraints and its rows. If this passes a limit, the answer is the first
/// limit that it passes, with the count. All counts come before any memory is taken. So the time to refuse a design that passes a
/// limit grows as the design itself.
///
/// `NoMemory` may come in place of what is drawn, but not in place of a limit that is passed. Nothing is kept of it after a refusal.
pub fn unroll(alloc: Global, design: &Design<'_>) -> Result<DrawnNetwork, UnrollFault>
    ensures answer { AgreesWith is_memory (λ drawn. drawn) result (unrolled design.now) }
    ensures memory { IsErrOf result UnrollFault.NoMemory → IsOk (unrolled design.now) }
{
    let counts = Counts::of(design);
    if let Some(passed) = first_passed(design.cycles(), counts) {
        return Err(too_many(passed));
    }
    Ok(draw(alloc, design, counts.marks as u32)?)
}

// The refusal by a limit that a design passes.
fn too_many(passed: Counted) -> UnrollFault
    ensures { result ≡ UnrollFault.TooMany passed.limit passed.count }
{
    UnrollFault::TooMany {
        limit: passed.limit,
        count: passed.count,
    }
}

// What a design draws, if it passes no limit.
fn draw(alloc: Global, design: &Design<'_>, marks: u32) -> Result<DrawnNetwork, NoMemory>
    requires marks { marks ≡ mark_count design.now.sheets }
    requires events { design.now.cycles * marks ≤ MAX_EVENTS }
    requires constraints { length (drawn_of design.now).net.constraints ≤ MAX_CONSTRAINTS }
    requires rows { length (drawn_of design.now).rows ≤ MAX_ROWS }
    ensures { IfOk result (λ drawn. drawn ≡ drawn_of design.now) }
{
    // A design has a cycle, so its marks are no more than its events.
    let _cycles = design.cycles();
    let numbered = NumberedDesign::new(alloc, design)?;
    let rules = rules_of(alloc, &numbered)?;
    let asked = rows_of(alloc, &numbered)?;
    let drawn = draw_kept(alloc, design, marks, &rules, &asked);
    drop(asked);
    drop(rules);
    drop(numbered);
    drawn
}

// What a design draws, by its rules and rows that exist in some cycle.
fn draw_kept(
    alloc: Global,
    design: &Design<'_>,
    marks: u32,
    rules: &[Rule],
    asked: &[SheetRow],
) -> Result<DrawnNetwork, NoMemory>
    requires marks { marks ≡ mark_count design.now.sheets }
    requires events { design.now.cycles * marks ≤ MAX_EVENTS }
    requires constraints { length (drawn_of design.now).net.constraints ≤ MAX_CONSTRAINTS }
    requires rows { length (drawn_of design.now).rows ≤ MAX_ROWS }
    requires kept { rules.now ≡ kept_rules design.now.cycles (rules_of design.now) }
    requires asked { asked.now ≡ kept_rows design.now.cycles (rows_of design.now) }
    ensures { IfOk result (λ drawn. drawn ≡ drawn_of design.now) }
{
    let cycles = design.cycles();
    let rows = rows_in(alloc, marks, cycles, asked)?;
    let labels = labels_of(alloc, design)?;
    let parts = copied_texts(alloc, design.parts())?;
    let origins = origins_of(alloc, cycles, rules)?;
    let network = network_of(alloc, marks, cycles, rules)?;
    Ok(DrawnNetwork::of(network, origins, parts, labels, rows))
}
