//! How far the rows of a design look back.

ghost use Rattle.std.specs.Prelude.{◌<◌, ◌↔◌, All, IsTrue};
ghost use Rattle.sheet.specs.declared.row.SheetRow.{SheetRow};
ghost use Rattle.unroll.specs.Cycle.{part_rows};
ghost use Rattle.unroll.specs.Reach.{ReachesNoFurther};

use compose::Design;
use sheet::SheetRow;

/// Whether each row of a design exists in one of its cycles. Then what passes over these cycles passes over every greater number of
/// cycles.
pub fn reaches_no_further(design: &Design<'_>) -> bool
    ensures reaches { IsTrue result ↔ ReachesNoFurther design.now.cycles design.now }
{
    parts_reach_no_further(design)
        && rows_reach_no_further(design.wire_rows().as_slice(), design.cycles())
}

// Whether each row of the sheets of the parts exists in one of the cycles.
fn parts_reach_no_further(design: &Design<'_>) -> bool
    ensures { IsTrue result ↔ All (λ (row : SheetRow). row.shift < design.now.cycles) (part_rows 0 design.now.sheets) }
{
    // There are few parts, and each has a sheet.
    let cycles = design.cycles();
    let parts = design.parts().len() as u32;
    for part in 0..parts {
        if !rows_reach_no_further(design.sheet_of(part).rows().as_slice(), cycles) {
            return false;
        }
    }
    true
}

// Whether each of some rows exists in one of so many cycles.
fn rows_reach_no_further(rows: &[SheetRow], cycles: u32) -> bool
    ensures { IsTrue result ↔ All (λ (row : SheetRow). row.shift < cycles) rows.now }
{
    rows.iter().all(|row| row.shift < cycles)
}
