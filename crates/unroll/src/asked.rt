//! The rows of one cycle of a design, by the numbers of its marks.

ghost use Rattle.std.specs.Prelude.{◌≡◌, ◌≤◌, ◌++◌, ◌∷◌, [], All, IfOk, OnOk, map};
ghost use Rattle.itv_base.specs.declared.limits.TheConstants.{MAX_EVENTS};
ghost use Rattle.unroll.specs.Cycle.{part_rows, row_behind, rows_of};
ghost use Rattle.unroll.specs.Step.Between.{IsRowBetween};
ghost use Rattle.unroll.specs.Step.Kept.{kept_rows};

use crate::numbered_design::NumberedDesign;
use itv_base::{NoMemory, RowKind};
use origin::Origin;
use sheet::SheetRow;
use std::alloc::Global;

/// The rows of a design that exist in some cycle: the rows of the parts, and then of the wires.
pub fn rows_of(alloc: Global, design: &NumberedDesign<'_>) -> Result<Vec<SheetRow>, NoMemory>
    ensures { IfOk result (λ rows. rows.items ≡ kept_rows design.now.cycles (rows_of design.now)) }
{
    let mut rows = Vec::new(alloc);
    keep_parts(&mut rows, design)?;
    keep_wires(&mut rows, design)?;
    Ok(rows)
}

// Puts a row at the end, if it exists in some cycle.
fn keep(rows: &mut Vec<SheetRow>, cycles: u32, row: SheetRow) -> Result<(), NoMemory>
    requires { 1 ≤ cycles }
    ensures { OnOk result (rows.new.items ≡ rows.old.items ++ kept_rows cycles (row ∷ [])) }
{
    if row.shift < cycles {
        let kind: RowKind = row.kind;
        let origin: Origin = row.origin;
        rows.push(SheetRow {
            kind,
            origin,
            ..row
        })?;
    }
    Ok(())
}

// ---- parts

// Puts the rows of the parts at the end.
fn keep_parts(rows: &mut Vec<SheetRow>, design: &NumberedDesign<'_>) -> Result<(), NoMemory>
    ensures { OnOk result (rows.new.items
        ≡ rows.old.items ++ kept_rows design.now.cycles (part_rows 0 design.now.sheets)) }
{
    let parts = design.design().parts().len() as u32;
    let cycles = design.design().cycles();
    for part in 0..parts {
        let first = design.first_of(part);
        let sheet = design.design().sheet_of(part);
        keep_rows(rows, cycles, first, sheet.rows().as_slice())?;
    }
    Ok(())
}

// Puts the rows of a sheet at the end, if they exist in some cycle. The first mark of the sheet has the number `first`.
fn keep_rows(
    rows: &mut Vec<SheetRow>,
    cycles: u32,
    first: u32,
    more: &[SheetRow],
) -> Result<(), NoMemory>
    requires cycles { 1 ≤ cycles }
    requires between { All (IsRowBetween MAX_EVENTS) more.now }
    requires first { first ≤ MAX_EVENTS }
    ensures { OnOk result (rows.new.items
        ≡ rows.old.items ++ kept_rows cycles (map (row_behind first) more.now)) }
{
    for row in more {
        keep(rows, cycles, row_behind(first, row))?;
    }
    Ok(())
}

fn row_behind(first: u32, row: &SheetRow) -> SheetRow
    requires between { IsRowBetween MAX_EVENTS row.now }
    requires first { first ≤ MAX_EVENTS }
    ensures { result ≡ row_behind first row.now }
{
    SheetRow {
        kind: row.kind,
        from: first + row.from,
        to: first + row.to,
        shift: row.shift,
        origin: row.origin,
    }
}

// ---- wires

// Puts the rows of the wires at the end. They are between the marks of the design already.
fn keep_wires(rows: &mut Vec<SheetRow>, design: &NumberedDesign<'_>) -> Result<(), NoMemory>
    ensures { OnOk result (rows.new.items ≡ rows.old.items ++ kept_rows design.now.cycles design.now.rows) }
{
    let cycles = design.design().cycles();
    let wires = design.design().wire_rows().as_slice();
    keep_rows(rows, cycles, 0, wires)
}
