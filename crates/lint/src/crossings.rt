//! Rows that are between cycles.

ghost use Rattle.std.specs.Prelude.{◌≡◌, ◌++◌, IfOk, OnOk};
ghost use Rattle.std.specs.List.{flat_map};
ghost use Rattle.lint.specs.Leads.{crossings_of, row_crossings, sheet_crossings};
ghost use Rattle.lint.specs.Lists.{each_from};

use crate::asked::part_count;
use crate::home::Home;
use compose::{Design, DesignMark};
use itv_base::NoMemory;
use sheet::SheetRow;
use std::alloc::Global;

/// The two marks of a row that is between cycles: the mark `to` is in a later cycle than the mark `from`.
#[derive(Clone, Copy)]
pub struct Crossing {
    pub from: DesignMark,
    pub to: DesignMark,
}

/// The crossings of a design: of the rows of the sheets, and then of the wires.
pub fn crossings_of(alloc: Global, design: &Design<'_>) -> Result<Vec<Crossing>, NoMemory>
    ensures crossings { IfOk result (λ crossings. crossings.items ≡ crossings_of design.now) }
{
    let mut crossings = Vec::new(alloc);
    push_sheets(&mut crossings, design)?;
    push_rows(
        &mut crossings,
        Home::Netlist,
        design.wire_rows().as_slice(),
        design,
    )?;
    Ok(crossings)
}

// Puts the crossings of the rows of the sheets at the end.
fn push_sheets(crossings: &mut Vec<Crossing>, design: &Design<'_>) -> Result<(), NoMemory>
    ensures pushed { OnOk result (crossings.new.items ≡ crossings.old.items ++ each_from (sheet_crossings design.now.sheets) 0 design.now.sheets) }
{
    for part in 0..part_count(design) {
        push_rows(
            crossings,
            Home::Sheet(part),
            design.sheet_of(part).rows().as_slice(),
            design,
        )?;
    }
    Ok(())
}

// Puts the crossings of some rows at the end.
fn push_rows(
    crossings: &mut Vec<Crossing>,
    home: Home,
    rows: &[SheetRow],
    design: &Design<'_>,
) -> Result<(), NoMemory>
    ensures pushed { OnOk result (crossings.new.items ≡ crossings.old.items ++ flat_map (row_crossings design.now.sheets home) rows.now) }
{
    for row in rows {
        push_row(crossings, home, row, design)?;
    }
    Ok(())
}

// Puts the crossing of a row at the end, if the row is between cycles.
fn push_row(
    crossings: &mut Vec<Crossing>,
    home: Home,
    row: &SheetRow,
    design: &Design<'_>,
) -> Result<(), NoMemory>
    ensures pushed { OnOk result (crossings.new.items ≡ crossings.old.items ++ row_crossings design.now.sheets home row.now) }
{
    if 1 <= row.shift {
        let from = home.mark(row.from, design);
        let to = home.mark(row.to, design);
        crossings.push(Crossing { from, to })?;
    }
    Ok(())
}
