//! The rows of a drawn network.

ghost use Rattle.std.specs.Prelude.{◌≡◌, ◌≤◌, ◌+◌, ◌*◌, ◌++◌, All, IfOk, OnOk};
ghost use Rattle.std.specs.List.{filter_map};
ghost use Rattle.std.specs.Option.{option_to_list};
ghost use Rattle.itv_base.specs.declared.limits.TheConstants.{MAX_EVENTS};
ghost use Rattle.unroll.specs.Cycles.{row_in, rows_in};
ghost use Rattle.unroll.specs.Step.Between.{IsRowBetween};

use crate::network::event_in;
use drawn_networks::{Row, Rows};
use itv_base::{NoMemory, RowKind};
use origin::Origin;
use sheet::SheetRow;
use std::alloc::Global;

/// The rows in so many cycles, with so many marks in each.
pub fn rows_in(alloc: Global, marks: u32, cycles: u32, asked: &[SheetRow]) -> Result<Rows, NoMemory>
    requires between { All (IsRowBetween marks) asked.now }
    requires events { cycles * marks ≤ MAX_EVENTS }
    ensures { IfOk result (λ rows. rows ≡ rows_in marks asked.now cycles) }
{
    let mut rows = Rows::new(alloc);
    for cycle in 0..cycles {
        push_cycle(&mut rows, marks, cycle, asked)?;
    }
    Ok(rows)
}

// Puts the rows in a cycle at the end.
fn push_cycle(rows: &mut Rows, marks: u32, cycle: u32, asked: &[SheetRow]) -> Result<(), NoMemory>
    requires between { All (IsRowBetween marks) asked.now }
    requires events { (cycle + 1) * marks ≤ MAX_EVENTS }
    ensures { OnOk result (rows.new ≡ rows.old ++ filter_map (row_in marks cycle) asked.now) }
{
    for row in asked {
        push_row(rows, marks, cycle, row)?;
    }
    Ok(())
}

// Puts a row in a cycle at the end, if it exists there.
fn push_row(rows: &mut Rows, marks: u32, cycle: u32, row: &SheetRow) -> Result<(), NoMemory>
    requires between { IsRowBetween marks row.now }
    requires events { (cycle + 1) * marks ≤ MAX_EVENTS }
    ensures { OnOk result (rows.new ≡ rows.old ++ option_to_list (row_in marks cycle row.now)) }
{
    if cycle < row.shift {
        return Ok(());
    }
    let kind: RowKind = row.kind;
    let origin: Origin = row.origin;
    rows.push(Row {
        kind,
        from: event_in(marks, cycle - row.shift, row.from),
        to: event_in(marks, cycle, row.to),
        origin,
    })
}
