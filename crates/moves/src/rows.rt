//! Rows in which the ranges of numbers are moved.

ghost use Rattle.std.specs.Prelude.{◌≡◌, ◌≤◌, ◌↔◌, All, IfOk, IfSome, IsSome, IsTrue, length, map};
ghost use Rattle.itv_base.specs.declared.limits.TheConstants.{MAX_ROWS};
ghost use Rattle.drawn_networks.specs.Drawn.{IsRowOf, name_of};
ghost use Rattle.moves.specs.Moving.{any_draws, kind_moved, row_moved};
ghost use Rattle.moves.specs.Passing.{HasDrawableRows, IsKindRange};
ghost use Rattle.moves.specs.Step.{IsMove, lent, moved_by};

use crate::moving::{Move, any_draws, moved_range};
use drawn_networks::{DrawnNetwork, Row};
use drawn_numbers::DrawnNumber;
use itv_base::{NoMemory, RowKind};
use std::alloc::Global;

/// The rows of a drawn network, with each range of a requirement moved that one of the numbers draws. The answer is `None` if a range can't be drawn.
pub fn moved_rows(
    alloc: Global,
    drawn: &DrawnNetwork,
    numbers: &[&DrawnNumber],
    by: Move,
) -> Result<Option<Vec<Row>>, NoMemory>
    requires by { IsMove by }
    ensures rows { IfOk result (λ moved. IfSome moved (λ rows. rows.items ≡ map (row_moved (moved_by by) drawn.now (lent numbers.now)) drawn.now.rows)) }
    ensures ranges { IfOk result (λ moved. IsSome moved
        ↔ HasDrawableRows (record drawn.now { rows = map (row_moved (moved_by by) drawn.now (lent numbers.now)) drawn.now.rows }) (lent numbers.now)) }
    ensures within { IfOk result (λ moved. IfSome moved (λ rows. All (IsRowOf drawn.now.net) rows.items)) }
    ensures few { IfOk result (λ moved. IfSome moved (λ rows. length rows.items ≤ MAX_ROWS)) }
{
    let drawn_rows = drawn.rows();
    let mut rows = Vec::new(alloc);
    for k in 0..drawn_rows.len() {
        match moved_row(drawn, numbers, drawn_rows.get(k), by) {
            None => return Ok(None),
            Some(row) => {
                let _kind: RowKind = row.kind;
                rows.push(row)?;
            }
        }
    }
    Ok(Some(rows))
}

// A row, with the range of its requirement moved if one of the numbers draws it.
fn moved_row(drawn: &DrawnNetwork, numbers: &[&DrawnNumber], row: &Row, by: Move) -> Option<Row>
    requires by { IsMove by }
    requires row { IsRowOf drawn.now.net row.now }
    ensures row { IfSome result (λ moved. moved ≡ row_moved (moved_by by) drawn.now (lent numbers.now) row.now) }
    ensures ranges { IsSome result
        ↔ (IsTrue (any_draws (lent numbers.now) (name_of drawn.now row.now.from).part row.now.origin) → IsKindRange (kind_moved (moved_by by) row.now.kind)) }
{
    if !any_draws(numbers, drawn.name(row.from).part, row.origin) {
        return Some(*row);
    }
    match moved_kind(row.kind, by) {
        None => None,
        Some(kind) => Some(Row {
            kind,
            from: row.from,
            to: row.to,
            origin: row.origin,
        }),
    }
}

// What is wanted, with its range moved.
fn moved_kind(kind: RowKind, by: Move) -> Option<RowKind>
    requires by { IsMove by }
    ensures kind { IfSome result (λ moved. moved ≡ kind_moved (moved_by by) kind) }
    ensures ranges { IsSome result ↔ IsKindRange (kind_moved (moved_by by) kind) }
{
    match kind {
        RowKind::Ask => Some(RowKind::Ask),
        RowKind::Req(range) => match moved_range(range, by) {
            None => None,
            Some(range) => Some(RowKind::Req(range)),
        },
    }
}
