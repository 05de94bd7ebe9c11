//! Whether numbers that move as one can be drawn.

ghost use Rattle.std.specs.Prelude.{◌↔◌, IfOk, IsTrue};
ghost use Rattle.moves.specs.Moving.{shifted_at};
ghost use Rattle.moves.specs.Passing.{HasDrawableRanges};
ghost use Rattle.moves.specs.Step.{IsMoveBy, lent};

use crate::moving::{Move, moved_network};
use crate::rows::moved_rows;
use drawn_networks::DrawnNetwork;
use drawn_numbers::DrawnNumber;
use itv_base::NoMemory;
use std::alloc::Global;

/// Whether each range that one of some numbers draws can be drawn with both ends moved up by a number of picoseconds.
pub fn can_shift(
    alloc: Global,
    drawn: &DrawnNetwork,
    numbers: &[&DrawnNumber],
    by: i64,
) -> Result<bool, NoMemory>
    requires by { IsMoveBy by }
    ensures can { IfOk result (λ can. IsTrue can ↔ HasDrawableRanges (shifted_at drawn.now (lent numbers.now) by) (lent numbers.now)) }
{
    let by = Move::Shift(by);
    if moved_network(alloc, drawn, numbers, by)?.is_none() {
        return Ok(false);
    }
    Ok(moved_rows(alloc, drawn, numbers, by)?.is_some())
}
