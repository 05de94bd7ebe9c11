//! The lines between the heading and the end.

use crate::drawn_at::DrawnAt;
use itv_base::Side;
use lint::{DrawnPlace, Warning};

/// A line. Numbers of rows count from 0, and times are in picoseconds.
#[derive(Clone, Copy)]
pub enum Line {
    /// A warning of the drawing.
    Drawing(Warning),
    /// A rule or a row is in no cycle.
    Never(DrawnPlace),
    /// No times attain the end of a range on this side. `weight` is the end, or minus the end on the low side. `only` is how far the separation comes,
    /// in the same way.
    Narrow {
        at: DrawnAt,
        side: Side,
        weight: i64,
        only: i64,
    },
    /// The answer of the row rests on the order of a lane.
    Order {
        number: u64,
        at: DrawnAt,
    },
    /// A search for the row was left open.
    OpenRow {
        number: u64,
        at: DrawnAt,
    },
    /// No times satisfy the design.
    Contradiction,
    /// No times satisfy the design, and without the order of lanes some do.
    OrderContradicts,
    /// The search for times was left open, or whether the order of lanes contradicts the other rules.
    Open,
    /// So many ends of ranges were left open.
    OpenEnds(u64),
}
