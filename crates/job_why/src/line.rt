//! The lines that only this job writes, or that it writes with more words than other jobs do.

use crate::drawn_by::DrawnBy;
use itv_base::{EventName, Range, RowKind, RuleKind};
use requirements::{BothBounds, Verdict};

/// A line of the text. Weights, bounds and ranges are in picoseconds. Rows are counted from 0.
#[derive(Clone, Copy)]
pub enum Line<'a> {
    /// A step from an event to an event, with its weight and what draws its edge.
    Step {
        from: EventName<'a>,
        to: EventName<'a>,
        weight: i64,
        by: DrawnBy<'a>,
    },
    /// An event that can be raised by any number, together with the others of its set.
    Raise(EventName<'a>),
    /// Both bounds without the order of lanes, and the verdict according to these bounds.
    Order {
        both: BothBounds,
        word: Verdict,
    },
    /// What is asked of a row, and what draws it.
    Row {
        number: u32,
        kind: RowKind,
        from: EventName<'a>,
        to: EventName<'a>,
        by: DrawnBy<'a>,
    },
    /// A cause of a constraint, and what draws it.
    Rule {
        kind: RuleKind,
        from: EventName<'a>,
        to: EventName<'a>,
        range: Range,
        by: DrawnBy<'a>,
    },
}
