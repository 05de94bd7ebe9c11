//! What is found of a design.

use crate::by_order::ByOrder;
use crate::row_seen::RowSeen;
use narrow_ends::RangeEnd;

/// What is found of a design.
#[derive(Drop)]
pub enum LintFound {
    /// Some times satisfy it: what is found of the ends of its ranges, and of its rows. If no constraint keeps the order of a lane, there are no rows.
    Consistent {
        ends: Vec<RangeEnd>,
        rows: Vec<RowSeen>,
    },
    /// No times satisfy it: whether that is so because of the order of lanes alone.
    Inconsistent(ByOrder),
    /// The search for times was left open.
    Open,
}
