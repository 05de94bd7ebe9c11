//! What is found of a row.

use crate::bound::SettledBound;

/// What is found of a row.
#[derive(Drop)]
pub struct RowFound {
    pub greatest: SettledBound,
    pub least: SettledBound,
    /// Times that break the requirement, in picoseconds, one per event, with the from-event at 0. Empty if no requirement is broken.
    pub past: Vec<i64>,
}
