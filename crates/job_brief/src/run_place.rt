//! Runs of rows by their places.

use crate::row_rank::RowRank;

/// Where a run of rows stands among others: the rank of its first row, and the number of its last row. They are one row if the run has only one.
#[derive(Clone, Copy)]
pub struct RunPlace {
    pub first: RowRank,
    pub last: u32,
}
