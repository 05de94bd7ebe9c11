//! The lines of this job.

use crate::judged::Judged;
use crate::row_counts::RowCounts;
use itv_base::{EventName, RowKind};
use job_why::DrawnBy;
use requirements::BothBounds;

/// What the line of a run of rows says of its first row, with the cycle of its last row. Bounds are in picoseconds, and rows have their numbers from 0.
#[derive(Clone, Copy)]
pub struct RowLine<'a> {
    /// The line is a line of a table.
    pub csv: bool,
    pub number: u32,
    pub kind: RowKind,
    pub from: EventName<'a>,
    pub to: EventName<'a>,
    pub both: BothBounds,
    /// The judgement of a requirement, or `None` for an ask.
    pub judged: Option<Judged>,
    /// What draws the row.
    pub by: DrawnBy<'a>,
    /// The verdict rests on the order of a lane.
    pub rests_on_order: bool,
    pub last_cycle: u32,
}

/// A line of the text.
#[derive(Clone, Copy)]
pub enum Line<'a> {
    /// A run of rows.
    Row(RowLine<'a>),
    /// How many rows there are.
    Counts(RowCounts),
}
