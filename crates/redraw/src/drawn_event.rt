//! The events of a drawing: when they come, and where they stand.

use itv_base::EventId;

/// The greatest number of events in a drawing: there are as many marks.
pub const MOST_DRAWN: usize = 93;

/// An event and its time in picoseconds.
#[derive(Clone, Copy)]
pub struct Timed {
    pub event: EventId,
    pub time: i64,
}

/// An event of a drawing: its number in the order of time, counted from 0, the place at which its lane rises, counted from 1, and
/// its drawn time in picoseconds.
#[derive(Clone, Copy)]
pub struct DrawnEvent {
    pub event: EventId,
    pub number: u32,
    pub place: u32,
    pub time: i64,
}
