//! Where a report stands between two lines.

use crate::words::Which;

/// A row of a report: the number of events, the number of the next row, how many rows are left after this one, and
/// whether this row is a requirement.
#[derive(Clone, Copy)]
pub struct Spot {
    pub events: u32,
    pub next: u32,
    pub left: u32,
    pub is_required: bool,
}

/// Where a report stands: before the line that gives the place its name. A place keeps how many events or rows are
/// left, so that lines lead from each place to the end.
#[derive(Clone, Copy)]
pub enum Place {
    Heading,
    Budget,
    Events,
    /// Before the event with this number. `more` events come after it.
    Event {
        events: u32,
        number: u32,
        more: u32,
    },
    /// Before the finding and the lines of its proof.
    Finding {
        events: u32,
    },
    /// Before the times that satisfy.
    FoundTimes {
        events: u32,
    },
    Rows {
        events: u32,
    },
    /// Before the row with this number. `more` rows come after it.
    Row {
        events: u32,
        number: u32,
        more: u32,
    },
    /// Before a bound of a row and the lines of its proof.
    Bound {
        spot: Spot,
        which: Which,
    },
    /// Before the times of a bound. If `raises`, a set of events to raise comes after them.
    Times {
        spot: Spot,
        which: Which,
        raises: bool,
    },
    Raise {
        spot: Spot,
        which: Which,
    },
    Verdict {
        spot: Spot,
    },
    /// Before the times that break a requirement.
    FailTimes {
        spot: Spot,
    },
    Slack {
        spot: Spot,
    },
    End,
    /// After the last line.
    Nothing,
}
