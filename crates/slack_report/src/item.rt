//! The lines of a report.

use crate::words::{EndWord, Which};
use event_graph::Line;
use itv_base::{EventName, RowKind};
use requirements::{Bound, Consistency, Slack, Verdict};

/// A line of a report. Times, bounds and slacks are in picoseconds. Events and rows are counted from 0.
#[derive(Clone, Copy)]
pub enum Item<'a> {
    /// The line that begins a report.
    Heading,
    /// How many cases a search may close.
    Budget {
        budget: u64,
    },
    /// How many events there are.
    Events {
        count: u32,
    },
    /// The name of an event.
    Event {
        number: u32,
        name: EventName<'a>,
    },
    /// A line of the proof of the finding or of the bound that comes next.
    Proof(Line<'a>),
    /// Whether some times satisfy the network.
    Finding(Consistency),
    /// The time of each event.
    Times(&'a [i64]),
    /// How many rows there are.
    Rows {
        count: u32,
    },
    /// What a row asks of the separation of two events.
    Row {
        number: u32,
        kind: RowKind,
        from: EventName<'a>,
        to: EventName<'a>,
    },
    /// A bound of that separation.
    Bound {
        which: Which,
        bound: Bound,
    },
    /// For each event whether it is in the set that can be raised by any number.
    Raise(&'a [bool]),
    /// Whether a requirement is met.
    Verdict(Verdict),
    /// How far the bounds lie inside the range of the requirement.
    Slack(Slack),
    /// How the report ends.
    End(EndWord),
}
