//! Lines of a report as they are stored.

use crate::words::{EndWord, Which};
use certificate::OwnedLine;
use itv_base::{RowKind, Text};
use requirements::{Bound, Consistency, Slack, Verdict};

/// The name of an event.
#[derive(Drop)]
pub struct OwnedName {
    pub part: Text,
    pub mark: u8,
    pub cycle: u32,
}

/// A line of a report that owns its parts.
#[derive(Drop)]
pub enum OwnedItem {
    Heading,
    Budget(u64),
    Events(u32),
    Event(u32, OwnedName),
    Proof(OwnedLine),
    Finding(Consistency),
    Times(Vec<i64>),
    Rows(u32),
    Row(u32, RowKind, OwnedName, OwnedName),
    Bound(Which, Bound),
    Raise(Vec<bool>),
    Verdict(Verdict),
    Slack(Slack),
    End(EndWord),
}
