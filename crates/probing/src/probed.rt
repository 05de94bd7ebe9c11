//! What a probe finds.

use itv_base::EdgeName;
use moves::NetFound;

/// One end of the range of a requirement, and the edges that bring satisfying times nearest to it.
#[derive(Drop)]
pub struct SideChain {
    /// The number of the row.
    pub row: u32,
    /// It is the high end.
    pub is_high: bool,
    /// How far the times stay from the end, in picoseconds. The number is negative where they are past it.
    pub slack: i64,
    /// The edges, one after another, that the times meet with equality.
    pub names: Vec<EdgeName>,
}

/// What is found of a network with its rows.
#[derive(Drop)]
pub struct Probed {
    pub found: NetFound,
    /// Times that break the row that was found to break, in picoseconds, one per event, if the search left some.
    pub times: Option<Vec<i64>>,
    /// The ends of requirements that were searched before the probe ended, but for those without a number.
    pub sides: Vec<SideChain>,
}
