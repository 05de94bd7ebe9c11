//! What is found of a greatest separation.

use itv_base::EdgeName;

/// What is found of the greatest separation of a pair of events.
#[derive(Drop)]
pub enum PairSeen {
    /// It is this number of picoseconds. The edges of the chain lead from the one event to the other, and some satisfying times that attain the
    /// number meet each of them with equality.
    Closed { value: i64, chain: Vec<EdgeName> },
    /// There is none: satisfying times exceed every number.
    Unbounded,
    /// The search was left open.
    Open,
}
