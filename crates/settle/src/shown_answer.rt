//! What is found of a pair.

use edge_clauses::{Claim, StoredLine};
use falling::View;

/// What is known of the greatest separation of a pair of events.
#[derive(Clone, Copy)]
pub enum Settled {
    /// It is this number of picoseconds.
    Closed(i64),
    /// Every number is exceeded.
    Unbounded,
    /// No times satisfy the network.
    Inconsistent,
    /// The turns were spent before it was known, or the room that they give.
    Spent,
}

/// An answer and what shows it.
#[derive(Drop)]
pub struct ShownAnswer {
    pub answer: Settled,
    /// In picoseconds, one per event. After [`Settled::Closed`] the times satisfy and attain the separation. After
    /// [`Settled::Unbounded`] the times satisfy.
    pub times: Vec<i64>,
    /// After [`Settled::Unbounded`] a flag for each event: whether the event can be raised from the times without end.
    pub ray: Vec<bool>,
    /// The bound that the lines prove, in picoseconds: no satisfying times have a greater separation. After
    /// [`Settled::Closed`] it is the separation itself, after [`Settled::Inconsistent`] a number below minus the far
    /// line.
    pub claim: Claim,
    /// Whether the lines are a proof in the network or in its negation.
    pub view: View,
    /// After [`Settled::Closed`] a proof that no satisfying times have a greater separation. After
    /// [`Settled::Inconsistent`] a proof that no times satisfy.
    pub lines: Vec<StoredLine>,
    /// How many turns were taken.
    pub turns: u64,
}
