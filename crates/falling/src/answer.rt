//! Answers about a pair of events.

/// What falling values say of the greatest separation of a pair of events.
#[derive(Clone, Copy)]
pub enum Fallen {
    /// It is this number of picoseconds.
    Closed(i64),
    /// Every number is exceeded.
    Unbounded,
    /// No times satisfy the network.
    Inconsistent,
    /// The turns were spent before it was known.
    Spent,
}

// An answer, and the number of turns that it took.
#[derive(Clone, Copy)]
pub struct CountedAnswer {
    pub fallen: Fallen,
    pub turns: u64,
}
