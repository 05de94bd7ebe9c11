//! What the search for a root bound answers.

/// The greatest separation of a pair over the times that meet the always-edges alone, in picoseconds.
#[derive(Clone, Copy)]
pub enum Root {
    /// No times meet the always-edges.
    NoTimes,
    /// It is this number, or `None` if it is unbounded.
    Bound(Option<i64>),
}
