//! Whether any times satisfy a network.

/// What is known of the times that satisfy a network.
#[derive(Clone, Copy, PartialEq, Eq)]
pub enum Consistency {
    /// Some times do.
    Consistent,
    /// None do.
    Inconsistent,
    /// The search ended before it was known.
    Open,
}
