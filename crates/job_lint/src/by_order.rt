//! Whether the order of lanes decides something.

/// Whether something is so because of the order of lanes alone: it is so, and without that order it is not.
#[derive(Clone, Copy, PartialEq, Eq)]
pub enum ByOrder {
    Yes,
    No,
    /// A search was left open.
    Open,
}
