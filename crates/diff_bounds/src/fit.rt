//! Whether edges allow times.

/// Whether the edges of a graph allow times.
#[derive(Clone, Copy, PartialEq, Eq)]
pub enum Fit {
    /// Some times meet all of the edges.
    Fits,
    /// No times meet all of them.
    Loop,
}
