//! Why a network has no view, and why a line of a derivation is refused.

use thiserror::Error;

/// Choices of both kinds: the least numbers of a latest and of an earliest constraint with two or more causes.
#[derive(Clone, Copy, Debug, Error)]
#[error("constraints {late} and {early} are choices of both kinds")]
pub struct Mixed {
    pub late: u32,
    pub early: u32,
}

/// The first fault of a line of a derivation. The checker looks for faults in the order below. Values are in picoseconds.
#[derive(Clone, Copy, Debug, Error)]
pub enum FallCheckFault {
    /// The lines before have ended the derivation already.
    #[error("the derivation has ended before this line")]
    AfterEnd,
    /// The event has this value, which the line does not lower.
    #[error("the event is at {0} already")]
    NotLower(i64),
    /// The edge is no always-edge to the event.
    #[error("the edge is no always-edge to the event")]
    NoEdge,
    /// The constraint is not a latest constraint with this target and with all high ends finite.
    #[error("the constraint cannot lower the event")]
    NoLate,
    /// The reason gives this value, and the line has another.
    #[error("the value that is due is {0}")]
    WrongValue(i64),
}
