//! Why a line of a proof is refused.

use std::error::Error;
use std::fmt;

/// The first fault of a line of a proof, in the order in which the check looks for them. The edges of a path or of a
/// loop have places from 0, and sums are in picoseconds.
#[derive(Clone, Copy, Debug)]
pub enum CheckFault {
    /// The lines before are a whole proof already.
    AfterEnd,
    /// The constraint of a split is not there, or it is linear.
    NoSuchConstraint,
    /// The constraint of a split is split above already.
    AlreadySplit,
    /// A path is in a proof of `Nothing`, that no times satisfy.
    PathHere,
    /// There are this many edges, more than the network has events.
    TooLong(usize),
    /// There is no edge of the name at this place.
    BadEdge(usize),
    /// The edge at this place may not be used: it is no always-edge, and it is not on the choice side with its cause
    /// chosen.
    NotChosen(usize),
    /// The walk is broken at this edge: it does not begin where the edge before ends, or where the path begins. A place
    /// equal to the number of edges means that the walk ends at the wrong event: a path not at its to-event, or a loop
    /// not where it began.
    Broken(usize),
    /// The path has this sum, which exceeds the value.
    SumTooGreat(i64),
    /// The loop has this sum, which is not negative.
    NotNegative(i64),
}

impl fmt::Display for CheckFault {
    ghost use Rattle.std.specs.Prelude.{Some};
    ghost use Rattle.cert_checker.specs.FaultText.{fault_text};

    ghost output = { λ fault. Some (fault_text fault) };

    fn fmt<W: fmt::Write>(&self, f: &mut fmt::Formatter<W>) -> fmt::Result {
        match self {
            CheckFault::AfterEnd => write!(f, "the proof is whole before this line"),
            CheckFault::NoSuchConstraint => write!(f, "there is no such constraint to split"),
            CheckFault::AlreadySplit => write!(f, "the constraint is split above"),
            CheckFault::PathHere => write!(f, "a proof of nothing has no paths"),
            CheckFault::TooLong(count) => write!(f, "{count} edges are more than there are events"),
            CheckFault::BadEdge(place) => write!(f, "there is no edge of the name at {place}"),
            CheckFault::NotChosen(place) => write!(f, "the edge at {place} may not be used here"),
            CheckFault::Broken(place) => write!(f, "the edges are broken at {place}"),
            CheckFault::SumTooGreat(sum) => write!(f, "the sum {sum} exceeds the value"),
            CheckFault::NotNegative(sum) => write!(f, "the sum {sum} is not negative"),
        }
    }
}

impl Error for CheckFault {}
