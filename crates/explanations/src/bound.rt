//! What is found of a bound.

use itv_base::EdgeName;
use requirements::Separation;

/// The greatest or the least separation of a row, in picoseconds, with its reason. A number comes with a chain of edges from one event of the pair to
/// the other, whose weights sum to it. Where there is none, a flag for each event says whether it is in a set of events that can be raised by any number.
/// A least separation is minus the greatest separation of the reversed pair, and its reason is given for this pair.
pub type BoundFound = Separation<Vec<EdgeName>, Vec<bool>>;
