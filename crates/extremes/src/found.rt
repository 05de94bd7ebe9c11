//! What is found of a greatest separation.

use requirements::Separation;

/// What is found of the greatest separation of a pair of events, in picoseconds. A number comes with times that satisfy the network and attain it: one
/// per event, each below 2^61 in absolute value. Where there is none, a flag for each event says whether it is in a set of events that can be raised
/// without end. Where it was left open, satisfying times attain `attained`, which is a number.
pub type Greatest = Separation<Vec<i64>, Vec<bool>>;
