//! What is found of the values of numbers around the drawn one.

use crate::margin::Margin;

/// How far numbers that move as one may be moved down and up: both ends of their ranges at once. Both margins are `Never` where no value was found with which
/// every requirement passes.
#[derive(Clone, Copy)]
pub struct SpanFound {
    pub down: Margin,
    pub up: Margin,
}
