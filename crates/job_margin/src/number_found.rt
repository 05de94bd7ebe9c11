//! What is found of a number.

use margins::EndsFound;
use moves::SpanFound;

/// What is found of a number: of its ends, and of its values, where its range has one value.
#[derive(Clone, Copy)]
pub struct NumberFound {
    pub ends: EndsFound,
    pub span: Option<SpanFound>,
}
