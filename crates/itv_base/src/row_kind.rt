//! What is wanted of a separation.

use crate::range::Range;

/// What is wanted of a separation: to know its bounds, or that it lies in a range of picoseconds.
#[derive(Clone, Copy)]
pub enum RowKind {
    Ask,
    Req(Range),
}
