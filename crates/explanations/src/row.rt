//! What is found of a row.

use crate::bound::BoundFound;
use requirements::BothBounds;

/// What is found of a row: both of its bounds. If its verdict rests on the order of a lane, also both bounds without that order.
#[derive(Drop)]
pub struct RowFound {
    pub greatest: BoundFound,
    pub least: BoundFound,
    pub apart: Option<BothBounds>,
}
