//! Numbers of a drawing with their ranges.

use drawn_numbers::DrawnNumber;
use itv_base::Range;

/// A number of a drawing, and the range of the first cause that it draws.
#[derive(Drop)]
pub struct NumberSeen {
    pub number: DrawnNumber,
    pub range: Range,
}
