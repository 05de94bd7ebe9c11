//! What a graph knows of a slot.

use itv_base::EdgeName;

/// The label of a slot, and the edge that it came over.
#[derive(Clone, Copy)]
pub struct Stamp {
    /// The label in picoseconds, or `None` if there is no label yet.
    pub label: Option<i64>,
    /// The edge over which the label came, or `None` if it came over no edge.
    pub parent: Option<EdgeName>,
}
