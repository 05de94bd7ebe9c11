//! What is found of a row.

use crate::by_order::ByOrder;
use crate::pair_seen::PairSeen;

/// What is found of a row.
#[derive(Drop)]
pub struct RowSeen {
    pub greatest: PairSeen,
    /// The greatest separation of the reversed pair, which is minus the least separation.
    pub least: PairSeen,
    /// Whether its requirement passes because of the order of lanes alone. A row that only asks has none.
    pub passes: ByOrder,
}
