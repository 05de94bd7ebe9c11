//! What a proof is to show.

use itv_base::EventId;

/// What a proof is to show of a network.
#[derive(Clone, Copy)]
pub enum Goal {
    /// That no satisfying separation of a pair of events exceeds a value, in picoseconds.
    Bound {
        from: EventId,
        to: EventId,
        value: i64,
    },
    /// That no times satisfy the network.
    Nothing,
}
