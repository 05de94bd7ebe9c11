//! What lines are judged by.

use falling::Limits;
use itv_base::EventId;

/// The limits of the network, and the goal of a proof: no satisfying times have a separation of the pair above the claim, in picoseconds.
#[derive(Clone, Copy)]
pub struct Terms {
    pub limits: Limits,
    pub from: EventId,
    pub to: EventId,
    pub claim: i64,
}
