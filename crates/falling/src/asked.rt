//! What is asked of a solver.

use itv_base::EventId;

// A pair of events, and how many lines a derivation may have.
#[derive(Clone, Copy)]
pub struct Asked {
    pub from: EventId,
    pub to: EventId,
    pub turns: u64,
}
