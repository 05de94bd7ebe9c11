//! Steady times.

/// Times of one cycle, and the period of each mark, in picoseconds. In each cycle of a run each mark comes a period after the cycle before.
#[derive(Drop)]
pub struct Period {
    pub each: Vec<i64>,
    pub times: Vec<i64>,
}
