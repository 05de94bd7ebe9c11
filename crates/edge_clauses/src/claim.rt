//! Claims.

/// A bound that a proof claims, in picoseconds: no satisfying times have a greater separation of the pair.
#[derive(Clone, Copy)]
pub struct Claim {
    pub value: i64,
}
