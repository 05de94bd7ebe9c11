//! Sums of picoseconds that may be too great for 64 bits.

/// A sum, in picoseconds.
#[derive(Clone, Copy)]
pub struct LongSum {
    pub value: i128,
}
