//! How far something may be moved.

/// How far one end of a number, or the values of numbers, may be moved in one direction: by how many picoseconds, and what stops it beyond. A negative number
/// says how far it has to be moved the other way, where the design fails as drawn.
#[derive(Clone, Copy)]
pub enum Margin {
    /// However far: every requirement passes with the end open, or with each value.
    Free,
    /// By this number, and by one more the row with this number breaks.
    Until { by: i64, row: u32 },
    /// By this number, and by one more the rules contradict each other.
    UntilContradiction { by: i64 },
    /// By none that a range may have, of an end; or by none that was found, of values.
    Never,
    /// As far as a range may be drawn.
    Limit,
    /// The searches were left open before it was known.
    Spent,
}
