//! The limits of a drawn network.

ghost use Rattle.std.specs.Prelude.{◌≡◌};
ghost use Rattle.unroll.specs.Limits.{most_of};

use itv_base::{
    MAX_CELLS, MAX_CONSTRAINTS, MAX_EVENTS, MAX_MATRIX_EVENTS, MAX_ROWS, MAX_SEARCH_CELLS,
};

/// How many rows a drawn network may have if its ranges are edited.
pub const MAX_SESSION_ROWS: u32 = 64;

/// How many numbers a design may have that are moved one after another.
pub const MAX_NUMBERS: u32 = 1024;

/// What a drawn network may have only so much of. `unroll` answers none of `MatrixEvents`, which is for the report on all pairs,
/// `SessionRows` and `Numbers`.
#[derive(Clone, Copy, Debug)]
pub enum Limit {
    Events,
    Constraints,
    Rows,
    /// Events times rows.
    Cells,
    /// Events times one more than the constraints with two or more causes.
    SearchCells,
    /// Events, if a report says something of all pairs.
    MatrixEvents,
    /// Rows, if ranges are edited.
    SessionRows,
    /// Numbers that draw a cause, if they are moved.
    Numbers,
}

impl Limit {
    /// How much the limit allows.
    pub fn most(self) -> u64
        ensures most { result ≡ most_of self }
    {
        match self {
            Limit::Events => u64::from(MAX_EVENTS),
            Limit::Constraints => u64::from(MAX_CONSTRAINTS),
            Limit::Rows => u64::from(MAX_ROWS),
            Limit::Cells => MAX_CELLS,
            Limit::SearchCells => MAX_SEARCH_CELLS,
            Limit::MatrixEvents => u64::from(MAX_MATRIX_EVENTS),
            Limit::SessionRows => u64::from(MAX_SESSION_ROWS),
            Limit::Numbers => u64::from(MAX_NUMBERS),
        }
    }
}
