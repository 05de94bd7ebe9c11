//! The rows of a matrix.

ghost use Rattle.std.specs.Prelude.{◌≡◌, ◌<◌, [], length, slice_index_or};
ghost use Rattle.minplus.specs.Matrix.{cells};

use std::marker::Model;

/// The entries from one event to each event. Contracts see the list of entries.
#[derive(Drop)]
pub struct MatrixRow {
    pub entries: Vec<i64>,
}

impl Model for MatrixRow {
    ghost use Rattle.std.specs.Prelude.{List, ℤ};

    ghost Value = { List ℤ };

    ghost view = { λ row. row.entries.items };
}

/// The entry from one event to another, given by their numbers.
pub fn entry(rows: &[MatrixRow], from: usize, to: usize) -> i64
    requires from { from < length rows.now }
    requires to { to < length (slice_index_or rows.now from []) }
    ensures entry { result ≡ cells rows.now from to }
{
    let row = &rows[from];
    row.entries[to]
}
