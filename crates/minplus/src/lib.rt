//! The matrix of the root bounds of all pairs of events, as the always-edges of a network give them. The contract of
//! the crate: `closure` gives for each pair the greatest separation among all times that meet the always-edges, or none
//! where it is unbounded. It returns `Loop` if and only if no times meet them.
#![tactic(auto)]

mod closing;
mod edges;
mod fault;
mod lanes;
mod matrix;
mod matrix_row;
mod rows;

pub use fault::MatrixFault;
pub use lanes::row_lanes;
pub use matrix::{Matrix, closure};
pub use rows::{ABSENT, row_plain};
