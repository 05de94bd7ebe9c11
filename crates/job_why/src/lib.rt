//! Job why: both bounds of each row, with the edges of the drawing behind them. The contract of the crate: `write_why` writes
//! what is found of the network and of each of its rows, with its reasons. If a put failed, it wrote the beginning of such a text.
#![tactic(auto)]

mod bound;
mod drawn_by;
mod drawn_cause;
mod ending;
mod line;
mod put_bounds;
mod put_line;
mod put_rows;
mod put_rules;
mod steps;
mod write;

pub use bound::both_of;
pub use drawn_by::{DrawnBy, put_by};
pub use ending::ending_of;
pub use write::write_why;
