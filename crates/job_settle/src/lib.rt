//! Job settle: from a drawn network and a number of turns to its exact bounds, whatever its choices.
//! The contract of the crate: `write_settle` writes what is found of the network and of each of its rows, with proofs if they are wanted.
//! If a put failed, a front of such a text was written.
#![tactic(auto)]

mod bound;
mod bounding;
mod ending;
mod finding;
mod pair;
mod past;
mod proof;
mod put_bounds;
mod put_rows;
mod row;
mod rows;
mod times;
mod wanted;
mod write;

pub use bound::{SettledBound, both_of};
pub use ending::ending_of;
pub use finding::Finding;
pub use proof::Proof;
pub use put_bounds::{put_bound, put_finding};
pub use put_rows::put_judged;
pub use row::RowFound;
pub use write::{put_front, write_settle};
