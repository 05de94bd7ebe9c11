//! Job bounds: from a drawn network and a budget to a report. The contract of the crate: `write_bounds` writes a right report of the network. Lines
//! of proofs, printed or left out, show its finding and its bounds. If a put failed, the beginning of such a report is written.
#![tactic(auto)]

mod bound_witness;
mod bounding;
mod desk;
mod finding;
pub mod laws;
mod limits;
mod pair;
mod past;
mod row;
mod rows;
mod search;
mod summary;
mod tally;
mod verdict;
mod wanted;
mod write;

pub use summary::Summary;
pub use write::write_bounds;
