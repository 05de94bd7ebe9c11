//! Job matrix: from a drawn network to the root bounds of all pairs of its events. The contract of the crate: `write_matrix` writes the events, and
//! for each pair the greatest separation over times that meet the always-edges, or a star where it is unbounded. If no times meet the always-edges,
//! it writes one line that says so. If a put failed, the beginning of such a text is written.
#![tactic(auto)]

mod lines;
mod write;

pub use write::write_matrix;
