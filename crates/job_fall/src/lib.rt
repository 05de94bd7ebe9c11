//! Job fall: from a drawn network and a number of turns to its bounds by falling values, without a case split. The
//! contract of the crate: `write_fall` writes the view, the events, the finding and both bounds of each row. A
//! derivation, printed or left out, shows each finding and bound, unless its turns were spent before it was known. If a
//! put failed, the beginning of such a text was written.
#![tactic(auto)]

mod bounding;
mod desk;
mod fall_line;
mod finding;
pub mod laws;
mod rows;
mod search;
mod sink_fall_scribe;
mod times;
mod wanted;
mod write;

pub use write::write_fall;
