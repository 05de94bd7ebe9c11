//! Lines of proofs as texts, and the scribes that keep or write them while a proof is found.
//! The contract: each line of a proof has one text, which `write_line` writes. `read_line` takes these texts and no others. A scribe grows
//! by just the lines that it takes, or fails in the last of them.
#![tactic(auto)]

mod fault;
pub mod laws;
mod line;
mod reading;
mod sink_scribe;
mod stored;
mod tree_scribe;
mod writing;

pub use fault::LineFault;
pub use line::OwnedLine;
pub use reading::{edge_in, proof_in, read_line};
pub use sink_scribe::SinkScribe;
pub use tree_scribe::TreeScribe;
pub use writing::{put_edge, side_letter, write_line};
