//! Job redraw: from a drawn network and a budget to the drawing of a counterexample. The contract of the crate: for a report as job
//! bounds writes it, `write_redraw` writes the drawing of the first row that fails, at times that break it. If no row fails, it
//! writes that nothing failed, or that no times satisfy the network. If a put failed, it wrote the beginning of this text.
#![tactic(auto)]

pub mod laws;
mod scan;
mod search;
mod tape;
mod write;

pub use write::write_redraw;
