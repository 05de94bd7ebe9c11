//! Job self: the summary of the report of a generated design.
//! The contract of the crate: `write_summary` writes how large the design is, how many of its requirements pass, fail and are left
//! undecided in a report of the budget, and how this report ends. If a put failed, it wrote the beginning of this text.
#![tactic(auto)]

mod nowhere;
mod write;

pub use write::write_summary;
