//! Job files: the names of the files that a design is made of, one on each line.
//! The contract of the crate: `write_files` writes the names in their order. If a put failed, it wrote a front of this text.
#![tactic(auto)]

mod write;

pub use write::write_files;
