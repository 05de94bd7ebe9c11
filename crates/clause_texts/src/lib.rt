//! Lines of proofs by clauses as texts, both ways. The contract: a line has one text, and `write_clause_line` writes it. `read_clause_line` takes
//! these texts and no others. Each stored line has a text.
#![tactic(auto)]

mod fitting;
mod heading;
pub mod laws;
mod put;
mod reading;
mod words;
mod writing;

pub use fitting::have_texts;
pub use heading::{read_claim, read_view};
pub use reading::read_clause_line;
pub use writing::{write_clause_line, write_proof};
