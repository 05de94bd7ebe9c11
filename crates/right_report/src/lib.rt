//! Right reports: what a report says of a network if each of its lines is right, and which line of a report is the first wrong one.
//! The contract: a report is right if it shows its numbers, or if each of its lines meets the check. What a right report says of
//! all satisfying times holds.
#![tactic(auto)]

mod judging;
pub mod laws;
mod tally;

pub use judging::is_fail;
pub use tally::ReportTally;
