//! Job check: whether a report of a drawn network is right, without any search.
//! The contract of the crate: a text is accepted if and only if it is the text of a report each line of which meets the
//! check. Only a right report meets it. Any other text is refused at its first wrong line.
#![tactic(auto)]

mod answer;
mod bounds;
mod check;
mod judge;
mod names;
mod proof_group;
mod stage;
mod times;
mod walk;

pub use answer::{put_refused, write_check};
pub use check::{Checked, check_report};
