//! How far each end of each number of a drawing may be moved before a requirement breaks. The contract: `find_ends` finds for each end of each number that
//! it is free, or its margin and the row that breaks beyond it, or that no end makes every requirement pass. What is found is right, and is left open
//! only if the cause choices are more than the budget.
#![tactic(auto)]

mod base;
mod bracket;
mod ends;
mod falling_short;
mod free;
mod passing;
mod reach;
mod sought;

pub use base::{Base, base_of};
pub use ends::{EndsFound, find_ends};
