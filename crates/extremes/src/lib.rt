//! Whether some times satisfy a network, and greatest separations of its pairs, by two searches: the search by cases within a budget, and the search
//! by clauses within a number of turns, which answers where the other leaves it open. The contract of the crate: what `find` and `greatest` find is
//! right. An answer is left open only if a search by cases used the budget up. The constraints that `contradiction` gives contradict each other.
#![tactic(auto)]

mod by_cases;
mod by_clauses;
mod confirming;
mod extremes;
mod found;
mod naming;
mod starting;
mod turns;

pub use extremes::{Extremes, FIRST_CASES};
pub use found::Greatest;
pub use settle::RunTurns;
pub use turns::{run_turns, turns_of};
