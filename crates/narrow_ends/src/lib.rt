//! The ends of drawn ranges that no satisfying times attain, because other rules are tighter. The contract of the crate: `find_narrow` finds for each
//! end, once for all cycles and places that one thing draws, whether some satisfying times attain it, or how far they come at most.
#![tactic(auto)]

mod end;
mod end_searches;
mod ends;
mod found_times;
mod narrow;
mod search;
mod source;

pub use end::{EndFound, RangeEnd};
pub use narrow::{MOST_SEARCHES, find_narrow};
