//! The search by cases: whether any times satisfy a network of latest and earliest constraints, and the greatest separation of a
//! pair of events. The contract of the crate: an answer is right, and the lines that its search writes are a proof of the answer,
//! or of as much as the budget allowed.
#![tactic(auto)]

mod answer;
mod best;
mod bounding;
mod choice_edge;
mod choose;
mod distances;
mod finding;
mod levels;
mod look;
mod raise;
mod search;
mod splittable;
mod trial;
mod work;

pub use answer::Root;
pub use event_graph::{Quiet, Scribe, ScribeFailed};
pub use work::{MAX_START, Work, find, greatest, greatest_from, root_bound};
