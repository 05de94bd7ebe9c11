//! Requirements on separations: the verdict on a requirement according to the two bounds of its pair, and how far the bounds are inside its
//! ends. The contract: a verdict is the one in the table of verdicts. With right bounds, a pass says that every satisfying
//! separation lies in the range, and a fail says that a printed one does not.
#![tactic(auto)]

mod bound;
mod broken;
mod consistency;
pub mod laws;
mod raising;
mod separation;
mod slacks;
mod verdict;

pub use bound::{BothBounds, Bound, Slack, negated_known};
pub use consistency::Consistency;
pub use raising::raise_past;
pub use separation::Separation;
pub use slacks::slack;
pub use verdict::{Verdict, judge};
