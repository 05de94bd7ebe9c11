//! Bounds on one graph, which takes one edge after another and gives it back: the greatest separations of all events from a source, over the times
//! that meet the always-edges of a network and the chosen edges. The contract of the crate: while a graph stands, `upper` is the greatest separation
//! of an event, and `start` and `descend` answer `Loop` if and only if no times meet the edges.
#![tactic(auto)]

mod adding;
mod arc;
mod bounds;
mod chosen_edges;
mod falling;
mod fit;
mod guess;
mod heap;
mod joining;
mod order;
mod out_edges;
mod pending;
mod settling;
mod times;
mod turns;
mod walks;

pub use bounds::Bounds;
pub use fit::Fit;
