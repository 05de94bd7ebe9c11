//! A stack of graphs for a search that goes down and comes back: each graph has a list of edges and a stamp for each slot.
//! The contract: a push copies the current graph, a pop gives back the graph below exactly as it was, and each call says by one equation
//! what it makes of the whole stack. No call but `new` takes memory.
#![tactic(auto)]

mod stamp;
mod trail;
mod undo;

pub use stamp::Stamp;
pub use trail::Trail;
