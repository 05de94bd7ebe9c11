//! The finding of a drawn network and the bounds of its rows, each with its reason. The reason for a number is a chain of edges. The reason for a
//! contradiction is the constraints that contradict each other. For a verdict that rests on the order of a lane there are also the bounds without
//! this order. The contract of the crate: all that `explain` finds is right.
#![tactic(auto)]

mod apart;
mod bound;
mod bounding;
mod desk;
mod explaining;
mod finding;
pub mod laws;
mod network;
mod resting;
mod row;
mod rows;
mod searches;

pub use apart::network_apart;
pub use bound::BoundFound;
pub use finding::Finding;
pub use network::{NetworkFound, explain};
pub use row::RowFound;
