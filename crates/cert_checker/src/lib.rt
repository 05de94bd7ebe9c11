//! A checker of proofs by cases. A proof shows that no separation of a pair of events exceeds a value, or that no times
//! satisfy a network. The checker takes the lines of a proof one after another. The contract of the crate: `take`
//! accepts a line if and only if the reading of proofs does. Otherwise it returns the first fault of the line and changes
//! nothing.
#![tactic(auto)]

mod check_fault;
mod checker;
mod goal;
pub mod laws;
mod ray;
mod walk;

pub use check_fault::CheckFault;
pub use checker::Checker;
pub use goal::Goal;
pub use ray::check_ray;
