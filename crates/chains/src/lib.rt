//! Why a bound is what it is: chains of edges that satisfying times meet with equality, and the constraints that a proof rests on.
//! The contract of the crate: `find` gives a chain between two events if and only if there is one; if there is none, the times are not the
//! best. The constraints that a marking has are the constraints that the lines of a proof name, and by themselves they prove as much.
#![tactic(auto)]

mod chains;
mod follow;
pub mod laws;
mod marking;
mod spread;
mod spreading;

pub use chains::Chains;
pub use marking::Marking;
