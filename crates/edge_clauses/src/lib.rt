//! Proofs of bounds by clauses, for networks with choices of both kinds. A clause is a list of edges, of which times meet one. Bounds of times fall and
//! rise by clauses. Loops and refuted assumptions are kept as clauses. The contract of the crate: [`ClauseChecker`] takes a line if and only if a proof
//! allows it. [`decide`] says what an ended proof and times show of the checker's goal.
#![tactic(auto)]

mod basis;
mod bounds;
mod changing;
mod checker;
mod claim;
mod clause_room;
mod decided;
mod edge_list;
mod frames;
mod judge;
mod known;
pub mod laws;
mod line;
mod long_sum;
mod terms;
mod walk;
mod weights;

pub use basis::{Basis, WalkStep};
pub use checker::ClauseChecker;
pub use claim::Claim;
pub use decided::{ProofVerdict, decide};
pub use line::{EventBound, StoredLine};
