//! What callers may rest on. Clients are callers that are proved from the clauses of `itv_cli::run` alone, or from the
//! clauses of a crate below it. Each says what these clauses give. Laws say how the jobs stand to one another. What the
//! program writes is shown by the cases of the program `cases`.
#![tactic(auto)]

mod clients;
mod derived_bounds;
mod job_clients;
mod kept_proofs;
pub mod laws;
mod written_labels;

pub use clients::{
    bounds_of, end_of, fall_of, front_of, refusal_of, report_of, run_twice, unread_of, untouched_of,
};
pub use derived_bounds::bound_of;
pub use job_clients::{
    briefed_of, checked_of, confirmed_of, edited_of, explained_of, listed_of, lone_said_of,
    longer_said, margins_of, matrix_of, proofs_accepted, redrawn_of, said_of, self_of,
    settled_confirmed, settled_of, warned_of,
};
pub use kept_proofs::kept_proof;
pub use written_labels::written_again;
