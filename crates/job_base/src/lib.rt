//! What all jobs share: how a job ends, or why it has no answer, which the program reports by its exit status; and the lines of events and
//! rows. Each job states with `JobWrote` what it answers and writes.
#![tactic(auto)]

mod answer;
mod events;
mod rows;
mod unanswered;

pub use answer::{Answer, answer_of};
pub use events::put_events;
pub use rows::{put_row, row_at};
pub use unanswered::Unanswered;
