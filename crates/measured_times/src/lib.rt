//! Files of measured times: a line for each run, with the time of each event of a network, or a star for an event that was not seen.
//! The contract: `read_times` gives the times of all runs if each line is the text of a run, and otherwise the number of the first line that
//! is not. Each run has a time or a star for each event, and all times are within their limit.
#![tactic(auto)]

mod fault;
mod file;
mod laws;
mod line;
mod run;

pub use fault::TimesFault;
pub use file::{MAX_TIMES_BYTES, read_times};
pub use laws::run_lines_are_read;
pub use run::{MAX_TIME, MeasuredRun, MeasuredRuns};
