//! Job brief: each row on one line, the worst first, as words or as a table; rows that say the same in one cycle after another are one line.
//! The contract of the crate: `write_brief` writes what is found of the network and of each of its rows. If a put failed, it wrote a
//! front of such a text.
#![tactic(auto)]

mod judged;
mod line;
mod order;
mod outline;
mod put_cells;
mod put_line;
mod put_rows;
mod ranks;
mod row_counts;
mod row_rank;
mod run_place;
mod runs;
mod same;
mod write;

pub use write::write_brief;
