//! The drawn network of a design: its events, constraints with their origins, and rows, cycle by cycle. All counts come before any
//! memory is taken for the network, so a design that exceeds a limit is refused at once. The one contract: `unroll` gives what the
//! design draws, or the first limit that this passes, with the count.
#![tactic(auto)]

mod asked;
mod counted;
mod counts;
mod draw;
mod fault;
pub mod laws;
mod limit;
mod names;
mod network;
mod numbered_design;
mod one_cycle;
mod origins;
mod reach;
mod row;
mod rules;

pub use draw::unroll;
pub use fault::UnrollFault;
pub use limit::{Limit, MAX_NUMBERS, MAX_SESSION_ROWS};
pub use network::{event_in, network_of};
pub use one_cycle::{all_rows, all_rules, mark_count};
pub use reach::reaches_no_further;
