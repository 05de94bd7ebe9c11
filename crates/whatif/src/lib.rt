//! Sessions: bounds of pairs of events that are kept while ranges of their network are edited.
//! The contract, while times are found that satisfy the network: after any edits each bound is right for the current
//! network. An edit keeps a bound if and only if such times were found before it too, and what the bound keeps shows
//! that it is right for the edited network. Otherwise the edit searches the bound anew.
#![tactic(auto)]

mod bound;
mod change;
mod copying;
mod fault;
mod keeper;
mod laws;
mod proving;
mod running;
mod session;
mod settling;

pub use bound::{Kept, MAX_KEPT_EDGES, MAX_KEPT_LINES};
pub use change::Change;
pub use event_graph::Pair;
pub use fault::{EditFault, SessionFault};
pub use laws::settled_bounds_agree;
pub use running::{Note, note_session, run_edits};
pub use session::{MAX_PAIRS, Session};
