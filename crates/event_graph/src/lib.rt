//! Networks of linear, latest and earliest timing constraints between events: which times satisfy a network, its edges,
//! its cause choices and the choices of a case. The contract of the crate: `broken` returns none if and only if the
//! times satisfy the network, and otherwise the number of the first constraint that they break. It also defines proofs by
//! cases, the `Scribe` that writes one, and what searches and checkers share: `Decisions` and `ByEvent`.
#![tactic(auto)]

mod by_event;
mod cause;
mod choice;
mod constraint;
mod decisions;
mod edge;
pub mod laws;
mod line;
mod negated;
mod network;
mod pair;
mod push_fault;
mod scribe;
mod times;

pub use by_event::ByEvent;
pub use cause::Cause;
pub use choice::Choice;
pub use decisions::Decisions;
pub use edge::Edge;
pub use line::Line;
pub use negated::{negated_end, negated_time, negated_weight};
pub use network::Network;
pub use pair::Pair;
pub use push_fault::PushFault;
pub use scribe::{Quiet, Scribe, ScribeFailed};
pub use times::{move_all, separation, time_of};
