//! Greatest separations without a case split, for networks whose choices are all of one kind. Every value starts high and only falls, line
//! by line, until no value falls any more or the network is shown inconsistent.
//! The contract of the crate: [`Falling::greatest`] takes a network that lacks choices of the earliest kind, or of the latest kind. It gives
//! the greatest separation of a pair with times that attain it, or times and a ray that show the pair unbounded, or says that no times
//! satisfy. Each answer has the lines of a derivation. [`FallChecker`] takes a line if and only if a derivation allows it. [`View::of`]
//! says which network is solved, or gives the first choice of each kind.
#![tactic(auto)]

mod agenda;
mod answer;
mod asked;
mod check;
mod checker;
mod derivation;
mod fall_scribe;
mod falling;
mod fault;
mod followers;
mod gap;
mod greatest;
mod guide;
mod kinds;
pub mod laws;
mod limits;
mod line;
mod negation;
mod pending_flags;
mod turn;
mod view;

pub use answer::Fallen;
pub use checker::FallChecker;
pub use fall_scribe::{FallScribe, FallScribeFailed, QuietFall};
pub use falling::Falling;
pub use fault::{FallCheckFault, Mixed};
pub use gap::{Level, gap_level};
pub use limits::{Limits, limits_of};
pub use line::{FallLine, Reason};
pub use negation::negation_of;
pub use view::View;
