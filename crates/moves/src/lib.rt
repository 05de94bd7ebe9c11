//! Drawn networks in which numbers of the drawing are moved: an edge of the sheet of a part, a net with all its pins, an edge of the netlist. The
//! contract: `numbers_of` gives the numbers of a drawing, and `moved_network` and `moved_rows` move the ranges that some of them draw, wherever they are
//! drawn. The definitions say what is found of a number, and the laws what that says of all moves.
#![tactic(auto)]

pub mod laws;
mod listing;
mod margin;
mod moving;
mod net_found;
mod number_key;
mod number_seen;
mod pushing;
mod reading;
mod rows;
mod shifting;
mod span;

pub use listing::{all_numbers_of, numbers_of};
pub use margin::Margin;
pub use moving::{MOVE_LIMIT, Move, any_draws, moved_network, moved_range};
pub use net_found::NetFound;
pub use number_seen::NumberSeen;
pub use pushing::push_with;
pub use reading::{
    cause_of, kind_of, origins_of, part_of_target, read_drawn, read_rows, target_of,
};
pub use rows::moved_rows;
pub use shifting::can_shift;
pub use span::SpanFound;
