//! The numbers of a design as they are drawn: an edge of the sheet of a part, a net with all its pins, an edge of the netlist. Each gives its
//! range to causes of a drawn network, in all cycles at once. The contract: `causes_of` gives the causes that a number draws, and
//! `set_ranges` gives each of some causes another range. The law `numbers_are_set` says what the two calls do together.
#![tactic(auto)]

mod cause_name;
mod causes;
mod drawn_number;
mod laws;
mod setting;

pub use cause_name::CauseName;
pub use causes::causes_of;
pub use drawn_number::DrawnNumber;
pub use laws::numbers_are_set;
pub use setting::set_ranges;
