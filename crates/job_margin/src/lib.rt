//! Job margin: how far each end of each number of a drawing may be moved before a requirement breaks, and between which values a number with one value may
//! lie. The contract: `write_margin` writes what is found of each number, or of the numbers of a list that move as one, and all of it is right.
//! `read_numbers` reads such a list.
#![tactic(auto)]

mod ending;
mod finding;
mod lines;
mod list_fault;
mod named;
mod number_found;
mod open;
mod words;
mod write;

pub use list_fault::ListFault;
pub use named::read_numbers;
pub use write::write_margin;
