//! What holds of every design that is read, and of every network that it draws: its names and its ranges. The laws are theorems
//! without code. They ensure that every line of a report can be printed and read back.
#![tactic(auto)]

mod laws;

pub use laws::{drawn_names_differ, drawn_names_have_form, drawn_ranges_have_form, read_is_design};
