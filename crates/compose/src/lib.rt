//! The design of a netlist: its parts with their sheets, the joins of its nets, and the rules and rows of its wires. A mark of a design has the
//! number of its part and its number on the part's sheet, both from 0. All marks of a design also have numbers from 0, part by part. The contract of
//! the crate: `compose` returns the first fault if and only if the netlist has one with its sheets, except for lack of memory. Otherwise it returns
//! the design, in which all that its joins, rules and rows name is there.
#![tactic(auto)]

mod composing;
mod design;
mod fault;
mod joins;
mod mark;
mod nets;
mod sheet_key;
mod sheets;
mod terminal;
mod wires;

pub use composing::compose;
pub use design::Design;
pub use fault::JoinFault;
pub use joins::{Join, Joins, PinJoins};
pub use mark::DesignMark;
pub use sheet_key::SheetKey;
pub use sheets::Sheets;
