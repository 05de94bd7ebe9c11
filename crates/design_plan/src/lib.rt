//! A plan: the netlist of a design and the sheets of its parts, as they were read. It keeps the notes of the edges and of the wires.
//! Parts, edges, wires and nets are numbered from 0.
//! The one contract: a plan has the sheet of each part, and gives the note of what draws a cause or a row, in characters that can be
//! printed. For an edge without a note it gives the name of the edge's parameter, and for a pin the name of its net. If there is neither,
//! it gives an empty text.
#![tactic(auto)]

mod label_note;
mod places;
mod plan;

pub use label_note::{edge_note, edge_title, net_note, wire_note};
pub use plan::Plan;
