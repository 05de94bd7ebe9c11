//! Reads the tree of a WaveJSON sheet: the lanes of its `signal`, groups flattened, the texts of its `edge`, and its
//! near keys, which are ignored and nearly are keys that are read.
//! The contract: `read_diagram` gives `diagram_of` of specs/Drawing.antt, which is the drawing of the tree or its first
//! fault. Lack of memory never hides a fault: `NoMemory` is returned only for a tree that has a drawing.
#![tactic(auto)]

mod diagram;
mod edges;
mod fault;
mod lane_text;
mod lanes;

pub use diagram::{Diagram, read_diagram};
pub use fault::DiagramFault;
pub use lane_text::LaneText;
pub use lanes::Lanes;
