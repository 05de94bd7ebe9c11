//! The texts of timing diagrams and netlists: labels, edges and wires. Nothing here takes memory.
//! The contract: a label has one spelling. `read_label` and `read_label2` take a text if and only if it is the spelling of a proper label
//! of their version, and report what is wrong with every other text. `read_range` does the same for a range that stands alone.
//! `write_label` writes the spelling. `read_edge` and `read_wire` cut their texts as defined.
#![tactic(auto)]

mod edge;
mod form;
mod label;
mod label2;
mod laws;
mod parts;
mod range;
mod reading;
mod reading2;
mod span;
mod wire;
mod writing;

pub use edge::{EdgeText, read_edge};
pub use label::{Kind, Label, LabelFault};
pub use label2::{Label2, Span};
pub use laws::{plain_labels_stay, reading_inverts_spelling, spellings_differ};
pub use range::read_range;
pub use reading::read_label;
pub use reading2::read_label2;
pub use wire::{WireText, read_wire};
pub use writing::write_label;
