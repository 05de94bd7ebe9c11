//! A counterexample as a timing diagram: a row of a drawn network at some times, as WaveJSON. The contract of the crate: `draw`
//! writes the drawing of a row at some times. WaveDrom draws it, and it can be read again as a lone sheet. The laws say what such a
//! drawing keeps of the times.
#![tactic(auto)]

mod drawn_event;
pub mod laws;
mod order;
mod row;
mod standing;
mod write;

pub use drawn_event::{DrawnEvent, MOST_DRAWN, Timed};
pub use row::{DrawSpace, draw};
