//! Where the causes of constraints and the rows of a drawn network come from: what in a sheet or a netlist draws them, and who
//! keeps the notes of edges and the speed grades of parts. The contract: `put_origin` puts the text of an origin, and different
//! origins have different texts. A keeper of notes gives the note of an origin, given the name of its part, and an empty text if
//! there is none.
#![tactic(auto)]

pub mod laws;
mod notes;
mod origin;
mod put;

pub use notes::Notes;
pub use origin::Origin;
pub use put::put_origin;
