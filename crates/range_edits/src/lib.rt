//! Files of edits: each line sets the range of one cause of a drawn network, or of each cause that a number draws.
//! The contract: a line is read as an edit if and only if it is the text of this edit and the network has what it names. `read_edits` gives
//! the edits of all lines, or the first fault.
#![tactic(auto)]

mod edit;
mod fault;
mod file;
mod laws;
mod line;
mod named;

pub use edit::{Edits, RangeEdit, Subject};
pub use fault::EditsFault;
pub use file::{MAX_EDITS, MAX_EDITS_BYTES, read_edits};
pub use laws::edit_lines_are_read;
