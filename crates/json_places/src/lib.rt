//! Where the values of a text in JSON are, in its bytes and as lines and columns. The text is one that a parser has accepted; of any other text the
//! places are some places. There is no contract on them: they are shown to people. A place is found in one pass over the text for each step.
#![tactic(auto)]

mod place;
mod scan;
mod text;
mod way;

pub use place::{Place, byte_at, place_of};
pub use text::character_at;
pub use way::{Step, value_at};
