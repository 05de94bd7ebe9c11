//! The parts of a netlist.

use itv_base::{Listing, Text};

/// A part. Its name is 1 to 16 letters of ASCII, digits or `_`. Its sheet is the name of the sheet that it is drawn on. Its speed grade, which
/// only a part of version 2 may have, has the form of a name.
#[derive(Drop)]
pub struct Part {
    pub name: Text,
    pub sheet: Text,
    pub grade: Option<Text>,
}

/// Parts in the order in which they are listed.
pub type Parts = Listing<Part>;
