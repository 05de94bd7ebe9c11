//! Speed grades and their parameters.

use itv_base::{Listing, Range, Text};

/// A parameter of a grade: its name, which is 1 to 16 ASCII letters, digits or `_`, and its range in picoseconds.
#[derive(Drop)]
pub struct Parameter {
    pub name: Text,
    pub range: Range,
}

/// Parameters in the byte order of their names.
pub type Parameters = Listing<Parameter>;

/// A speed grade: its name, which has the form of a parameter's name, and its parameters.
#[derive(Drop)]
pub struct Grade {
    pub name: Text,
    pub parameters: Parameters,
}
