//! The wires of a netlist.

use itv_base::{Listing, Range, Text};
use label_grammar::Kind;

/// A wire, from a mark of a part to a mark of a part, with what its timing label says. Each mark is a visible character of ASCII. The shift is
/// in cycles and the range in picoseconds. Only an ask has no range.
#[derive(Drop)]
pub struct Wire {
    pub from_part: Text,
    pub from_mark: u8,
    pub to_part: Text,
    pub to_mark: u8,
    pub kind: Kind,
    pub shift: u32,
    pub tag: Option<Text>,
    pub range: Option<Range>,
}

/// One element for each text of `edges`. A comment is `None`.
pub type Wires = Listing<Option<Wire>>;
