//! The pins that a net names.

use itv_base::{Listing, Text};

/// A pin as a net names it: the name of a part, and the name of a lane of its sheet. The name of a lane is not empty.
#[derive(Drop)]
pub struct PinText {
    pub part: Text,
    pub lane: Text,
}

/// Pins in the order in which the net lists them.
pub type PinTexts = Listing<PinText>;
