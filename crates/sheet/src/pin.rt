//! The pins of a sheet.

use itv_base::{Listing, Text};

/// A pin: a lane with a name and at least one mark. Its marks are the `count` marks from number `first` on, in drawn order. Lanes and
/// marks are counted from 0.
#[derive(Drop)]
pub struct Pin {
    pub lane: u64,
    pub name: Text,
    pub first: u32,
    pub count: u32,
}

/// Pins in the order of their lanes.
pub type Pins = Listing<Pin>;
