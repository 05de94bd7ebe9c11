//! Stray keys.

use crate::key_place::KeyPlace;
use itv_base::{Listing, Text};

/// A key that is not known, as it is written, and the object that has it.
#[derive(Drop)]
pub struct StrayKey {
    pub place: KeyPlace,
    pub key: Text,
}

/// Stray keys in the order in which they are found.
pub type StrayKeys = Listing<StrayKey>;
