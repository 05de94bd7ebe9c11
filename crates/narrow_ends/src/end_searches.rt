//! The searches for ends.

use crate::found_times::FoundTimes;

/// How many searches may still be made, and the satisfying times of the last ones.
#[derive(Drop)]
pub struct EndSearches {
    pub left: u64,
    pub found: FoundTimes,
}
